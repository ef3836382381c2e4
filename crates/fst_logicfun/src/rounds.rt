//! Rounds of facts: each takes the applications that stand as it begins.

ghost use Rattle.std.specs.Prelude.{◌≡◌, ◌++◌, ◌∷◌, List, [], flat_map, length, map, IfOk, OnOk};
ghost use Rattle.fst_logicfun.specs.Rounds.{Gathered, Moved, each_of, next};
ghost use Rattle.fst_program.specs.FunctionFacts.{function_facts, postconditions};
ghost use Rattle.fst_program.specs.Plain.{plain_program};
ghost use Rattle.fst_terms.specs.Cleared.{cleared};
ghost use Rattle.fst_terms.specs.DataFacts.{again};
ghost use Rattle.fst_terms.specs.Formulas.{vars_from};
ghost use Rattle.fst_terms.specs.Meaning.{plain_sequent};
ghost use Rattle.fst_terms.specs.Terms.{Tm, plain_term};

use crate::applying::add_applications;
use crate::clearing::{clear_all, variables};
use crate::copying::{after, copy_terms};
use crate::posting::facts_of;
use crate::ways::Which;
use fst_base::{OutOfMemory, Seq};
use fst_program::Program;
use fst_terms::{Sequent, Term};
use std::alloc::Global;

/// The facts of a term over n variables, without lets and places.
fn cleared_facts(
    alloc: Global,
    program: &Program,
    which: &Which,
    term: &Term,
    n: u32,
) -> Result<Seq<Term>, OutOfMemory>
    ensures { IfOk result (λ made. map plain_term made ≡ map (cleared (vars_from 0 n)) (each_of (plain_program program.now) which.now (plain_term term.now))) }
{
    let facts = facts_of(alloc, program, which, term)?;
    let mut scope = variables(alloc, n)?;
    clear_all(alloc, facts.as_slice(), &mut scope)
}

/// Adds the facts of these terms.
fn add_facts(
    alloc: Global,
    program: &Program,
    which: &Which,
    terms: &[Term],
    n: u32,
    facts: &mut Seq<Term>,
) -> Result<(), OutOfMemory>
    ensures { OnOk result (map plain_term facts.new ≡ map plain_term facts.old ++ map (cleared (vars_from 0 n)) (flat_map (each_of (plain_program program.now) which.now) (map plain_term terms.now))) }
{
    for term in terms {
        let more = cleared_facts(alloc, program, which, term, n)?;
        facts.append(more)?;
    }
    Ok(())
}

/// A round: adds the facts of the applications from this one on, then the applications in the new facts.
fn round(
    alloc: Global,
    program: &Program,
    which: &Which,
    used: usize,
    n: u32,
    applications: &mut Seq<Term>,
    facts: &mut Seq<Term>,
) -> Result<(), OutOfMemory>
    ensures { OnOk result ((phis : List Tm) → Gathered (vars_from 0 n) (each_of (plain_program program.now) which.now) phis (map plain_term applications.old) (map plain_term facts.old) used → Moved (vars_from 0 n) (each_of (plain_program program.now) which.now) phis (map plain_term facts.old) (length applications.old) (map plain_term applications.new) (map plain_term facts.new)) }
{
    let known = facts.len();
    let terms = after(applications.as_slice(), used);
    add_facts(alloc, program, which, terms, n, facts)?;
    add_applications(alloc, after(facts.as_slice(), known), applications)
}

/// So many rounds of facts, from these formulas.
fn rounds(
    alloc: Global,
    program: &Program,
    which: &Which,
    formulas: &[Term],
    count: usize,
    n: u32,
) -> Result<Seq<Term>, OutOfMemory>
    ensures { IfOk result (λ facts. map plain_term facts ≡ again count (next (vars_from 0 n) (each_of (plain_program program.now) which.now) (map plain_term formulas.now)) []) }
{
    let mut applications = Seq::new(alloc);
    add_applications(alloc, formulas, &mut applications)?;
    let mut facts = Seq::new(alloc);
    let mut used = 0;
    let mut turn = 0;
    while turn < count {
        let before = applications.len();
        round(
            alloc,
            program,
            which,
            used,
            n,
            &mut applications,
            &mut facts,
        )?;
        used = before;
        turn += 1;
    }
    Ok(facts)
}

/// The sequent's hypotheses and goal, without lets and places.
fn formulas(alloc: Global, sequent: &Sequent, n: u32) -> Result<Seq<Term>, OutOfMemory>
    ensures { IfOk result (λ made. map plain_term made ≡ map (cleared (vars_from 0 n)) ((plain_sequent sequent.now).hyps ++ (plain_sequent sequent.now).goal ∷ [])) }
{
    let all = with_goal(alloc, sequent.hyps.as_slice(), &sequent.goal)?;
    let mut scope = variables(alloc, n)?;
    clear_all(alloc, all.as_slice(), &mut scope)
}

/// The hypotheses, and then the goal.
fn with_goal(alloc: Global, hyps: &[Term], goal: &Term) -> Result<Seq<Term>, OutOfMemory>
    ensures { IfOk result (λ made. made ≡ hyps.now ++ goal.now ∷ []) }
{
    let mut made = copy_terms(alloc, hyps)?;
    made.push(goal.copy(alloc)?)?;
    Ok(made)
}

/// These formulas and those, in a list.
fn together(alloc: Global, first: &[Term], second: &[Term]) -> Result<Seq<Term>, OutOfMemory>
    ensures { IfOk result (λ made. made ≡ first.now ++ second.now) }
{
    let mut made = copy_terms(alloc, first)?;
    let second = copy_terms(alloc, second)?;
    made.append(second)?;
    Ok(made)
}

/// The postconditions of all applications in these formulas, which hold no let and have place 0 throughout, over the
/// variables of the sequent; those in postconditions among them. `Err` is want of memory, or 2^32 variables or more.
pub fn postconditions(
    alloc: Global,
    program: &Program,
    sequent: &Sequent,
    formulas: &Seq<Term>,
) -> Result<Seq<Term>, OutOfMemory>
    ensures { IfOk result (λ facts. map plain_term facts ≡ postconditions (plain_program program.now) (plain_sequent sequent.now) (map plain_term formulas.now)) }
{
    let vars = sequent.vars.len();
    let n = count(vars)?;
    let functions = program.funs.len();
    rounds(
        alloc,
        program,
        &Which::Postconditions,
        formulas.as_slice(),
        functions,
        n,
    )
}

/// The facts of functions for a sequent: what the applications in it unfold to, in so many rounds, and then the
/// postconditions of all applications in it and in these facts. No fact holds a let, and places are 0 throughout.
/// `Err` is want of memory, or 2^32 variables or more.
pub fn function_facts(
    alloc: Global,
    program: &Program,
    sequent: &Sequent,
    depth: u32,
) -> Result<Seq<Term>, OutOfMemory>
    ensures { IfOk result (λ facts. map plain_term facts ≡ function_facts (plain_program program.now) (plain_sequent sequent.now) depth) }
{
    let n = count(sequent.vars.len())?;
    let formulas = formulas(alloc, sequent, n)?;
    let unfoldings = Which::Unfoldings(sequent.vars.as_slice());
    let ways = rounds(
        alloc,
        program,
        &unfoldings,
        formulas.as_slice(),
        depth as usize,
        n,
    )?;
    let all = together(alloc, formulas.as_slice(), ways.as_slice())?;
    let given = postconditions(alloc, program, sequent, &all)?;
    together(alloc, ways.as_slice(), given.as_slice())
}

fn count(items: usize) -> Result<u32, OutOfMemory>
    ensures { IfOk result (λ count. count ≡ items) }
{
    match u32::try_from(items) {
        Ok(count) => Ok(count),
        Err(_) => Err(OutOfMemory),
    }
}
