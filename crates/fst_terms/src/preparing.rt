ghost use Rattle.std.specs.Prelude.{◌≡◌, ◌++◌, map, IfOk, OnOk};
ghost use Rattle.fst_terms.specs.Flats.{flat_of, plain_flat, sorts_of_vars};
ghost use Rattle.fst_terms.specs.Indices.{lets, lets_of};
ghost use Rattle.fst_terms.specs.Meaning.{plain_sequent};
ghost use Rattle.fst_terms.specs.Preparing.{numbered};
ghost use Rattle.fst_terms.specs.Propositional.{FormulasPropositional, IsPropositional};
ghost use Rattle.fst_terms.specs.Terms.{plain_term, plain_terms};

use crate::atoms::{collect, collect_all};
use crate::clearing::{clear, clear_all};
use crate::flat::Flat;
use crate::parts::{add_all_parts, add_literals};
use crate::sequent::{Sequent, Var};
use crate::term::{Formula, Term};
use fst_base::{OutOfMemory, Seq, both};
use std::alloc::Global;

/// The flat form of a propositional sequent, with these formulas as facts.
pub fn prepare(alloc: Global, sequent: &Sequent, extra: &Seq<Formula>) -> Result<Flat, OutOfMemory>
    requires sequent { IsPropositional (plain_sequent sequent.now) }
    requires extra { FormulasPropositional (sorts_of_vars (plain_sequent sequent.now).vars) (map plain_term extra.now) }
    ensures { IfOk result (λ flat. plain_flat flat ≡ flat_of (plain_sequent sequent.now) (map plain_term extra.now)) }
{
    let hyps = count(sequent.hyps.len())?;
    let vars = copy_vars(alloc, sequent.vars.as_slice())?;
    let (vars, goal) = both(vars, clear(alloc, &sequent.goal))?;
    let ((vars, goal), formulas) = both((vars, goal), clear_all(alloc, sequent.hyps.as_slice()))?;
    let mut flat = Flat {
        vars,
        formulas,
        hyps,
        goal,
        terms: Seq::new(alloc),
        atoms: Seq::new(alloc),
    };
    let done = number(alloc, extra.as_slice(), &mut flat);
    let (flat, ()) = both(flat, done)?;
    Ok(flat)
}

/// Numbers the atoms and the terms of the flat form with these facts, and adds the facts.
fn number(alloc: Global, extra: &[Formula], flat: &mut Flat) -> Result<(), OutOfMemory>
    requires formulas { lets_of (plain_terms flat.old.formulas) ≡ 0 }
    requires goal { lets (plain_term flat.old.goal) ≡ 0 }
    requires extra { lets_of (plain_terms extra.now) ≡ 0 }
    ensures { OnOk result (plain_flat flat.new ≡ numbered (plain_flat flat.old) (map plain_term extra.now)) }
{
    let vars = flat.vars.as_slice();
    collect_all(alloc, vars, flat.formulas.as_slice(), &mut flat.atoms)?;
    collect(alloc, vars, &flat.goal, &mut flat.atoms)?;
    collect_all(alloc, vars, extra, &mut flat.atoms)?;
    add_all_parts(alloc, flat.atoms.as_slice(), &mut flat.terms)?;
    add_literals(alloc, &mut flat.terms)?;
    append_copies(alloc, extra, &mut flat.formulas)
}

/// Adds copies of these terms.
fn append_copies(alloc: Global, terms: &[Term], copies: &mut Seq<Term>) -> Result<(), OutOfMemory>
    ensures { OnOk result (copies.new ≡ copies.old ++ terms.now) }
{
    for term in terms {
        copies.push(term.copy(alloc)?)?;
    }
    Ok(())
}

fn copy_vars(alloc: Global, vars: &[Var]) -> Result<Seq<Var>, OutOfMemory>
    ensures { IfOk result (λ copies. copies ≡ vars.now) }
{
    let mut copies = Seq::new(alloc);
    for var in vars {
        copies.push(var.copy(alloc)?)?;
    }
    Ok(copies)
}

/// The count in 32 bits.
fn count(items: usize) -> Result<u32, OutOfMemory>
    ensures { IfOk result (λ count. count ≡ items) }
{
    match u32::try_from(items) {
        Ok(count) => Ok(count),
        Err(_) => Err(OutOfMemory),
    }
}
