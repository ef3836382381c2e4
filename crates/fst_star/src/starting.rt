//! Where the walk of a function begins: its variables, and what it may take for true.
ghost use Rattle.std.specs.Prelude.{◌≡◌, ◌∷◌, [], ◌++◌, if◌then◌else◌, map, option_map, IfOk, OnOk};
ghost use Rattle.fst_base.specs.Sorts.{plain_sort};
ghost use Rattle.fst_program.specs.Paths.{clause_terms, demands_of, given, input_name, own_input, own_vars, refinements, start};
ghost use Rattle.fst_program.specs.Plain.{plain_fun, plain_param, plain_program};
ghost use Rattle.fst_program.specs.Texts.{is_user};
ghost use Rattle.fst_star.specs.Met.{plain_trail};
ghost use Rattle.fst_scopes.specs.Scopes.{terms_for};
ghost use Rattle.fst_star.specs.Starting.{own_terms, param_var, start_vars};
ghost use Rattle.fst_terms.specs.Formulas.{vars_from};
ghost use Rattle.fst_terms.specs.Meaning.{plain_var};
ghost use Rattle.fst_terms.specs.Terms.{plain_term};

use crate::putting::{put, with_last};
use crate::raising::sum;
use crate::trail::{Trail, copy_terms, count_of};
use fst_base::{Box, Name, OutOfMemory, Seq, Sort, pair};
use fst_program::{Effect, Fun, Param, Program};
use fst_terms::{Formula, Term, Var};
use std::alloc::Global;

/// Whether functions of this effect have an input.
pub(crate) fn is_user(effect: Effect) -> bool
    ensures { result ≡ is_user effect }
{
    matches!(effect, Effect::User(_))
}

/// As many variables from this index on, the last variable's last.
pub(crate) fn vars_from(alloc: Global, from: u32, count: u32) -> Result<Seq<Term>, OutOfMemory>
    ensures { IfOk result (λ made. terms_for made ≡ vars_from from count) }
{
    let end = sum(from, count)?;
    let mut made = Seq::new(alloc);
    for at in 0..count {
        made.push(Term::Var(end - 1 - at))?;
    }
    Ok(made)
}

/// The index of the last parameter: an input stands after it.
fn first_own(effect: Effect) -> u32
    ensures { result ≡ (if is_user effect then 1 else 0) }
{
    if is_user(effect) { 1 } else { 0 }
}

/// The variables of a function's parameters.
pub(crate) fn own_vars(alloc: Global, fun: &Fun) -> Result<Seq<Term>, OutOfMemory>
    ensures { IfOk result (λ made. terms_for made ≡ own_vars (plain_fun fun.now)) }
{
    let count = count_of(fun.params.len())?;
    vars_from(alloc, first_own(fun.effect), count)
}

/// The variable of a function's input.
#[tactic(auto, using(fst_terms::proofs::PlainLemmas::plain_variants))]
pub(crate) fn own_input(alloc: Global, fun: &Fun) -> Result<Box<Term>, OutOfMemory>
    ensures { IfOk result (λ made. plain_term made ≡ own_input (plain_fun fun.now)) }
{
    if is_user(fun.effect) {
        Box::new(alloc, Term::Var(0))
    } else {
        Box::new(alloc, Term::Unit)
    }
}

/// The terms of a clause's variables, from those of the parameters and of the input.
pub(crate) fn clause_terms(
    alloc: Global,
    effect: Effect,
    args: &[Term],
    input: &Term,
) -> Result<Seq<Term>, OutOfMemory>
    ensures { IfOk result (λ made. terms_for made ≡ clause_terms effect (map plain_term args.now) (plain_term input.now)) }
{
    if is_user(effect) {
        let (terms, input) = pair(copy_terms(alloc, args), input.copy(alloc))?;
        with_last(terms, input)
    } else {
        copy_terms(alloc, args)
    }
}

/// Adds the clause with these terms for its variables, where there is one.
pub(crate) fn add_given(
    alloc: Global,
    clause: &Option<Formula>,
    terms: &[Term],
    made: &mut Seq<Formula>,
) -> Result<(), OutOfMemory>
    ensures { OnOk result (map plain_term made.new ≡ map plain_term made.old ++ given (option_map plain_term clause.now) (terms_for terms.now)) }
{
    match clause {
        Some(formula) => {
            made.push(put(alloc, formula, terms)?)?;
            Ok(())
        }
        None => Ok(()),
    }
}

/// Adds the refinements of these parameters; each sees the arguments up to its own. The earlier ones are `seen`.
fn add_refinements(
    alloc: Global,
    params: &[Param],
    args: &[Term],
    seen: &mut Seq<Term>,
    made: &mut Seq<Formula>,
) -> Result<(), OutOfMemory>
    ensures { OnOk result (map plain_term made.new ≡ map plain_term made.old ++ refinements (map plain_param params.now) (map plain_term args.now) (terms_for seen.old)) }
{
    let Some((param, params)) = params.split_first() else {
        return Ok(());
    };
    let Some((arg, args)) = args.split_first() else {
        return Ok(());
    };
    seen.push(arg.copy(alloc)?)?;
    add_given(alloc, &param.refine, seen.as_slice(), made)?;
    add_refinements(alloc, params, args, seen, made)
}

/// What a function asks for: its refinements, then its requires.
pub(crate) fn demands_of(
    alloc: Global,
    fun: &Fun,
    args: &[Term],
    input: &Term,
) -> Result<Seq<Formula>, OutOfMemory>
    ensures { IfOk result (λ made. map plain_term made ≡ demands_of (plain_fun fun.now) (map plain_term args.now) (plain_term input.now)) }
{
    let mut made = Seq::new(alloc);
    let mut seen = Seq::new(alloc);
    add_refinements(alloc, fun.params.as_slice(), args, &mut seen, &mut made)?;
    let terms = clause_terms(alloc, fun.effect, args, input)?;
    add_given(alloc, &fun.needs, terms.as_slice(), &mut made)?;
    Ok(made)
}

/// The variables of these parameters.
fn param_vars(alloc: Global, params: &[Param]) -> Result<Seq<Var>, OutOfMemory>
    ensures { IfOk result (λ made. map plain_var made ≡ map param_var (map plain_param params.now)) }
{
    let mut made = Seq::new(alloc);
    for param in params {
        let (name, sort) = pair(param.name.copy(alloc), param.sort.copy(alloc))?;
        made.push(Var { name, sort })?;
    }
    Ok(made)
}

/// These variables, and after them the input, of this sort.
fn with_input(alloc: Global, vars: Seq<Var>, sort: &Sort) -> Result<Seq<Var>, OutOfMemory>
    ensures { IfOk result (λ made. map plain_var made ≡ map plain_var vars ++ record { name = input_name; sort = plain_sort sort.now } ∷ []) }
{
    let mut vars = vars;
    let (name, sort) = pair(Name::new(alloc, "input"), sort.copy(alloc))?;
    vars.push(Var { name, sort })?;
    Ok(vars)
}

/// The variables of a function: its parameters, then its input.
pub(crate) fn start_vars(
    alloc: Global,
    program: &Program,
    fun: &Fun,
) -> Result<Seq<Var>, OutOfMemory>
    ensures { IfOk result (λ made. map plain_var made ≡ start_vars (plain_program program.now) (plain_fun fun.now)) }
{
    let vars = param_vars(alloc, fun.params.as_slice())?;
    match fun.effect {
        Effect::User(effect) => match program.effects.get(effect as usize) {
            Some(definition) => with_input(alloc, vars, &definition.input),
            None => Ok(vars),
        },
        _ => Ok(vars),
    }
}

/// Where a function's walk begins.
pub(crate) fn start(alloc: Global, program: &Program, fun: &Fun) -> Result<Trail, OutOfMemory>
    ensures { IfOk result (λ w. plain_trail w ≡ start (plain_program program.now) (plain_fun fun.now)) }
{
    let args = own_vars(alloc, fun)?;
    let input = own_input(alloc, fun)?;
    let hyps = demands_of(alloc, fun, args.as_slice(), input.get());
    let (vars, hyps) = pair(start_vars(alloc, program, fun), hyps)?;
    let choices = Seq::new(alloc);
    Ok(Trail {
        vars,
        hyps,
        choices,
    })
}

/// The terms of the variables of a function's clauses, at its start.
pub(crate) fn own_terms(alloc: Global, fun: &Fun) -> Result<Seq<Term>, OutOfMemory>
    ensures { IfOk result (λ made. terms_for made ≡ own_terms (plain_fun fun.now)) }
{
    let args = own_vars(alloc, fun)?;
    let input = own_input(alloc, fun)?;
    clause_terms(alloc, fun.effect, args.as_slice(), input.get())
}
