//! The clauses of a function at the arguments of an application.

ghost use Rattle.std.specs.Prelude.{◌≡◌, ◌++◌, ◌∷◌, [], map, option_map, IfOk, OnOk};
ghost use Rattle.std.specs.Option.{option_copied};
ghost use Rattle.fst_scopes.specs.Scopes.{terms_for};
ghost use Rattle.fst_program.specs.FunctionFacts.{but_last, last_term, own_args, own_input};
ghost use Rattle.fst_program.specs.Paths.{clause_terms, demands_of, given, refinements};
ghost use Rattle.fst_program.specs.Plain.{plain_fun, plain_param, plain_program};
ghost use Rattle.fst_program.specs.Texts.{fun_at, is_user};
ghost use Rattle.fst_terms.specs.Terms.{plain_term};

use crate::copying::{copy_terms, front};
use crate::putting::put;
use fst_base::{Box, OutOfMemory, Seq, boxed};
use fst_program::{Effect, Fun, Param, Program};
use fst_terms::{Formula, Term};
use std::alloc::Global;

/// Whether the effect is one that a program defines.
pub fn is_user(effect: Effect) -> bool
    ensures { result ≡ is_user effect }
{
    matches!(effect, Effect::User(_))
}

/// The arguments of an application without its input, which is the last argument of a function with a user effect.
pub fn own_args(effect: Effect, args: &[Term]) -> &[Term]
    ensures { map plain_term result.now ≡ own_args effect (map plain_term args.now) }
{
    if is_user(effect) {
        but_last(args)
    } else {
        args
    }
}

fn but_last(args: &[Term]) -> &[Term]
    ensures { map plain_term result.now ≡ but_last (map plain_term args.now) }
{
    if args.len() == 0 {
        return args;
    }
    let last = args.len() - 1;
    front(args, last)
}

/// The input of an application.
#[tactic(auto, using(fst_scopes::proofs::PlainForms::plain_variants))]
pub fn own_input(alloc: Global, effect: Effect, args: &[Term]) -> Result<Box<Term>, OutOfMemory>
    ensures { IfOk result (λ input. plain_term input ≡ own_input effect (map plain_term args.now)) }
{
    if is_user(effect) {
        last_term(alloc, args)
    } else {
        Box::new(alloc, Term::Unit)
    }
}

#[tactic(auto, using(fst_scopes::proofs::PlainForms::plain_variants))]
fn last_term(alloc: Global, args: &[Term]) -> Result<Box<Term>, OutOfMemory>
    ensures { IfOk result (λ last. plain_term last ≡ last_term (map plain_term args.now)) }
{
    if args.len() == 0 {
        return Box::new(alloc, Term::Unit);
    }
    let end = args.len() - 1;
    boxed(alloc, args[end].copy(alloc))
}

/// The scope of a clause: the arguments, then the input where there is one.
pub fn clause_scope(
    alloc: Global,
    effect: Effect,
    args: &[Term],
    input: &Term,
) -> Result<Seq<Term>, OutOfMemory>
    ensures { IfOk result (λ scope. terms_for scope ≡ clause_terms effect (map plain_term args.now) (plain_term input.now)) }
{
    let mut scope = copy_terms(alloc, args)?;
    if is_user(effect) {
        scope.push(input.copy(alloc)?)?;
    }
    Ok(scope)
}

/// Adds the clause, where there is one, with the terms of the scope for its variables.
fn add_given(
    alloc: Global,
    clause: &Option<Formula>,
    scope: &[Term],
    made: &mut Seq<Term>,
) -> Result<(), OutOfMemory>
    ensures { OnOk result (map plain_term made.new ≡ map plain_term made.old ++ given (option_map plain_term clause.now) (terms_for scope.now)) }
{
    match clause {
        Some(clause) => made.push(put(alloc, clause, scope)?),
        None => Ok(()),
    }
}

/// The refinements of the parameters in order; each sees the arguments up to its own.
fn refinements(alloc: Global, params: &[Param], args: &[Term]) -> Result<Seq<Term>, OutOfMemory>
    ensures { IfOk result (λ made. map plain_term made ≡ refinements (map plain_param params.now) (map plain_term args.now) []) }
{
    let mut made = Seq::new(alloc);
    for at in 0..params.len() {
        if at >= args.len() {
            return Ok(made);
        }
        let param = &params[at];
        add_given(alloc, &param.refine, front(args, at + 1), &mut made)?;
    }
    Ok(made)
}

/// What the function demands of these arguments and this input: its refinements, then its requires.
pub fn demands(
    alloc: Global,
    fun: &Fun,
    args: &[Term],
    input: &Term,
) -> Result<Seq<Term>, OutOfMemory>
    ensures { IfOk result (λ made. map plain_term made ≡ demands_of (plain_fun fun.now) (map plain_term args.now) (plain_term input.now)) }
{
    let mut made = refinements(alloc, fun.params.as_slice(), args)?;
    let scope = clause_scope(alloc, fun.effect, args, input)?;
    add_given(alloc, &fun.needs, scope.as_slice(), &mut made)?;
    Ok(made)
}
