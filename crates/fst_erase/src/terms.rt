//! Terms without ghost variables.

ghost use Rattle.std.specs.Prelude.{◌≡◌, ◌∷◌, false, map, reverse, drop, IfOk};
ghost use Rattle.fst_terms.specs.Terms.{plain_term, plain_terms};
ghost use Rattle.fst_program.specs.Erasure.{erased_term, erased_args};
ghost use Rattle.fst_program.specs.Plain.{plain_param};
ghost use Rattle.fst_erase.specs.Parts.{hides};

use crate::scope::kept;
use fst_base::{Box, OutOfMemory, Seq, boxed, pair};
use fst_program::Param;
use fst_terms::Term;
use std::alloc::Global;

/// The term with the indices of the variables that are left.
#[cycle(erase)]
#[tactic(auto, using(fst_terms::proofs::PlainLemmas::plain_variants))]
pub(crate) fn erase_term(
    alloc: Global,
    scope: &mut Seq<bool>,
    term: &Term,
) -> Result<Term, OutOfMemory>
    ensures erased { IfOk result (λ made. plain_term made ≡ erased_term (reverse scope.old) (plain_term term.now)) }
    ensures scope { scope.new ≡ scope.old }
{
    match term {
        Term::Var(index) => Ok(Term::Var(kept(scope.as_slice(), *index))),
        Term::Int(number) => Ok(Term::Int(*number)),
        Term::Bool(truth) => Ok(Term::Bool(*truth)),
        Term::Unit => Ok(Term::Unit),
        Term::Prim(op, sort, args, at) => {
            let args = erase_terms(alloc, scope, args.as_slice());
            let (args, sort) = pair(args, sort.copy(alloc))?;
            Ok(Term::Prim(*op, sort, args, *at))
        }
        Term::If(test, left, right) => {
            let front = pair(
                erase_box(alloc, scope, test.get()),
                erase_box(alloc, scope, left.get()),
            );
            let ((test, left), right) = pair(front, erase_box(alloc, scope, right.get()))?;
            Ok(Term::If(test, left, right))
        }
        Term::App(function, sort, args) => {
            let args = erase_terms(alloc, scope, args.as_slice());
            let (args, sort) = pair(args, sort.copy(alloc))?;
            Ok(Term::App(*function, sort, args))
        }
        Term::Let(name, bound, rest) => {
            let front = pair(name.copy(alloc), erase_box(alloc, scope, bound.get()));
            let ((name, bound), rest) = pair(front, erase_under(alloc, scope, rest.get()))?;
            Ok(Term::Let(name, bound, rest))
        }
    }
}

#[cycle(erase)]
fn erase_box(alloc: Global, scope: &mut Seq<bool>, term: &Term) -> Result<Box<Term>, OutOfMemory>
    ensures erased { IfOk result (λ made. plain_term made ≡ erased_term (reverse scope.old) (plain_term term.now)) }
    ensures scope { scope.new ≡ scope.old }
{
    boxed(alloc, erase_term(alloc, scope, term))
}

/// The same under one variable more.
#[cycle(erase)]
fn erase_under(alloc: Global, scope: &mut Seq<bool>, term: &Term) -> Result<Box<Term>, OutOfMemory>
    ensures erased { IfOk result (λ made. plain_term made ≡ erased_term (false ∷ reverse scope.old) (plain_term term.now)) }
    ensures scope { scope.new ≡ scope.old }
{
    let vars = scope.len();
    scope.push(false)?;
    let made = erase_box(alloc, scope, term);
    scope.truncate(vars);
    made
}

#[cycle(erase)]
fn erase_terms(
    alloc: Global,
    scope: &mut Seq<bool>,
    terms: &[Term],
) -> Result<Seq<Term>, OutOfMemory>
    ensures erased { IfOk result (λ made. map plain_term made ≡ map (λ t. erased_term (reverse scope.old) (plain_term t)) terms.now) }
    ensures scope { scope.new ≡ scope.old }
{
    let mut made = Seq::new(alloc);
    for term in terms {
        made.push(erase_term(alloc, scope, term)?)?;
    }
    Ok(made)
}

/// The arguments of a call without the ghost ones.
pub(crate) fn erase_args(
    alloc: Global,
    scope: &mut Seq<bool>,
    params: &[Param],
    args: &[Term],
) -> Result<Seq<Term>, OutOfMemory>
    ensures erased { IfOk result (λ made. plain_terms made ≡ erased_args (reverse scope.old) (map plain_param params.now) (plain_terms args.now)) }
    ensures scope { scope.new ≡ scope.old }
{
    let mut made = Seq::new(alloc);
    for at in 0..args.len() {
        if is_hidden(params, at) {
            continue;
        }
        made.push(erase_term(alloc, scope, &args[at])?)?;
    }
    Ok(made)
}

/// Whether the parameter at this place is there, and a ghost one.
fn is_hidden(params: &[Param], at: usize) -> bool
    ensures { result ≡ hides (drop at (map plain_param params.now)) }
{
    match params.get(at) {
        Some(param) => param.hidden,
        None => false,
    }
}
