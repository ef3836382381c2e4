//! Terms under one variable more.

ghost use Rattle.std.specs.Prelude.{◌≡◌, ◌∷◌, suc, map, IfOk};
ghost use Rattle.fst_scopes.specs.Scopes.{terms_for};
ghost use Rattle.fst_terms.specs.Terms.{plain_term, shift, t_var};

use fst_base::{Box, OutOfMemory, Seq, boxed, pair};
use fst_terms::Term;
use std::alloc::Global;

/// The term with the indices that are at least `from` raised by 1. An index that would pass 32 bits is want of memory.
#[cycle(raise)]
#[tactic(auto, using(fst_scopes::proofs::PlainForms::plain_variants))]
fn raise(alloc: Global, term: &Term, from: u32) -> Result<Term, OutOfMemory>
    ensures { IfOk result (λ raised. plain_term raised ≡ shift from 1 (plain_term term.now)) }
{
    match term {
        Term::Var(index) => raise_index(*index, from),
        Term::Int(number) => Ok(Term::Int(*number)),
        Term::Bool(truth) => Ok(Term::Bool(*truth)),
        Term::Unit => Ok(Term::Unit),
        Term::Prim(op, sort, args, at) => {
            let args = raise_all(alloc, args.as_slice(), from)?;
            Ok(Term::Prim(*op, sort.copy(alloc)?, args, *at))
        }
        Term::If(test, left, right) => {
            let front = pair(
                raise_boxed(alloc, test, from),
                raise_boxed(alloc, left, from),
            );
            let ((test, left), right) = pair(front, raise_boxed(alloc, right, from))?;
            Ok(Term::If(test, left, right))
        }
        Term::App(function, sort, args) => {
            let args = raise_all(alloc, args.as_slice(), from)?;
            Ok(Term::App(*function, sort.copy(alloc)?, args))
        }
        Term::Let(name, bound, rest) => {
            let front = pair(name.copy(alloc), raise_boxed(alloc, bound, from));
            let ((name, bound), rest) = pair(front, raise_under(alloc, rest, from))?;
            Ok(Term::Let(name, bound, rest))
        }
    }
}

#[tactic(auto, using(fst_scopes::proofs::PlainForms::plain_variants))]
fn raise_index(index: u32, from: u32) -> Result<Term, OutOfMemory>
    ensures { IfOk result (λ raised. plain_term raised ≡ shift from 1 (t_var index)) }
{
    if index < from {
        return Ok(Term::Var(index));
    }
    match index.checked_add(1) {
        Some(index) => Ok(Term::Var(index)),
        None => Err(OutOfMemory),
    }
}

#[cycle(raise)]
fn raise_boxed(alloc: Global, term: &Box<Term>, from: u32) -> Result<Box<Term>, OutOfMemory>
    ensures { IfOk result (λ raised. plain_term raised ≡ shift from 1 (plain_term term.now)) }
{
    boxed(alloc, raise(alloc, term.get(), from))
}

/// The same under one let more.
#[cycle(raise)]
fn raise_under(alloc: Global, term: &Box<Term>, from: u32) -> Result<Box<Term>, OutOfMemory>
    ensures { IfOk result (λ raised. plain_term raised ≡ shift (suc from) 1 (plain_term term.now)) }
{
    match from.checked_add(1) {
        Some(from) => raise_boxed(alloc, term, from),
        None => Err(OutOfMemory),
    }
}

#[cycle(raise)]
fn raise_all(alloc: Global, terms: &[Term], from: u32) -> Result<Seq<Term>, OutOfMemory>
    ensures { IfOk result (λ raised. map plain_term raised ≡ map (λ t. shift from 1 (plain_term t)) terms.now) }
{
    let mut raised = Seq::new(alloc);
    for term in terms {
        raised.push(raise(alloc, term, from)?)?;
    }
    Ok(raised)
}

/// The terms of the scope under one variable more, and that variable.
#[tactic(auto, using(fst_scopes::proofs::PlainForms::plain_variants))]
pub fn scope_under(alloc: Global, scope: &[Term]) -> Result<Seq<Term>, OutOfMemory>
    ensures { IfOk result (λ inner. terms_for inner ≡ t_var 0 ∷ map (shift 0 1) (terms_for scope.now)) }
{
    let mut inner = raise_all(alloc, scope, 0)?;
    inner.push(Term::Var(0))?;
    Ok(inner)
}
