//! Terms for variables.

ghost use Rattle.std.specs.Prelude.{◌≡◌, ◌∷◌, map, IfOk};
ghost use Rattle.fst_scopes.specs.Scopes.{terms_for};
ghost use Rattle.fst_terms.specs.Formulas.{put};
ghost use Rattle.fst_terms.specs.Terms.{plain_term, shift, t_var};

use crate::clearing::look;
use crate::making::make;
use crate::raising::scope_under;
use fst_base::{Box, OutOfMemory, Seq, boxed, pair};
use fst_terms::Term;
use std::alloc::Global;

/// The term with the terms of the scope for its variables; the last variable's stands last.
#[cycle(put)]
#[tactic(auto, using(fst_scopes::proofs::PlainForms::plain_variants))]
pub fn put(alloc: Global, term: &Term, scope: &[Term]) -> Result<Term, OutOfMemory>
    ensures { IfOk result (λ made. plain_term made ≡ put (terms_for scope.now) (plain_term term.now)) }
{
    match term {
        Term::Var(index) => look(alloc, scope, *index),
        Term::Int(number) => Ok(Term::Int(*number)),
        Term::Bool(truth) => Ok(Term::Bool(*truth)),
        Term::Unit => Ok(Term::Unit),
        Term::Prim(op, sort, args, at) => {
            let args = put_all(alloc, args.as_slice(), scope)?;
            make(alloc, *op, sort, args, *at)
        }
        Term::If(test, left, right) => {
            let front = pair(
                put_boxed(alloc, test.get(), scope),
                put_boxed(alloc, left.get(), scope),
            );
            let ((test, left), right) = pair(front, put_boxed(alloc, right.get(), scope))?;
            Ok(Term::If(test, left, right))
        }
        Term::App(function, sort, args) => {
            let args = put_all(alloc, args.as_slice(), scope)?;
            Ok(Term::App(*function, sort.copy(alloc)?, args))
        }
        Term::Let(name, bound, rest) => {
            let front = pair(name.copy(alloc), put_boxed(alloc, bound.get(), scope));
            let ((name, bound), rest) = pair(front, put_under(alloc, rest.get(), scope))?;
            Ok(Term::Let(name, bound, rest))
        }
    }
}

#[cycle(put)]
pub fn put_boxed(alloc: Global, term: &Term, scope: &[Term]) -> Result<Box<Term>, OutOfMemory>
    ensures { IfOk result (λ made. plain_term made ≡ put (terms_for scope.now) (plain_term term.now)) }
{
    boxed(alloc, put(alloc, term, scope))
}

/// The same under one variable more, which stands for itself.
#[cycle(put)]
fn put_under(alloc: Global, term: &Term, scope: &[Term]) -> Result<Box<Term>, OutOfMemory>
    ensures { IfOk result (λ made. plain_term made ≡ put (t_var 0 ∷ map (shift 0 1) (terms_for scope.now)) (plain_term term.now)) }
{
    let inner = scope_under(alloc, scope)?;
    put_boxed(alloc, term, inner.as_slice())
}

#[cycle(put)]
pub fn put_all(alloc: Global, terms: &[Term], scope: &[Term]) -> Result<Seq<Term>, OutOfMemory>
    ensures { IfOk result (λ made. map plain_term made ≡ map (λ t. put (terms_for scope.now) (plain_term t)) terms.now) }
{
    let mut made = Seq::new(alloc);
    for term in terms {
        made.push(put(alloc, term, scope)?)?;
    }
    Ok(made)
}
