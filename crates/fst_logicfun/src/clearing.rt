ghost use Rattle.std.specs.Prelude.{◌≡◌, map, get_or, IfOk, OnOk};
ghost use Rattle.fst_terms.specs.Cleared.{cleared};
ghost use Rattle.fst_scopes.specs.Scopes.{terms_for};
ghost use Rattle.fst_terms.specs.Terms.{plain_term, t_unit};
ghost use Rattle.fst_terms.specs.Formulas.{vars_from};

use crate::making::make;
use fst_base::{Box, OutOfMemory, Pos, Seq};
use fst_terms::Term;
use std::alloc::Global;

/// The terms that stand for the variables 0 to n - 1, the last variable last.
pub fn variables(alloc: Global, n: u32) -> Result<Seq<Term>, OutOfMemory>
    ensures { IfOk result (λ scope. terms_for scope ≡ vars_from 0 n) }
{
    let mut scope = Seq::new(alloc);
    let mut left = n;
    while left > 0 {
        left -= 1;
        scope.push(Term::Var(left))?;
    }
    Ok(scope)
}

/// The term with the terms of the scope for its variables, its lets substituted away and every place 0.
#[cycle(clear)]
#[tactic(auto, using(fst_scopes::proofs::PlainForms::plain_variants))]
pub fn clear(alloc: Global, term: &Term, scope: &mut Seq<Term>) -> Result<Term, OutOfMemory>
    ensures made { IfOk result (λ made. plain_term made ≡ cleared (terms_for scope.old) (plain_term term.now)) }
    ensures kept { OnOk result (scope.new ≡ scope.old) }
{
    match term {
        Term::Var(index) => look(alloc, scope.as_slice(), *index),
        Term::Int(number) => Ok(Term::Int(*number)),
        Term::Bool(truth) => Ok(Term::Bool(*truth)),
        Term::Unit => Ok(Term::Unit),
        Term::Prim(op, sort, args, _) => {
            let args = clear_all(alloc, args.as_slice(), scope)?;
            make(alloc, *op, sort, args, Pos { at: 0 })
        }
        Term::If(test, left, right) => {
            let test = Box::new(alloc, clear(alloc, test.get(), scope)?)?;
            let left = Box::new(alloc, clear(alloc, left.get(), scope)?)?;
            let right = Box::new(alloc, clear(alloc, right.get(), scope)?)?;
            Ok(Term::If(test, left, right))
        }
        Term::App(function, sort, args) => {
            let args = clear_all(alloc, args.as_slice(), scope)?;
            let sort = sort.copy(alloc)?;
            Ok(Term::App(*function, sort, args))
        }
        Term::Let(_, bound, rest) => {
            let count = scope.len();
            let bound = clear(alloc, bound.get(), scope)?;
            scope.push(bound)?;
            let made = clear(alloc, rest.get(), scope)?;
            scope.truncate(count);
            Ok(made)
        }
    }
}

#[cycle(clear)]
pub fn clear_all(
    alloc: Global,
    terms: &[Term],
    scope: &mut Seq<Term>,
) -> Result<Seq<Term>, OutOfMemory>
    ensures made { IfOk result (λ made. map plain_term made ≡ map (λ t. cleared (terms_for scope.old) (plain_term t)) terms.now) }
    ensures kept { OnOk result (scope.new ≡ scope.old) }
{
    let mut made = Seq::new(alloc);
    for term in terms {
        made.push(clear(alloc, term, scope)?)?;
    }
    Ok(made)
}

/// The term of a variable.
pub fn look(alloc: Global, scope: &[Term], index: u32) -> Result<Term, OutOfMemory>
    ensures { IfOk result (λ term. plain_term term ≡ get_or (terms_for scope.now) index t_unit) }
{
    let index = index as usize;
    if index < scope.len() {
        scope[scope.len() - 1 - index].copy(alloc)
    } else {
        Ok(Term::Unit)
    }
}
