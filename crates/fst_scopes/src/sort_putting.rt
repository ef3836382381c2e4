//! Sorts for the sort variables of sorts and terms.

ghost use Rattle.std.specs.Prelude.{◌≡◌, map, IfOk};
ghost use Rattle.fst_base.specs.Sorts.{plain_sort, put_sorts};
ghost use Rattle.fst_terms.specs.Formulas.{term_at};
ghost use Rattle.fst_terms.specs.Terms.{plain_term};

use fst_base::{Box, OutOfMemory, Seq, Sort, boxed, pair};
use fst_terms::Term;
use std::alloc::Global;

/// The sort with a and b in place of the sort variables.
#[cycle(put_sorts)]
#[tactic(auto, using(crate::proofs::PlainForms::plain_variants))]
pub fn put_sorts(alloc: Global, sort: &Sort, a: &Sort, b: &Sort) -> Result<Sort, OutOfMemory>
    ensures { IfOk result (λ made. plain_sort made ≡ put_sorts (plain_sort a.now) (plain_sort b.now) (plain_sort sort.now)) }
{
    match sort {
        Sort::VarA => a.copy(alloc),
        Sort::VarB => b.copy(alloc),
        Sort::Unit => Ok(Sort::Unit),
        Sort::Bool => Ok(Sort::Bool),
        Sort::Int => Ok(Sort::Int),
        Sort::Pair(left, right) => {
            let (left, right) = pair(put_boxed(alloc, left, a, b), put_boxed(alloc, right, a, b))?;
            Ok(Sort::Pair(left, right))
        }
        Sort::Opt(item) => Ok(Sort::Opt(put_boxed(alloc, item, a, b)?)),
        Sort::List(item) => Ok(Sort::List(put_boxed(alloc, item, a, b)?)),
        Sort::Either(left, right) => {
            let (left, right) = pair(put_boxed(alloc, left, a, b), put_boxed(alloc, right, a, b))?;
            Ok(Sort::Either(left, right))
        }
    }
}

#[cycle(put_sorts)]
fn put_boxed(alloc: Global, sort: &Box<Sort>, a: &Sort, b: &Sort) -> Result<Box<Sort>, OutOfMemory>
    ensures { IfOk result (λ made. plain_sort made ≡ put_sorts (plain_sort a.now) (plain_sort b.now) (plain_sort sort.now)) }
{
    boxed(alloc, put_sorts(alloc, sort.get(), a, b))
}

/// The term with a and b in place of the sort variables.
#[cycle(term_at)]
#[tactic(auto, using(crate::proofs::PlainForms::plain_variants))]
pub fn term_at(alloc: Global, term: &Term, a: &Sort, b: &Sort) -> Result<Term, OutOfMemory>
    ensures { IfOk result (λ made. plain_term made ≡ term_at (plain_sort a.now) (plain_sort b.now) (plain_term term.now)) }
{
    match term {
        Term::Var(index) => Ok(Term::Var(*index)),
        Term::Int(number) => Ok(Term::Int(*number)),
        Term::Bool(truth) => Ok(Term::Bool(*truth)),
        Term::Unit => Ok(Term::Unit),
        Term::Prim(op, sort, args, at) => {
            let args = terms_at(alloc, args.as_slice(), a, b)?;
            Ok(Term::Prim(*op, put_sorts(alloc, sort, a, b)?, args, *at))
        }
        Term::If(test, left, right) => {
            let front = pair(boxed_at(alloc, test, a, b), boxed_at(alloc, left, a, b));
            let ((test, left), right) = pair(front, boxed_at(alloc, right, a, b))?;
            Ok(Term::If(test, left, right))
        }
        Term::App(function, sort, args) => {
            let args = terms_at(alloc, args.as_slice(), a, b)?;
            Ok(Term::App(*function, put_sorts(alloc, sort, a, b)?, args))
        }
        Term::Let(name, bound, rest) => {
            let front = pair(name.copy(alloc), boxed_at(alloc, bound, a, b));
            let ((name, bound), rest) = pair(front, boxed_at(alloc, rest, a, b))?;
            Ok(Term::Let(name, bound, rest))
        }
    }
}

#[cycle(term_at)]
fn boxed_at(alloc: Global, term: &Box<Term>, a: &Sort, b: &Sort) -> Result<Box<Term>, OutOfMemory>
    ensures { IfOk result (λ made. plain_term made ≡ term_at (plain_sort a.now) (plain_sort b.now) (plain_term term.now)) }
{
    boxed(alloc, term_at(alloc, term.get(), a, b))
}

#[cycle(term_at)]
fn terms_at(alloc: Global, terms: &[Term], a: &Sort, b: &Sort) -> Result<Seq<Term>, OutOfMemory>
    ensures { IfOk result (λ made. map plain_term made ≡ map (λ t. term_at (plain_sort a.now) (plain_sort b.now) (plain_term t)) terms.now) }
{
    let mut made = Seq::new(alloc);
    for term in terms {
        made.push(term_at(alloc, term, a, b)?)?;
    }
    Ok(made)
}
