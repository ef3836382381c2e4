ghost use Rattle.std.specs.Prelude.{◌≡◌, suc, map, IfOk};
ghost use Rattle.fst_terms.specs.Indices.{Raisable, AreRaisable};
ghost use Rattle.fst_terms.specs.Terms.{plain_term, plain_terms, shift};

use crate::term::Term;
use fst_base::{Box, OutOfMemory, Seq};
use std::alloc::Global;

/// The term with the indices that are at least `from` raised by `by`.
#[cycle(shift)]
#[tactic(auto, using(crate::proofs::PlainLemmas::plain_variants))]
pub fn shift(alloc: Global, term: &Term, from: u32, by: u32) -> Result<Term, OutOfMemory>
    requires { Raisable from by (plain_term term.now) }
    ensures { IfOk result (λ raised. plain_term raised ≡ shift from by (plain_term term.now)) }
{
    match term {
        Term::Var(index) => Ok(Term::Var(if *index < from { *index } else { *index + by })),
        Term::Int(number) => Ok(Term::Int(*number)),
        Term::Bool(truth) => Ok(Term::Bool(*truth)),
        Term::Unit => Ok(Term::Unit),
        Term::Prim(op, sort, args, at) => {
            let args = shift_all(alloc, args.as_slice(), from, by)?;
            Ok(Term::Prim(*op, sort.copy(alloc)?, args, *at))
        }
        Term::If(test, left, right) => {
            let test = Box::new(alloc, shift(alloc, test.get(), from, by)?)?;
            let left = Box::new(alloc, shift(alloc, left.get(), from, by)?)?;
            let right = Box::new(alloc, shift(alloc, right.get(), from, by)?)?;
            Ok(Term::If(test, left, right))
        }
        Term::App(function, sort, args) => {
            let args = shift_all(alloc, args.as_slice(), from, by)?;
            Ok(Term::App(*function, sort.copy(alloc)?, args))
        }
        Term::Let(name, bound, rest) => {
            let name = name.copy(alloc)?;
            let bound = Box::new(alloc, shift(alloc, bound.get(), from, by)?)?;
            let rest = Box::new(alloc, shift_under(alloc, rest.get(), from, by)?)?;
            Ok(Term::Let(name, bound, rest))
        }
    }
}

/// The term raised under one let more.
#[cycle(shift)]
fn shift_under(alloc: Global, term: &Term, from: u32, by: u32) -> Result<Term, OutOfMemory>
    requires { Raisable (suc from) by (plain_term term.now) }
    ensures { IfOk result (λ raised. plain_term raised ≡ shift (suc from) by (plain_term term.now)) }
{
    match from.checked_add(1) {
        Some(from) => shift(alloc, term, from, by),
        // No index is as large.
        None => term.copy(alloc),
    }
}

#[cycle(shift)]
fn shift_all(alloc: Global, terms: &[Term], from: u32, by: u32) -> Result<Seq<Term>, OutOfMemory>
    requires { AreRaisable from by (plain_terms terms.now) }
    ensures { IfOk result (λ raised. map plain_term raised ≡ map (λ t. shift from by (plain_term t)) terms.now) }
{
    let mut raised = Seq::new(alloc);
    for term in terms {
        raised.push(shift(alloc, term, from, by)?)?;
    }
    Ok(raised)
}
