//! The decrease of measures in lexicographic order.

ghost use Rattle.std.specs.Prelude.{◌≡◌, ◌∷◌, map, IfOk};
ghost use Rattle.fst_terms.specs.Formulas.{decrease, descends, floors};
ghost use Rattle.fst_terms.specs.Terms.{plain_term};

use crate::formulas::{at_least_nought, conjunction, disjunction, equation, less};
use fst_base::{OutOfMemory, Seq};
use fst_terms::{Formula, Term};
use std::alloc::Global;

/// The formula that the new measures decrease from the old ones: each new one is at least 0, and they come before the old ones in
/// lexicographic order.
pub fn decrease(alloc: Global, old: &Seq<Term>, new: &Seq<Term>) -> Result<Formula, OutOfMemory>
    ensures { IfOk result (λ made. plain_term made ≡ decrease (map plain_term new.now) (map plain_term old.now)) }
{
    let new = new.as_slice();
    conjunction(
        alloc,
        floors(alloc, new),
        descends(alloc, new, old.as_slice()),
    )
}

/// Each of these is at least 0.
#[tactic(auto, using(fst_terms::proofs::PlainLemmas::plain_variants))]
fn floors(alloc: Global, new: &[Term]) -> Result<Formula, OutOfMemory>
    ensures { IfOk result (λ made. plain_term made ≡ floors (map plain_term new.now)) }
{
    match new.split_first() {
        Some((first, rest)) => floors_from(alloc, first, rest),
        None => Ok(Term::Bool(true)),
    }
}

/// The first and each of the rest is at least 0.
fn floors_from(alloc: Global, first: &Term, rest: &[Term]) -> Result<Formula, OutOfMemory>
    ensures { IfOk result (λ made. plain_term made ≡ floors (plain_term first.now ∷ map plain_term rest.now)) }
{
    let floor = at_least_nought(alloc, first);
    match rest.split_first() {
        Some((next, more)) => conjunction(alloc, floor, floors_from(alloc, next, more)),
        None => floor,
    }
}

/// The new ones come before the old ones in lexicographic order.
#[tactic(auto, using(fst_terms::proofs::PlainLemmas::plain_variants))]
fn descends(alloc: Global, new: &[Term], old: &[Term]) -> Result<Formula, OutOfMemory>
    ensures { IfOk result (λ made. plain_term made ≡ descends (map plain_term new.now) (map plain_term old.now)) }
{
    match new.split_first() {
        Some((first, rest)) => descends_from(alloc, first, rest, old),
        None => Ok(Term::Bool(false)),
    }
}

/// The same, of a first one and the rest.
#[tactic(auto, using(fst_terms::proofs::PlainLemmas::plain_variants))]
fn descends_from(
    alloc: Global,
    first: &Term,
    rest: &[Term],
    old: &[Term],
) -> Result<Formula, OutOfMemory>
    ensures { IfOk result (λ made. plain_term made ≡ descends (plain_term first.now ∷ map plain_term rest.now) (map plain_term old.now)) }
{
    let Some((from, olds)) = old.split_first() else {
        return Ok(Term::Bool(false));
    };
    let under = less(alloc, first, from);
    match rest.split_first() {
        Some((next, more)) => {
            let later = descends_from(alloc, next, more, olds);
            disjunction(
                alloc,
                under,
                conjunction(alloc, equation(alloc, first, from), later),
            )
        }
        None => under,
    }
}
