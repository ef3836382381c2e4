//! Formulas that are made, with place 0 throughout.

ghost use Rattle.std.specs.Prelude.{◌≡◌, ◌∷◌, [], map, Ok, IfOk};
ghost use Rattle.fst_terms.specs.declared.term.Term.{Term};
ghost use Rattle.fst_terms.specs.Formulas.{at_most, both, either, equation, joined, less, nought};
ghost use Rattle.fst_terms.specs.Terms.{plain_term};

use fst_base::{Box, Op, OutOfMemory, Pos, Seq, Sort, boxes, pair, two};
use fst_terms::{Formula, Term};
use std::alloc::Global;

const NOWHERE: Pos = Pos { at: 0 };

fn compared(op: Op, sides: Seq<Term>) -> Formula
    ensures { result ≡ Term.Prim op Sort.Bool sides NOWHERE }
{
    Term::Prim(op, Sort::Bool, sides, NOWHERE)
}

fn sides(alloc: Global, left: &Term, right: &Term) -> Result<Seq<Term>, OutOfMemory>
    ensures { IfOk result (λ sides. sides ≡ left.now ∷ right.now ∷ []) }
{
    let (left, right) = pair(left.copy(alloc), right.copy(alloc))?;
    two(alloc, left, right)
}

/// `left < right`.
#[tactic(auto, using(fst_terms::proofs::PlainLemmas::plain_variants))]
pub fn less(alloc: Global, left: &Term, right: &Term) -> Result<Formula, OutOfMemory>
    ensures { IfOk result (λ made. plain_term made ≡ less (plain_term left.now) (plain_term right.now)) }
{
    let sides = sides(alloc, left, right)?;
    Ok(compared(Op::Lt, sides))
}

/// `left = right`.
#[tactic(auto, using(fst_terms::proofs::PlainLemmas::plain_variants))]
pub fn equation(alloc: Global, left: &Term, right: &Term) -> Result<Formula, OutOfMemory>
    ensures { IfOk result (λ made. plain_term made ≡ equation (plain_term left.now) (plain_term right.now)) }
{
    let sides = sides(alloc, left, right)?;
    Ok(compared(Op::Eq, sides))
}

/// `0 <= term`.
#[tactic(auto, using(fst_terms::proofs::PlainLemmas::plain_variants))]
pub fn at_least_nought(alloc: Global, term: &Term) -> Result<Formula, OutOfMemory>
    ensures { IfOk result (λ made. plain_term made ≡ at_most nought (plain_term term.now)) }
{
    let sides = sides(alloc, &Term::Int(0), term)?;
    Ok(compared(Op::Le, sides))
}

/// `first && second`.
#[tactic(auto, using(fst_terms::proofs::PlainLemmas::plain_variants))]
pub fn conjunction(
    alloc: Global,
    first: Result<Formula, OutOfMemory>,
    second: Result<Formula, OutOfMemory>,
) -> Result<Formula, OutOfMemory>
    ensures { IfOk result (λ made. (p : Term) × ((q : Term) × ((first ≡ Ok p) × (second ≡ Ok q) × (plain_term made ≡ both (plain_term p) (plain_term q))))) }
{
    let (first, second) = pair(first, second)?;
    let (first, second) = boxes(alloc, first, second)?;
    Ok(Term::If(first, second, Box::new(alloc, Term::Bool(false))?))
}

/// `first || second`.
#[tactic(auto, using(fst_terms::proofs::PlainLemmas::plain_variants))]
pub fn disjunction(
    alloc: Global,
    first: Result<Formula, OutOfMemory>,
    second: Result<Formula, OutOfMemory>,
) -> Result<Formula, OutOfMemory>
    ensures { IfOk result (λ made. (p : Term) × ((q : Term) × ((first ≡ Ok p) × (second ≡ Ok q) × (plain_term made ≡ either (plain_term p) (plain_term q))))) }
{
    let (first, second) = pair(first, second)?;
    let (first, second) = boxes(alloc, first, second)?;
    Ok(Term::If(first, Box::new(alloc, Term::Bool(true))?, second))
}

/// The formulas joined by `&&` from the right, and `true` where there is none.
#[tactic(auto, using(fst_terms::proofs::PlainLemmas::plain_variants))]
pub fn joined(alloc: Global, formulas: &[Formula]) -> Result<Formula, OutOfMemory>
    ensures { IfOk result (λ made. plain_term made ≡ joined (map plain_term formulas.now)) }
{
    match formulas.split_first() {
        Some((first, rest)) => joined_from(alloc, first, rest),
        None => Ok(Term::Bool(true)),
    }
}

/// A formula and those that follow it, joined.
fn joined_from(alloc: Global, first: &Formula, rest: &[Formula]) -> Result<Formula, OutOfMemory>
    ensures { IfOk result (λ made. plain_term made ≡ joined (plain_term first.now ∷ map plain_term rest.now)) }
{
    match rest.split_first() {
        Some((next, more)) => conjunction(alloc, first.copy(alloc), joined_from(alloc, next, more)),
        None => first.copy(alloc),
    }
}
