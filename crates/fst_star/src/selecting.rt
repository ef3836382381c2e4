//! The ways of a match's constructors: their conditions, and the selectors of the scrutinee.
ghost use Rattle.std.specs.Prelude.{◌≡◌, ◌∷◌, [], map, Ok, IfOk};
ghost use Rattle.fst_base.specs.Sorts.{plain_sort};
ghost use Rattle.fst_program.specs.Paths.{op_of, selectors};
ghost use Rattle.fst_star.specs.Translation.{condition};
ghost use Rattle.fst_terms.specs.Formulas.{make};
ghost use Rattle.fst_terms.specs.declared.term.Term.{Term};
ghost use Rattle.fst_terms.specs.Terms.{plain_term, plain_terms, row, t_prim};

use crate::dividing::{Made, equation, negation};
use crate::putting::make;
use fst_base::{Op, OutOfMemory, Pos, Seq, Sort, one, pair, two};
use fst_program::Con;
use fst_terms::{Formula, Term};
use std::alloc::Global;

pub(crate) const NOWHERE: Pos = Pos { at: 0 };

/// The primitive that makes a constructor's terms.
fn op_of(con: Con) -> Op
    ensures { result ≡ op_of con }
{
    match con {
        Con::Empty => Op::Nothing,
        Con::Full => Op::Just,
        Con::Nil => Op::Nil,
        Con::Cons => Op::Cons,
        Con::Left => Op::Inl,
        Con::Right => Op::Inr,
        Con::True | Con::False | Con::Pair => Op::Pair,
    }
}

/// The selector of a term.
fn selected(alloc: Global, op: Op, sort: &Sort, term: &Term) -> Result<Term, OutOfMemory>
    ensures { IfOk result (λ made. plain_term made ≡ make op (plain_sort sort.now) (row (plain_term term.now ∷ [])) 0) }
{
    let sides = one(alloc, term.copy(alloc)?);
    let (sides, sort) = pair(sides, sort.copy(alloc))?;
    make(alloc, op, sort, sides, NOWHERE)
}

/// The selector of a term, alone.
fn single(alloc: Global, op: Op, sort: &Sort, term: &Term) -> Result<Seq<Term>, OutOfMemory>
    ensures { IfOk result (λ made. map plain_term made ≡ make op (plain_sort sort.now) (row (plain_term term.now ∷ [])) 0 ∷ []) }
{
    one(alloc, selected(alloc, op, sort, term)?)
}

/// Two selectors.
fn double(alloc: Global, first: Made, second: Made) -> Result<Seq<Term>, OutOfMemory>
    ensures { IfOk result (λ made. (t : Term) × ((u : Term) × ((first ≡ Ok t) × (second ≡ Ok u) × (made ≡ t ∷ u ∷ [])))) }
{
    let (first, second) = pair(first, second)?;
    two(alloc, first, second)
}

/// The selectors of a scrutinee of this sort, in the order of the constructor's parts.
#[tactic(auto, using(fst_scopes::proofs::PlainForms::plain_variants))]
pub(crate) fn selectors(
    alloc: Global,
    con: Con,
    sort: &Sort,
    term: &Term,
) -> Result<Seq<Term>, OutOfMemory>
    ensures { IfOk result (λ made. map plain_term made ≡ selectors con (plain_sort sort.now) (plain_term term.now)) }
{
    match (con, sort) {
        (Con::Full, Sort::Opt(item)) => single(alloc, Op::The, item.get(), term),
        (Con::Cons, Sort::List(item)) => {
            let head = selected(alloc, Op::Hd, item.get(), term);
            double(alloc, head, selected(alloc, Op::Tl, sort, term))
        }
        (Con::Left, Sort::Either(left, _)) => single(alloc, Op::Outl, left.get(), term),
        (Con::Right, Sort::Either(_, right)) => single(alloc, Op::Outr, right.get(), term),
        (Con::Pair, Sort::Pair(left, right)) => {
            let first = selected(alloc, Op::Fst, left.get(), term);
            double(alloc, first, selected(alloc, Op::Snd, right.get(), term))
        }
        _ => Ok(Seq::new(alloc)),
    }
}

/// The constructor of the selectors.
#[tactic(auto, using(fst_scopes::proofs::PlainForms::plain_variants))]
fn rebuilt(alloc: Global, con: Con, sort: &Sort, term: &Term) -> Result<Term, OutOfMemory>
    ensures { IfOk result (λ made. plain_term made ≡ t_prim (op_of con) (plain_sort sort.now) (row (selectors con (plain_sort sort.now) (plain_term term.now))) 0) }
{
    let (sides, sort) = pair(selectors(alloc, con, sort, term), sort.copy(alloc))?;
    Ok(Term::Prim(op_of(con), sort, sides, NOWHERE))
}

/// The condition of a constructor's way, for a scrutinee of this sort.
#[tactic(auto, using(fst_scopes::proofs::PlainForms::plain_variants))]
pub(crate) fn condition(
    alloc: Global,
    con: Con,
    sort: &Sort,
    term: &Term,
) -> Result<Formula, OutOfMemory>
    ensures { IfOk result (λ made. plain_term made ≡ condition con (plain_sort sort.now) (plain_term term.now)) }
{
    match con {
        Con::True => term.copy(alloc),
        Con::False => negation(alloc, term.copy(alloc)),
        Con::Pair => Ok(Term::Bool(true)),
        _ => equation(alloc, term.copy(alloc), rebuilt(alloc, con, sort, term)),
    }
}
