//! Terms of place 0, put together of results: a part that could not be made gives the fault.

ghost use Rattle.std.specs.Prelude.{◌≡◌, ◌∷◌, [], ◌++◌, map, OnOk};
ghost use Rattle.fst_base.specs.Sorts.{plain_sort};
ghost use Rattle.fst_base.specs.declared.op.Op.TheVariants as op;
ghost use Rattle.fst_shapes.specs.Makes.{Makes};
ghost use Rattle.fst_terms.specs.DataFacts.{implies, op_term};
ghost use Rattle.fst_terms.specs.Formulas.{at_most, either, equation, less, make, negation};
ghost use Rattle.fst_terms.specs.Terms.{Tm, plain_term, row, t_bool, t_if, t_int};

use crate::making::{make, prim};
use fst_base::{Op, OutOfMemory, Seq, Sort, boxed, one, pair, two};
use fst_terms::Term;
use std::alloc::Global;

/// A term, where there is memory for it.
pub type Made = Result<Term, OutOfMemory>;

/// An equal term.
#[tactic(auto, unfolding(crate::specs::Makes::Makes))]
pub fn copied(alloc: Global, term: &Term) -> Made
    ensures { Makes result (plain_term term.now) }
{
    term.copy(alloc)
}

/// The primitive of two arguments.
pub fn binary(alloc: Global, op: Op, sort: &Sort, left: Made, right: Made) -> Made
    ensures { (d e : Tm) → Makes left d → Makes right e → Makes result (op_term op (plain_sort sort.now) (d ∷ e ∷ [])) }
{
    let (left, right) = pair(left, right)?;
    let args = two(alloc, left, right)?;
    prim(alloc, op, sort, args)
}

/// The selector of one argument; of its own constructor term the component.
#[tactic(auto, unfolding(crate::specs::Makes::Makes))]
pub fn selector(alloc: Global, op: Op, sort: &Sort, term: &Term) -> Made
    ensures { Makes result (make op (plain_sort sort.now) (row (plain_term term.now ∷ [])) 0) }
{
    let args = one(alloc, term.copy(alloc)?)?;
    make(alloc, op, sort, args)
}

/// The formula that the two are equal.
pub fn equation(alloc: Global, left: Made, right: Made) -> Made
    ensures { (d e : Tm) → Makes left d → Makes right e → Makes result (equation d e) }
{
    binary(alloc, Op::Eq, &Sort::Bool, left, right)
}

/// The formula that the left one is at most the right one.
pub fn at_most(alloc: Global, left: Made, right: Made) -> Made
    ensures { (d e : Tm) → Makes left d → Makes right e → Makes result (at_most d e) }
{
    binary(alloc, Op::Le, &Sort::Bool, left, right)
}
