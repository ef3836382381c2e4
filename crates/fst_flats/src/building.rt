//! Terms of place 0, put together of results: a part that could not be made gives the fault.

ghost use Rattle.std.specs.Prelude.{◌≡◌, ◌∷◌, [], ◌++◌, map, OnOk};
ghost use Rattle.fst_base.specs.Sorts.{plain_sort};
ghost use Rattle.fst_base.specs.declared.op.Op.TheVariants as op;
ghost use Rattle.fst_flats.specs.Makes.{Makes};
ghost use Rattle.fst_terms.specs.DataFacts.{implies, op_term};
ghost use Rattle.fst_terms.specs.Formulas.{at_most, either, equation, less, make, negation};
ghost use Rattle.fst_terms.specs.Terms.{Tm, plain_term, row, t_bool, t_if, t_int};

use crate::making::{make, prim};
use fst_base::{Op, OutOfMemory, Seq, Sort, boxed, one, pair, two};
use fst_terms::Term;
use std::alloc::Global;

/// A term, where there is memory for it.
pub type Made = Result<Term, OutOfMemory>;

/// An equal term.
#[tactic(auto, unfolding(crate::specs::Makes::Makes))]
pub fn copied(alloc: Global, term: &Term) -> Made
    ensures { Makes result (plain_term term.now) }
{
    term.copy(alloc)
}

#[tactic(auto, using(crate::proofs::PlainForms::plain_variants), unfolding(crate::specs::Makes::Makes))]
pub fn number(value: i128) -> Made
    ensures { Makes result (t_int value) }
{
    Ok(Term::Int(value))
}

#[tactic(auto, using(crate::proofs::PlainForms::plain_variants), unfolding(crate::specs::Makes::Makes))]
pub fn truth(value: bool) -> Made
    ensures { Makes result (t_bool value) }
{
    Ok(Term::Bool(value))
}

/// The primitive without arguments.
#[tactic(auto, unfolding(crate::specs::Makes::Makes))]
pub fn nullary(alloc: Global, op: Op, sort: &Sort) -> Made
    ensures { Makes result (op_term op (plain_sort sort.now) []) }
{
    prim(alloc, op, sort, Seq::new(alloc))
}

/// The primitive of one argument.
pub fn unary(alloc: Global, op: Op, sort: &Sort, arg: Made) -> Made
    ensures { (e : Tm) → Makes arg e → Makes result (op_term op (plain_sort sort.now) (e ∷ [])) }
{
    let args = one(alloc, arg?)?;
    prim(alloc, op, sort, args)
}

/// The primitive of two arguments.
pub fn binary(alloc: Global, op: Op, sort: &Sort, left: Made, right: Made) -> Made
    ensures { (d e : Tm) → Makes left d → Makes right e → Makes result (op_term op (plain_sort sort.now) (d ∷ e ∷ [])) }
{
    let (left, right) = pair(left, right)?;
    let args = two(alloc, left, right)?;
    prim(alloc, op, sort, args)
}

/// The selector of one argument; of its own constructor term the component.
#[tactic(auto, unfolding(crate::specs::Makes::Makes))]
pub fn selector(alloc: Global, op: Op, sort: &Sort, term: &Term) -> Made
    ensures { Makes result (make op (plain_sort sort.now) (row (plain_term term.now ∷ [])) 0) }
{
    let args = one(alloc, term.copy(alloc)?)?;
    make(alloc, op, sort, args)
}

/// The `if` of these three.
pub fn choice(alloc: Global, test: Made, left: Made, right: Made) -> Made
    ensures { (c d e : Tm) → Makes test c → Makes left d → Makes right e → Makes result (t_if c d e) }
{
    let front = pair(boxed(alloc, test), boxed(alloc, left));
    let ((test, left), right) = pair(front, boxed(alloc, right))?;
    Ok(Term::If(test, left, right))
}

/// The formula that the two are equal.
pub fn equation(alloc: Global, left: Made, right: Made) -> Made
    ensures { (d e : Tm) → Makes left d → Makes right e → Makes result (equation d e) }
{
    binary(alloc, Op::Eq, &Sort::Bool, left, right)
}

/// The formula that the left one is at most the right one.
pub fn at_most(alloc: Global, left: Made, right: Made) -> Made
    ensures { (d e : Tm) → Makes left d → Makes right e → Makes result (at_most d e) }
{
    binary(alloc, Op::Le, &Sort::Bool, left, right)
}

/// The formula that the left one is below the right one.
pub fn less(alloc: Global, left: Made, right: Made) -> Made
    ensures { (d e : Tm) → Makes left d → Makes right e → Makes result (less d e) }
{
    binary(alloc, Op::Lt, &Sort::Bool, left, right)
}

/// One of the two formulas.
pub fn either(alloc: Global, left: Made, right: Made) -> Made
    ensures { (d e : Tm) → Makes left d → Makes right e → Makes result (either d e) }
{
    choice(alloc, left, truth(true), right)
}

/// The second formula, where the first one holds.
pub fn implies(alloc: Global, left: Made, right: Made) -> Made
    ensures { (d e : Tm) → Makes left d → Makes right e → Makes result (implies d e) }
{
    choice(alloc, left, right, truth(true))
}

/// The formula's negation.
pub fn negation(alloc: Global, formula: Made) -> Made
    ensures { (e : Tm) → Makes formula e → Makes result (negation e) }
{
    choice(alloc, formula, truth(false), truth(true))
}

/// Puts the made term last.
pub fn push_made(made: Made, terms: &mut Seq<Term>) -> Result<(), OutOfMemory>
    ensures { OnOk result ((e : Tm) → Makes made e → map plain_term terms.new ≡ map plain_term terms.old ++ e ∷ []) }
{
    terms.push(made?)
}
