//! Formulas of place 0, put together of results: a part that could not be made gives the fault.

ghost use Rattle.std.specs.Prelude.{◌≡◌, ◌∷◌, ◌++◌, [], map, IfOk};
ghost use Rattle.fst_base.specs.Sorts.{plain_sort};
ghost use Rattle.fst_base.specs.declared.op.Op.TheVariants as op;
ghost use Rattle.fst_logicfun.specs.Makes.{Makes};
ghost use Rattle.fst_terms.specs.DataFacts.{implies, op_term};
ghost use Rattle.fst_terms.specs.Formulas.{both, equation, joined, negation};
ghost use Rattle.fst_terms.specs.Terms.{Tm, plain_term, t_bool, t_if};

use crate::making::prim;
use fst_base::{Op, OutOfMemory, Pos, Seq, Sort, boxed, pair, two};
use fst_terms::Term;
use std::alloc::Global;

/// A term, where there is memory for it.
pub type Made = Result<Term, OutOfMemory>;

/// An equal term.
#[tactic(auto, unfolding(crate::specs::Makes::Makes))]
pub fn copied(alloc: Global, term: &Term) -> Made
    ensures { Makes result (plain_term term.now) }
{
    term.copy(alloc)
}

#[tactic(auto, using(fst_scopes::proofs::PlainForms::plain_variants), unfolding(crate::specs::Makes::Makes))]
pub fn truth(value: bool) -> Made
    ensures { Makes result (t_bool value) }
{
    Ok(Term::Bool(value))
}

/// The primitive of two arguments.
pub fn binary(alloc: Global, op: Op, sort: &Sort, left: Made, right: Made) -> Made
    ensures { (d e : Tm) → Makes left d → Makes right e → Makes result (op_term op (plain_sort sort.now) (d ∷ e ∷ [])) }
{
    let (left, right) = pair(left, right)?;
    let args = two(alloc, left, right)?;
    prim(alloc, op, sort, args, Pos { at: 0 })
}

/// The `if` of these three.
pub fn choice(alloc: Global, test: Made, left: Made, right: Made) -> Made
    ensures { (c d e : Tm) → Makes test c → Makes left d → Makes right e → Makes result (t_if c d e) }
{
    let front = pair(boxed(alloc, test), boxed(alloc, left));
    let ((test, left), right) = pair(front, boxed(alloc, right))?;
    Ok(Term::If(test, left, right))
}

/// The formula that the two are equal.
pub fn equation(alloc: Global, left: Made, right: Made) -> Made
    ensures { (d e : Tm) → Makes left d → Makes right e → Makes result (equation d e) }
{
    binary(alloc, Op::Eq, &Sort::Bool, left, right)
}

/// The formula's negation.
pub fn negation(alloc: Global, formula: Made) -> Made
    ensures { (e : Tm) → Makes formula e → Makes result (negation e) }
{
    choice(alloc, formula, truth(false), truth(true))
}

/// Both of the two formulas.
fn conjunction(alloc: Global, left: Made, right: Made) -> Made
    ensures { (d e : Tm) → Makes left d → Makes right e → Makes result (both d e) }
{
    choice(alloc, left, right, truth(false))
}

/// The second formula, where the first one holds.
pub fn implies(alloc: Global, left: Made, right: Made) -> Made
    ensures { (d e : Tm) → Makes left d → Makes right e → Makes result (implies d e) }
{
    choice(alloc, left, right, truth(true))
}

/// The formulas joined by `&&` from the right, and true where there is none.
pub fn joined(alloc: Global, formulas: &[Term]) -> Made
    ensures { Makes result (joined (map plain_term formulas.now)) }
{
    match formulas.split_first() {
        Some((first, rest)) => joined_from(alloc, first, rest),
        None => truth(true),
    }
}

/// A formula and those that follow it, joined.
fn joined_from(alloc: Global, first: &Term, rest: &[Term]) -> Made
    ensures { Makes result (joined (plain_term first.now ∷ map plain_term rest.now)) }
{
    match rest.split_first() {
        Some((next, rest)) => conjunction(
            alloc,
            copied(alloc, first),
            joined_from(alloc, next, rest),
        ),
        None => copied(alloc, first),
    }
}
