//! Rows of inequalities between terms, from their forms.

ghost use Rattle.std.specs.Prelude.{◌≡◌, true, IfOk};
ghost use Rattle.fst_inequalities.specs.Forming.{IsForm, Making};
ghost use Rattle.fst_inequalities.specs.Inequalities.{Rows, before, between};
ghost use Rattle.fst_rows.specs.Plain.{plain_row};
ghost use Rattle.fst_terms.specs.Flats.{Flt};
ghost use Rattle.fst_terms.specs.Rows.{IsRow};
ghost use Rattle.fst_terms.specs.Terms.{Tm};

use crate::forms::Formed;
use fst_base::{OutOfMemory, Seq};
use fst_rows::{Row, RowFault, plus, tighten};
use std::alloc::Global;

/// The same coefficients beside another constant.
fn with_constant(alloc: Global, row: &Row, constant: i128) -> Result<Row, OutOfMemory>
    ensures constant { IfOk result (λ r. r.constant ≡ constant) }
    ensures coefs { IfOk result (λ r. r.coefs ≡ row.now.coefs) }
{
    let coefs = Seq::from_slice(alloc, row.coefs.as_slice())?;
    Ok(Row { constant, coefs })
}

/// The difference less 1. The 1 goes to the side whose constant has room for it.
fn below(alloc: Global, left: &Row, right: &Row) -> Formed
    ensures { IsRow (plain_row left.now) → IsRow (plain_row right.now) → Making result (before (plain_row left.now) (plain_row right.now) true) }
{
    if right.constant < i128::MAX {
        let right = with_constant(alloc, right, right.constant + 1)?;
        return plus(alloc, left, true, &right);
    }
    if left.constant > i128::MIN {
        let left = with_constant(alloc, left, left.constant - 1)?;
        return plus(alloc, &left, true, right);
    }
    Err(RowFault::PastRange)
}

/// The difference of two forms, less 1 where it is asked, before tightening.
fn difference(alloc: Global, left: &Row, right: &Row, less: bool) -> Formed
    ensures { IsRow (plain_row left.now) → IsRow (plain_row right.now) → Making result (before (plain_row left.now) (plain_row right.now) less) }
{
    if less {
        below(alloc, left, right)
    } else {
        plus(alloc, left, true, right)
    }
}

/// The row of 0 <= left - right, or with `less` of 0 <= left - right - 1, from the forms of the two: `PastRange` where the inequality is
/// wide.
pub fn row_of(alloc: Global, left: &Row, right: &Row, less: bool) -> Formed
    ensures { (f : Flt) (t u : Tm) → IsForm f t (plain_row left.now) → IsForm f u (plain_row right.now) → Rows f (between t u less) result }
{
    let row = difference(alloc, left, right, less)?;
    Ok(tighten(alloc, row)?)
}
