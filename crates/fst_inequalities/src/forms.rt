//! Forms put together of results: a part that could not be made gives the fault.

ghost use Rattle.std.specs.Prelude.{ℕ};
ghost use Rattle.fst_base.specs.Sorts.{Srt};
ghost use Rattle.fst_base.specs.declared.op.Op.TheVariants as op;
ghost use Rattle.fst_congruence.specs.Numbered.{IsOnce};
ghost use Rattle.fst_inequalities.specs.Forming.{Forms, IsUnknown, sum_op};
ghost use Rattle.fst_terms.specs.Flats.{Flt, plain_flat};
ghost use Rattle.fst_terms.specs.Terms.{Tm, plain_term, t_end, t_int, t_more, t_prim};

use fst_base::Seq;
use fst_congruence::{Places, number_of};
use fst_rows::{Coef, Row, RowFault, plus, scaled};
use fst_terms::{Flat, Term};
use std::alloc::Global;

/// A row, where its numbers are within 128 bits.
pub type Formed = Result<Row, RowFault>;

/// The form of a number.
pub fn number(alloc: Global, value: i128) -> Formed
    ensures { (f : Flt) → Forms f (t_int value) result }
{
    Ok(Row {
        constant: value,
        coefs: Seq::new(alloc),
    })
}

/// A term as an unknown, by its number.
pub fn unknown(alloc: Global, flat: &Flat, places: &Places, term: &Term) -> Formed
    requires { IsOnce (plain_flat flat.now).terms }
    ensures { IsUnknown (plain_flat flat.now) (plain_term term.now) result }
{
    let unknown = number_of(flat.terms.as_slice(), places, term)?;
    let mut coefs = Seq::new(alloc);
    coefs.push(Coef { unknown, by: 1 })?;
    Ok(Row { constant: 0, coefs })
}

/// The form of a sum or a difference.
pub fn sum_of(alloc: Global, left: Formed, minus: bool, right: Formed) -> Formed
    ensures { (f : Flt) (t u : Tm) (S : Srt) (at : ℕ) → Forms f t left → Forms f u right → Forms f (t_prim (sum_op minus) S (t_more t (t_more u t_end)) at) result }
{
    let left = left?;
    let right = right?;
    plus(alloc, &left, minus, &right)
}

/// The form of a negation.
pub fn negation(alloc: Global, arg: Formed) -> Formed
    ensures { (f : Flt) (t : Tm) (S : Srt) (at : ℕ) → Forms f t arg → Forms f (t_prim op.Neg S (t_more t t_end) at) result }
{
    let arg = arg?;
    scaled(alloc, -1, &arg)
}

/// The form of a product: of two terms that are no numbers it is an unknown.
pub fn product(alloc: Global, left: Formed, right: Formed, opaque: Formed) -> Formed
    ensures { (f : Flt) (t u : Tm) (S : Srt) (at : ℕ) → Forms f t left → Forms f u right → IsUnknown f (t_prim op.Mul S (t_more t (t_more u t_end)) at) opaque → Forms f (t_prim op.Mul S (t_more t (t_more u t_end)) at) result }
{
    let left = left?;
    let right = right?;
    if left.coefs.is_empty() {
        return scaled(alloc, left.constant, &right);
    }
    if right.coefs.is_empty() {
        return scaled(alloc, right.constant, &left);
    }
    opaque
}
