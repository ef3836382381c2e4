//! Sums, differences and multiples of rows before tightening: there is none exactly where a number of it is past 128 bits.

ghost use Rattle.std.specs.Prelude.{◌≡◌, ◌++◌, ◌+ℤ◌, ◌*ℤ◌, [], pos, not, true, false, Err, IfOk, OnOk, MatchResult};
ghost use Rattle.fst_base.specs.Primitives.{in128};
ghost use Rattle.fst_rows.specs.Exact.{plus, sign};
ghost use Rattle.fst_rows.specs.Plain.{coefficients, plain_row};
ghost use Rattle.fst_terms.specs.Linear.{minus_one, scaled};
ghost use Rattle.fst_terms.specs.Rows.{IsRow, is_wide_row, merged, some_wide, tight};

use crate::fault::RowFault;
use crate::number::{product, sum};
use crate::row::{Coef, Row};
use crate::sums::{merged, put, rest, tightened};
use crate::turn::{Turn, next};
use fst_base::{OutOfMemory, Seq};
use std::alloc::Global;

fn difference(m: i128, n: i128) -> Result<i128, RowFault>
    ensures { MatchResult result (λ r. (r ≡ m +ℤ minus_one *ℤ n) × (not (in128 (m +ℤ minus_one *ℤ n)) ≡ false)) (λ _. not (in128 (m +ℤ minus_one *ℤ n)) ≡ true) }
{
    match m.checked_sub(n) {
        Some(difference) => Ok(difference),
        None => Err(RowFault::PastRange),
    }
}

/// The sum of two numbers, or their difference.
fn joined(m: i128, minus: bool, n: i128) -> Result<i128, RowFault>
    ensures { MatchResult result (λ r. (r ≡ pos 1 *ℤ m +ℤ sign minus *ℤ n) × (not (in128 (pos 1 *ℤ m +ℤ sign minus *ℤ n)) ≡ false)) (λ _. not (in128 (pos 1 *ℤ m +ℤ sign minus *ℤ n)) ≡ true) }
{
    if minus { difference(m, n) } else { sum(m, n) }
}

/// The number, or its negation.
fn signed(minus: bool, n: i128) -> Result<i128, RowFault>
    ensures { MatchResult result (λ r. (r ≡ sign minus *ℤ n) × (not (in128 (sign minus *ℤ n)) ≡ false)) (λ _. not (in128 (sign minus *ℤ n)) ≡ true) }
{
    if minus { product(-1, n) } else { product(1, n) }
}

/// The sum of the coefficients, or their difference.
fn added(alloc: Global, a: &[Coef], minus: bool, b: &[Coef]) -> Result<Vec<Coef>, RowFault>
    ensures ok { IfOk result (λ v. coefficients v.items ≡ merged (pos 1) (coefficients a.now) (sign minus) (coefficients b.now)) }
    ensures narrow { OnOk result (some_wide (merged (pos 1) (coefficients a.now) (sign minus) (coefficients b.now)) ≡ false) }
    ensures past { result ≡ Err RowFault.PastRange → some_wide (merged (pos 1) (coefficients a.now) (sign minus) (coefficients b.now)) ≡ true }
{
    let mut sum = Vec::new(alloc);
    let mut a = a;
    let mut b = b;
    loop {
        match next(a, b) {
            Turn::First(c) => {
                let by = signed(false, c.by)?;
                put(&mut sum, c.unknown, by)?;
                a = rest(a);
            }
            Turn::Second(d) => {
                let by = signed(minus, d.by)?;
                put(&mut sum, d.unknown, by)?;
                b = rest(b);
            }
            Turn::Both(c, d) => {
                let by = joined(c.by, minus, d.by)?;
                put(&mut sum, c.unknown, by)?;
                a = rest(a);
                b = rest(b);
            }
            Turn::End => return Ok(sum),
        }
    }
}

/// The sum of two rows, or their difference.
pub fn plus(alloc: Global, a: &Row, minus: bool, b: &Row) -> Result<Row, RowFault>
    ensures ok { IfOk result (λ r. plain_row r ≡ plus (plain_row a.now) minus (plain_row b.now)) }
    ensures ordered { IsRow (plain_row a.now) → IsRow (plain_row b.now) → IfOk result (λ r. IsRow (plain_row r)) }
    ensures narrow { OnOk result (is_wide_row (plus (plain_row a.now) minus (plain_row b.now)) ≡ false) }
    ensures past { result ≡ Err RowFault.PastRange → is_wide_row (plus (plain_row a.now) minus (plain_row b.now)) ≡ true }
{
    let constant = joined(a.constant, minus, b.constant)?;
    let coefs = added(alloc, a.coefs.as_slice(), minus, b.coefs.as_slice())?;
    Ok(Row {
        constant,
        coefs: Seq::from_vec(coefs),
    })
}

/// So many times the row.
pub fn scaled(alloc: Global, k: i128, a: &Row) -> Result<Row, RowFault>
    ensures ok { IfOk result (λ r. plain_row r ≡ scaled k (plain_row a.now)) }
    ensures ordered { IsRow (plain_row a.now) → IfOk result (λ r. IsRow (plain_row r)) }
    ensures narrow { OnOk result (is_wide_row (scaled k (plain_row a.now)) ≡ false) }
    ensures past { result ≡ Err RowFault.PastRange → is_wide_row (scaled k (plain_row a.now)) ≡ true }
{
    let constant = product(k, a.constant)?;
    let coefs = merged(alloc, k, a.coefs.as_slice(), 0, &[])?;
    Ok(Row {
        constant,
        coefs: Seq::from_vec(coefs),
    })
}

/// The row, tightened.
pub fn tighten(alloc: Global, row: Row) -> Result<Row, OutOfMemory>
    ensures is { IfOk result (λ r. plain_row r ≡ tight (plain_row row)) }
    ensures ordered { IsRow (plain_row row) → IfOk result (λ r. IsRow (plain_row r)) }
{
    let Row { constant, coefs } = row;
    tightened(alloc, constant, coefs.into_vec())
}
