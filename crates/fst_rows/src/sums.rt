// Sums of rows.

ghost use Rattle.std.specs.Prelude.{◌≡◌, ◌≢◌, ◌<◌, ◌≤◌, ◌≤ℤ◌, length, drop, pos, false, true, ◌++◌, [], OnOk, OnErr, IfOk, IfSome, IsTrue, MatchResult};
ghost use Rattle.fst_rows.specs.Plain.{plain_row, coefficients};
ghost use Rattle.fst_terms.specs.Rows.{IsRow, parts, put, summed, merged, tight, combined, is_wide};
ghost use Rattle.fst_rows.specs.Sums.{are_wide};

use crate::divide::divisor;
use crate::fault::RowFault;
use crate::number::{part, product, sum_of_products};
use crate::row::{Coef, Row};
use crate::turn::{Turn, next};
use fst_base::{OutOfMemory, Seq};
use std::alloc::Global;

/// Appends the coefficient, unless it is 0.
pub fn put(coefs: &mut Vec<Coef>, unknown: u32, by: i128) -> Result<(), OutOfMemory>
    ensures { OnOk result (coefficients coefs.new.items ≡ coefficients coefs.old.items ++ put unknown by []) }
{
    if by != 0 {
        coefs.push(Coef { unknown, by })?;
    }
    Ok(())
}

/// The coefficients divided by g.
fn parts(alloc: Global, coefs: &[Coef], g: u128) -> Result<Vec<Coef>, OutOfMemory>
    requires { 0 < g }
    ensures { IfOk result (λ v. coefficients v.items ≡ parts g (coefficients coefs.now)) }
{
    let mut out = Vec::with_capacity(alloc, coefs.len())?;
    for coef in coefs {
        let by = part(coef.by, g);
        out.push(Coef {
            unknown: coef.unknown,
            by,
        })?;
    }
    Ok(out)
}

/// The row that tightening leaves.
pub fn tightened(alloc: Global, constant: i128, coefs: Vec<Coef>) -> Result<Row, OutOfMemory>
    ensures { IfOk result (λ r. plain_row r ≡ tight (record { constant = constant; coefs = coefficients coefs.items })) }
{
    let g = divisor(coefs.as_slice());
    if g == 0 {
        return Ok(Row {
            constant,
            coefs: Seq::from_vec(coefs),
        });
    }
    let coefs = parts(alloc, coefs.as_slice(), g)?;
    Ok(Row {
        constant: part(constant, g),
        coefs: Seq::from_vec(coefs),
    })
}

pub fn rest(coefs: &[Coef]) -> &[Coef]
    requires { 1 ≤ length coefs.now }
    ensures { result.now ≡ drop 1 coefs.now }
{
    &coefs[1..]
}

/// p times the first coefficients and q times the second ones.
pub fn merged(
    alloc: Global,
    p: i128,
    a: &[Coef],
    q: i128,
    b: &[Coef],
) -> Result<Vec<Coef>, RowFault>
    ensures ok { IfOk result (λ v. coefficients v.items ≡ merged p (coefficients a.now) q (coefficients b.now)) }
    ensures narrow { OnOk result (are_wide p (coefficients a.now) q (coefficients b.now) ≡ false) }
    ensures past { result ≡ Err RowFault.PastRange → are_wide p (coefficients a.now) q (coefficients b.now) ≡ true }
{
    let mut sum = Vec::new(alloc);
    let mut a = a;
    let mut b = b;
    loop {
        match next(a, b) {
            Turn::First(c) => {
                let by = product(p, c.by)?;
                put(&mut sum, c.unknown, by)?;
                a = rest(a);
            }
            Turn::Second(d) => {
                let by = product(q, d.by)?;
                put(&mut sum, d.unknown, by)?;
                b = rest(b);
            }
            Turn::Both(c, d) => {
                let by = sum_of_products(p, c.by, q, d.by)?;
                put(&mut sum, c.unknown, by)?;
                a = rest(a);
                b = rest(b);
            }
            Turn::End => return Ok(sum),
        }
    }
}

/// The tightened sum of p times row a and q times row b.
pub fn combine(alloc: Global, p: i128, a: &Row, q: i128, b: &Row) -> Result<Row, RowFault>
    ensures ok { IfOk result (λ r. plain_row r ≡ combined p (plain_row a.now) q (plain_row b.now)) }
    ensures ordered { IsRow (plain_row a.now) → IsRow (plain_row b.now) → IfOk result (λ r. IsRow (plain_row r)) }
    ensures narrow { OnOk result (is_wide p (plain_row a.now) q (plain_row b.now) ≡ false) }
    ensures past { result ≡ Err RowFault.PastRange → is_wide p (plain_row a.now) q (plain_row b.now) ≡ true }
{
    let constant = sum_of_products(p, a.constant, q, b.constant)?;
    let coefs = merged(alloc, p, a.coefs.as_slice(), q, b.coefs.as_slice())?;
    Ok(tightened(alloc, constant, coefs)?)
}
