// Solutions over a common scale, checked.

ghost use Rattle.std.specs.Prelude.{◌≡◌, ◌≢◌, pos, ◌+ℤ◌, ◌*ℤ◌, ◌≤ℤ◌, IfSome, IsTrue, All};
ghost use Rattle.fst_rows.specs.Plain.{plain_row};
ghost use Rattle.fst_terms.specs.Rows.{value_at, SolvesOver};
ghost use Rattle.fst_linear.specs.Values.{values_of};

use fst_rows::{Coef, Row};

fn plus_product(total: i128, a: i128, b: i128) -> Option<i128>
    ensures { IfSome result (λ r. r ≡ total +ℤ a *ℤ b) }
{
    match a.checked_mul(b) {
        Some(product) => total.checked_add(product),
        None => None,
    }
}

fn value_of(values: &[i128], unknown: u32) -> i128
    ensures { result ≡ values_of values.now unknown }
{
    match values.get(unknown as usize) {
        Some(value) => *value,
        None => 0,
    }
}

fn plus_term(total: i128, coef: Coef, values: &[i128]) -> Option<i128>
    ensures { IfSome result (λ r. r ≡ total +ℤ coef.by *ℤ values_of values.now coef.unknown) }
{
    plus_product(total, coef.by, value_of(values, coef.unknown))
}

/// The value of the row, unless a number on the way is past 128 bits.
fn value(row: &Row, scale: u128, values: &[i128]) -> Option<i128>
    ensures { IfSome result (λ v. v ≡ value_at scale (values_of values.now) (plain_row row.now)) }
{
    let mut total = plus_product(0, i128::try_from(scale).ok()?, row.constant)?;
    for coef in row.coefs.as_slice() {
        total = plus_term(total, *coef, values)?;
    }
    Some(total)
}

fn solves_one(row: &Row, scale: u128, values: &[i128]) -> bool
    ensures { IsTrue result → SolvesOver scale (values_of values.now) (plain_row row.now) }
{
    match value(row, scale, values) {
        Some(value) => value >= 0,
        None => false,
    }
}

/// Whether the quotients of the values and the scale are known to solve all rows.
pub fn solves(rows: &[Row], scale: u128, values: &[i128]) -> bool
    ensures { IsTrue result → All (λ r. SolvesOver scale (values_of values.now) (plain_row r)) rows.now }
{
    for row in rows {
        if !solves_one(row, scale, values) {
            return false;
        }
    }
    true
}
