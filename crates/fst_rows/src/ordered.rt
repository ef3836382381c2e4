// Rows in order.

ghost use Rattle.std.specs.Prelude.{◌↔◌, IsTrue, All};
ghost use Rattle.fst_terms.specs.Rows.{IsRow, Rise};
ghost use Rattle.fst_rows.specs.Plain.{plain_row, coefficients};

use crate::row::{Coef, Row};

/// Whether no coefficient is 0, and they stand in rising order of their unknowns.
fn is_rising(coefs: &[Coef]) -> bool
    ensures { IsTrue result ↔ Rise 0 (coefficients coefs.now) }
{
    let mut rest = coefs;
    let mut from: u64 = 0;
    while let [first, more @ ..] = rest {
        if u64::from(first.unknown) < from || first.by == 0 {
            return false;
        }
        from = u64::from(first.unknown) + 1;
        rest = more;
    }
    true
}

fn is_ordered(row: &Row) -> bool
    ensures { IsTrue result ↔ IsRow (plain_row row.now) }
{
    is_rising(row.coefs.as_slice())
}

/// Whether in each row no coefficient is 0, and they stand in rising order of their unknowns.
pub fn are_ordered(rows: &[Row]) -> bool
    ensures { IsTrue result ↔ All (λ r. IsRow (plain_row r)) rows.now }
{
    rows.iter().all(|row| is_ordered(row))
}
