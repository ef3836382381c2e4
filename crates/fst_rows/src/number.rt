// Products, sums and parts of numbers within 128 bits.

ghost use Rattle.std.specs.Prelude.{◌≡◌, ◌<◌, false, true, MatchResult, ◌+ℤ◌, ◌*ℤ◌, not};
ghost use Rattle.fst_base.specs.Primitives.{in128};
ghost use Rattle.fst_terms.specs.Rows.{part_of};
ghost use Rattle.fst_rows.specs.Sums.{is_wide_sum};

use crate::fault::RowFault;

/// The product, unless it is past 128 bits.
pub fn product(p: i128, n: i128) -> Result<i128, RowFault>
    ensures { MatchResult result (λ r. (r ≡ p *ℤ n) × (not (in128 (p *ℤ n)) ≡ false)) (λ _. not (in128 (p *ℤ n)) ≡ true) }
{
    match p.checked_mul(n) {
        Some(product) => Ok(product),
        None => Err(RowFault::PastRange),
    }
}

/// The sum, unless it is past 128 bits.
pub fn sum(m: i128, n: i128) -> Result<i128, RowFault>
    ensures { MatchResult result (λ r. (r ≡ m +ℤ n) × (not (in128 (m +ℤ n)) ≡ false)) (λ _. not (in128 (m +ℤ n)) ≡ true) }
{
    match m.checked_add(n) {
        Some(sum) => Ok(sum),
        None => Err(RowFault::PastRange),
    }
}

/// The sum of two products, unless one of these is past 128 bits.
pub fn sum_of_products(p: i128, m: i128, q: i128, n: i128) -> Result<i128, RowFault>
    ensures { MatchResult result (λ r. (r ≡ p *ℤ m +ℤ q *ℤ n) × (is_wide_sum p m q n ≡ false)) (λ _. is_wide_sum p m q n ≡ true) }
{
    let left = product(p, m)?;
    let right = product(q, n)?;
    sum(left, right)
}

/// The g-th part of a number, rounded down.
pub fn part(n: i128, g: u128) -> i128
    requires { 0 < g }
    ensures { result ≡ part_of g n }
{
    if n >= 0 {
        (n as u128 / g) as i128
    } else {
        let below = (-1 - n) as u128;
        -1 - (below / g) as i128
    }
}
