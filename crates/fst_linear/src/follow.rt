// Multipliers turned into steps.

ghost use Rattle.std.specs.Prelude.{◌≡◌, ◌+◌, ◌<◌, ◌≤ℤ◌, pos, length, IfOk, IfSome};
ghost use Rattle.fst_linear.specs.Refutations.{Refutes};
ghost use Rattle.fst_linear.specs.Derivations.{Derives, given_rows, made_rows, made_steps};
ghost use Rattle.fst_linear.specs.Following.{Follows};
ghost use Rattle.fst_linear.specs.Steps.{plain_steps};

use crate::answer::Step;
use crate::derivation::{Made, add, row_at};
use crate::elimination::steps_of;
use crate::pairs::{coef, is_below};
use fst_base::{OutOfMemory, Seq};
use fst_rows::{Row, RowFault, gcd};
use std::alloc::Global;

/// The sum of the rows so far, each with its multiplier: the row at a place times the weight.
#[derive(Clone, Copy, Debug)]
pub struct Partial {
    pub at: usize,
    pub weight: i128,
}

/// What one more row gives: a sum, a last row `0 <= c` with negative c, or a number past 128 bits.
#[derive(Clone, Copy, Debug)]
pub enum Followed {
    Sum(Partial),
    Below,
    Past,
}

/// Two multipliers over their greatest common divisor, and that, where both are at least 1.
fn reduced(p: i128, q: i128) -> Option<(i128, i128, i128)>
    ensures { IfSome result (λ s. (pos 1 ≤ℤ s.0) × (pos 1 ≤ℤ s.1)) }
{
    let divisor = i128::try_from(gcd(p.unsigned_abs(), q.unsigned_abs())).ok()?;
    let p = p.checked_div(divisor)?;
    let q = q.checked_div(divisor)?;
    if p >= 1 && q >= 1 {
        Some((p, q, divisor))
    } else {
        None
    }
}

/// By what the sum of p times one row and q times another was divided, seen at the first unknown
/// of the sum.
fn divided_by(sum: &Row, p: i128, first: &Row, q: i128, second: &Row) -> Option<i128> {
    match sum.coefs.as_slice() {
        [] => Some(1),
        [head, ..] => {
            let left = p.checked_mul(coef(first, head.unknown))?;
            let right = q.checked_mul(coef(second, head.unknown))?;
            left.checked_add(right)?.checked_div(head.by)
        }
    }
}

/// Adds `by` times row i to the sum.
fn more(
    alloc: Global,
    given: &[Row],
    made: &mut Vec<Made>,
    sum: Partial,
    by: i128,
    i: usize,
) -> Result<Followed, OutOfMemory>
    requires derives { Derives (given_rows given.now) (made_rows made.old.items) (made_steps made.old.items) }
    requires at { sum.at < length given.now + length made.old.items }
    requires i { i < length given.now }
    ensures derives { Derives (given_rows given.now) (made_rows made.new.items) (made_steps made.new.items) }
    ensures follows { IfOk result (λ f. Follows given.now made.new.items f) }
{
    let Some((p, q, divisor)) = reduced(sum.weight, by) else {
        return Ok(Followed::Past);
    };
    match add(alloc, given, made, p, sum.at, q, i) {
        Ok(()) => {}
        Err(RowFault::PastRange) => return Ok(Followed::Past),
        Err(RowFault::NoMemory) => return Err(OutOfMemory),
    }
    let at = given.len() + made.len() - 1;
    let row = row_at(given, made.as_slice(), at);
    if is_below(row) {
        return Ok(Followed::Below);
    }
    let first = row_at(given, made.as_slice(), sum.at);
    match divided_by(row, p, first, q, &given[i]).and_then(|by| divisor.checked_mul(by)) {
        Some(weight) => Ok(Followed::Sum(Partial { at, weight })),
        None => Ok(Followed::Past),
    }
}

/// Sums the rows with these multipliers, one after the other: the steps, where some sum is
/// `0 <= c` with negative c.
pub fn follow(
    alloc: Global,
    given: &[Row],
    multipliers: &[i128],
) -> Result<Option<Seq<Step>>, OutOfMemory>
    ensures { IfOk result (λ o. IfSome o (λ steps. Refutes (given_rows given.now) (plain_steps steps))) }
{
    let mut made = Vec::new(alloc);
    let mut sum = Followed::Past;
    for (i, by) in multipliers.iter().enumerate() {
        if *by == 0 || i >= given.len() {
            continue;
        }
        sum = match sum {
            Followed::Sum(partial) => more(alloc, given, &mut made, partial, *by, i)?,
            _ => Followed::Sum(Partial { at: i, weight: *by }),
        };
        match sum {
            Followed::Sum(_) => {}
            Followed::Below => return Ok(Some(steps_of(alloc, made.as_slice())?)),
            Followed::Past => return Ok(None),
        }
    }
    Ok(None)
}
