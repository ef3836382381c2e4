// Pairs of rows with opposite signs, of which one unknown is eliminated.

ghost use Rattle.std.specs.Prelude.{◌≡◌, ◌≢◌, ◌+◌, ◌<◌, true, not, pos, length, unsigned_abs, IfOk, MatchOption};
ghost use Rattle.fst_base.specs.Primitives.{in128};
ghost use Rattle.fst_rows.specs.Plain.{plain_row};
ghost use Rattle.fst_terms.specs.Rows.{IsBelow};
ghost use Rattle.fst_terms.specs.Elimination.{coef, least, share, AreOpposite};
ghost use Rattle.fst_linear.specs.Derivations.{Derives, given_rows, made_rows, made_steps, at};
ghost use Rattle.fst_linear.specs.Living.{Alive, AreShares, Grows, Paired, SharesWide};

use crate::derivation::{Made, add, row_at};
use fst_base::OutOfMemory;
use fst_rows::{Coef, Row, RowFault, gcd};
use std::alloc::Global;

/// What a pair of rows gives: a row of that number, a row `0 <= c` with negative c, or a wide sum.
#[derive(Clone, Copy, Debug)]
pub enum Pair {
    New(usize),
    Below,
    Wide,
}

/// The coefficient of the unknown, 0 where the row lacks it.
pub fn coef(row: &Row, unknown: u32) -> i128
    ensures { result ≡ coef (plain_row row.now) unknown }
{
    for coef in row.coefs.as_slice() {
        if coef.unknown == unknown {
            return coef.by;
        }
    }
    0
}

/// Whether the row is `0 <= c` with negative c.
pub fn is_below(row: &Row) -> bool
    ensures yes { result ≡ true → IsBelow (plain_row row.now) }
    ensures not { IsBelow (plain_row row.now) → result ≡ true }
{
    row.coefs.len() == 0 && row.constant < 0
}

fn magnitude(row: &Row, unknown: u32) -> u128
    ensures { result ≡ unsigned_abs (coef (plain_row row.now) unknown) }
{
    coef(row, unknown).unsigned_abs()
}

fn least(m: u128, n: u128) -> u128
    requires { 0 < n }
    ensures { result ≡ least m n }
{
    n / gcd(m, n)
}

/// The least multiplier of the first row that cancels the unknown against the second one.
fn share(first: &Row, second: &Row, unknown: u32) -> Option<i128>
    requires { coef (plain_row second.now) unknown ≢ pos 0 }
    ensures { MatchOption result (not (in128 (share unknown (plain_row first.now) (plain_row second.now))) ≡ true) (λ s. s ≡ share unknown (plain_row first.now) (plain_row second.now)) }
{
    let n = magnitude(second, unknown);
    let m = magnitude(first, unknown);
    match i128::try_from(least(m, n)) {
        Ok(share) => Some(share),
        Err(_) => None,
    }
}

/// The two multipliers that cancel the unknown.
fn shares(given: &[Row], made: &[Made], unknown: u32, i: usize, j: usize) -> Option<(i128, i128)>
    requires i { i < length given.now + length made.now }
    requires j { j < length given.now + length made.now }
    requires opposite { AreOpposite unknown (at given.now made.now i) (at given.now made.now j) }
    ensures { MatchOption result (SharesWide unknown (at given.now made.now i) (at given.now made.now j)) (λ s. AreShares unknown (at given.now made.now i) (at given.now made.now j) s.0 s.1) }
{
    let first = row_at(given, made, i);
    let second = row_at(given, made, j);
    match share(first, second, unknown) {
        Some(p) => match share(second, first, unknown) {
            Some(q) => Some((p, q)),
            None => None,
        },
        None => None,
    }
}

pub fn cancel(
    alloc: Global,
    given: &[Row],
    made: &mut Vec<Made>,
    unknown: u32,
    i: usize,
    j: usize,
) -> Result<Pair, OutOfMemory>
    requires derives { Derives (given_rows given.now) (made_rows made.old.items) (made_steps made.old.items) }
    requires i { i < length given.now + length made.old.items }
    requires j { j < length given.now + length made.old.items }
    requires first { Alive (given_rows given.now) unknown (at given.now made.old.items i) }
    requires second { Alive (given_rows given.now) unknown (at given.now made.old.items j) }
    requires opposite { AreOpposite unknown (at given.now made.old.items i) (at given.now made.old.items j) }
    ensures derives { Derives (given_rows given.now) (made_rows made.new.items) (made_steps made.new.items) }
    ensures grows { Grows given.now made.old.items made.new.items }
    ensures paired { IfOk result (λ o. Paired given.now made.old.items made.new.items unknown i j o) }
{
    let Some((p, q)) = shares(given, made.as_slice(), unknown, i, j) else {
        return Ok(Pair::Wide);
    };
    match add(alloc, given, made, p, i, q, j) {
        Ok(()) => {}
        Err(RowFault::PastRange) => return Ok(Pair::Wide),
        Err(RowFault::NoMemory) => return Err(OutOfMemory),
    }
    let k = given.len() + made.len() - 1;
    if is_below(row_at(given, made.as_slice(), k)) {
        return Ok(Pair::Below);
    }
    Ok(Pair::New(k))
}
