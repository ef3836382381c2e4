// The sums of all pairs of rows with opposite signs.

ghost use Rattle.std.specs.Prelude.{◌≡◌, ◌+◌, ◌<◌, ◌<ℤ◌, pos, suc, ◌++◌, ◌∷◌, [], length, All, IfOk, OnOk};
ghost use Rattle.fst_terms.specs.Elimination.{coef};
ghost use Rattle.fst_linear.specs.Derivations.{Derives, given_rows, made_rows, made_steps, at};
ghost use Rattle.fst_linear.specs.Living.{Alive, Grows, Lives, Swept, Sweeps, SweepsAll};

use crate::derivation::Made;
use crate::pairs::{Pair, cancel};
use fst_base::OutOfMemory;
use fst_rows::Row;
use std::alloc::Global;

/// How an elimination ends.
#[derive(Clone, Copy, Debug)]
pub enum Turn {
    Done,
    Refuted,
    TooWide,
}

pub fn note(places: &mut Vec<usize>, place: usize) -> Result<(), OutOfMemory>
    ensures { OnOk result (places.new.items ≡ places.old.items ++ place ∷ []) }
{
    if places.push(place).is_err() {
        return Err(OutOfMemory);
    }
    Ok(())
}

/// Makes the sums of row i, which has the unknown with a positive coefficient, with each of the
/// rows that have it with a negative one.
fn sweep(
    alloc: Global,
    given: &[Row],
    made: &mut Vec<Made>,
    unknown: u32,
    i: usize,
    downs: &[usize],
    after: &mut Vec<usize>,
) -> Result<Turn, OutOfMemory>
    requires derives { Derives (given_rows given.now) (made_rows made.old.items) (made_steps made.old.items) }
    requires i { i < length given.now + length made.old.items }
    requires alive { Alive (given_rows given.now) unknown (at given.now made.old.items i) }
    requires up { pos 0 <ℤ coef (at given.now made.old.items i) unknown }
    requires lives { Lives given.now made.old.items unknown downs.now }
    requires downs { All (λ j. coef (at given.now made.old.items j) unknown <ℤ pos 0) downs.now }
    requires after { Lives given.now made.old.items (suc unknown) after.old.items }
    ensures derives { Derives (given_rows given.now) (made_rows made.new.items) (made_steps made.new.items) }
    ensures grows { Grows given.now made.old.items made.new.items }
    ensures swept { IfOk result (λ t. Swept given.now made.new.items (Sweeps given.now made.new.items unknown i downs.now (length downs.now) after.old.items after.new.items) t) }
{
    for j in downs {
        match cancel(alloc, given, made, unknown, i, *j)? {
            Pair::New(k) => {
                note(after, k)?;
            }
            Pair::Below => return Ok(Turn::Refuted),
            Pair::Wide => return Ok(Turn::TooWide),
        }
    }
    Ok(Turn::Done)
}

/// Makes the sums of all pairs of the rows that have the unknown with a positive coefficient and
/// those that have it with a negative one.
pub fn sweep_all(
    alloc: Global,
    given: &[Row],
    made: &mut Vec<Made>,
    unknown: u32,
    ups: &[usize],
    downs: &[usize],
    after: &mut Vec<usize>,
) -> Result<Turn, OutOfMemory>
    requires derives { Derives (given_rows given.now) (made_rows made.old.items) (made_steps made.old.items) }
    requires ups_live { Lives given.now made.old.items unknown ups.now }
    requires ups { All (λ i. pos 0 <ℤ coef (at given.now made.old.items i) unknown) ups.now }
    requires downs_live { Lives given.now made.old.items unknown downs.now }
    requires downs { All (λ j. coef (at given.now made.old.items j) unknown <ℤ pos 0) downs.now }
    requires after { Lives given.now made.old.items (suc unknown) after.old.items }
    ensures derives { Derives (given_rows given.now) (made_rows made.new.items) (made_steps made.new.items) }
    ensures grows { Grows given.now made.old.items made.new.items }
    ensures swept { IfOk result (λ t. Swept given.now made.new.items (SweepsAll given.now made.new.items unknown ups.now (length ups.now) downs.now after.old.items after.new.items) t) }
{
    for i in ups {
        match sweep(alloc, given, made, unknown, *i, downs, after)? {
            Turn::Done => {}
            Turn::Refuted => return Ok(Turn::Refuted),
            Turn::TooWide => return Ok(Turn::TooWide),
        }
    }
    Ok(Turn::Done)
}
