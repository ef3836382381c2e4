// Rows that steps make from given ones.

ghost use Rattle.std.specs.Prelude.{◌≡◌, ◌≢◌, ◌+◌, ◌<◌, ◌≤ℤ◌, ◌++◌, ◌∷◌, [], true, pos, length, OnOk, OnErr, IfOk};
ghost use Rattle.fst_rows.specs.Plain.{plain_row};
ghost use Rattle.fst_terms.specs.Rows.{combined, is_wide};
ghost use Rattle.fst_linear.specs.Derivations.{Derives, given_rows, made_rows, made_steps, at};

use crate::answer::Step;
use fst_rows::{Row, RowFault, combine};
use std::alloc::Global;

/// A row with the step that makes it.
#[derive(Debug, Drop)]
pub struct Made {
    pub row: Row,
    pub step: Step,
}

/// A row of the given ones, or of those made after them.
pub fn row_at<'a>(given: &'a [Row], made: &'a [Made], i: usize) -> &'a Row
    requires { i < length given.now + length made.now }
    ensures { plain_row result.now ≡ at given.now made.now i }
{
    if i < given.len() {
        &given[i]
    } else {
        &made[i - given.len()].row
    }
}

/// One more step.
pub fn add(
    alloc: Global,
    given: &[Row],
    made: &mut Vec<Made>,
    p: i128,
    i: usize,
    q: i128,
    j: usize,
) -> Result<(), RowFault>
    requires derives { Derives (given_rows given.now) (made_rows made.old.items) (made_steps made.old.items) }
    requires p { pos 1 ≤ℤ p }
    requires i { i < length given.now + length made.old.items }
    requires q { pos 1 ≤ℤ q }
    requires j { j < length given.now + length made.old.items }
    ensures derives { Derives (given_rows given.now) (made_rows made.new.items) (made_steps made.new.items) }
    ensures ok { OnOk result (made_rows made.new.items ≡ made_rows made.old.items ++ combined p (at given.now made.old.items i) q (at given.now made.old.items j) ∷ []) }
    ensures past { result ≡ Err RowFault.PastRange → is_wide p (at given.now made.old.items i) q (at given.now made.old.items j) ≡ true }
    ensures err { OnErr result (made.new.items ≡ made.old.items) }
{
    let Ok(first) = u32::try_from(i + 1) else {
        return Err(RowFault::NoMemory);
    };
    let Ok(second) = u32::try_from(j + 1) else {
        return Err(RowFault::NoMemory);
    };
    let row = combine(
        alloc,
        p,
        row_at(given, made.as_slice(), i),
        q,
        row_at(given, made.as_slice(), j),
    )?;
    put(
        made,
        row,
        Step {
            p,
            i: first,
            q,
            j: second,
        },
    )
}

fn put(made: &mut Vec<Made>, row: Row, step: Step) -> Result<(), RowFault>
    ensures ok { OnOk result (made.new.items ≡ made.old.items ++ (record { row = row; step = step }) ∷ []) }
    ensures err { OnErr result (made.new.items ≡ made.old.items) }
    ensures past { result ≢ Err RowFault.PastRange }
{
    if made.push(Made { row, step }).is_err() {
        return Err(RowFault::NoMemory);
    }
    Ok(())
}
