// Elimination among some of the rows: it keeps those to which a search gives a multiplier, after
// each unknown anew, so that their number doesn't grow. It can refute the rows or meet a wide
// combination, and it tells nothing where it does neither.

ghost use Rattle.std.specs.Prelude.{◌≡◌, ◌+◌, ◌<◌, length, All, Contains, IfOk, IfSome};
ghost use Rattle.fst_rows.specs.Plain.{plain_row};
ghost use Rattle.fst_terms.specs.Rows.{IsRow};
ghost use Rattle.fst_linear.specs.Answered.{Answered, IsShort};
ghost use Rattle.fst_linear.specs.Derivations.{given_rows};
ghost use Rattle.fst_linear.specs.Lifts.{Starting};

use crate::answer::LinearAnswer;
use crate::derivation::{Made, row_at};
use crate::elimination::{eliminate_one, steps_of};
use crate::pairs::coef;
use crate::search::{Found, search};
use crate::split::least_unknown;
use crate::sweep::{Turn, note};
use fst_base::{OutOfMemory, Seq};
use fst_rows::Row;
use std::alloc::Global;

/// About so many rows of each sign are kept where the search finds no multipliers.
const KEPT: usize = 12;

/// The rows at these places, as far as there are such.
pub fn rows_at<'a>(
    alloc: Global,
    given: &'a [Row],
    made: &'a [Made],
    live: &[usize],
) -> Result<Vec<&'a Row>, OutOfMemory> {
    let mut rows = Vec::with_capacity(alloc, live.len())?;
    for at in live {
        if *at < given.len() + made.len() {
            rows.push(row_at(given, made, *at))?;
        }
    }
    Ok(rows)
}

/// The rows with a multiplier.
fn with_multipliers(alloc: Global, multipliers: &[i128]) -> Result<Vec<bool>, OutOfMemory> {
    let mut marks = Vec::with_capacity(alloc, multipliers.len())?;
    for multiplier in multipliers {
        marks.push(*multiplier != 0)?;
    }
    Ok(marks)
}

/// The least of the rows' first unknowns.
fn first_unknown(rows: &[&Row]) -> u32 {
    let mut least = u32::MAX;
    for row in rows {
        if let Some(coef) = row.coefs.as_slice().first() {
            least = least.min(coef.unknown);
        }
    }
    least
}

/// 0 for a row without the unknown, 1 where its coefficient is negative and 2 where it is positive.
fn side(row: &Row, unknown: u32) -> usize
    ensures { result < 3 }
{
    let by = coef(row, unknown);
    if by == 0 {
        0
    } else if by < 0 {
        1
    } else {
        2
    }
}

/// Some rows of each sign of the first unknown, evenly chosen and others in each turn: sums of rows with little in common
/// grow fast, so that a wide one is met soon.
fn balanced(alloc: Global, rows: &[&Row], turn: usize) -> Result<Vec<bool>, OutOfMemory> {
    let unknown = first_unknown(rows);
    let mut counts = [0usize; 3];
    for row in rows {
        let at = side(row, unknown);
        counts[at] = counts[at].wrapping_add(1);
    }
    let mut seen = [0usize; 3];
    let mut marks = Vec::with_capacity(alloc, rows.len())?;
    for row in rows {
        let at = side(row, unknown);
        marks.push(seen[at].wrapping_add(turn) % (counts[at] / KEPT + 1) == 0)?;
        seen[at] = seen[at].wrapping_add(1);
    }
    Ok(marks)
}

/// The places that have a mark.
fn marked(alloc: Global, live: &[usize], marks: &[bool]) -> Result<Vec<usize>, OutOfMemory>
    ensures { IfOk result (λ v. All (Contains live.now) v.items) }
{
    let mut places = Vec::new(alloc);
    for (k, at) in live.iter().enumerate() {
        if !marks.get(k).copied().unwrap_or(false) {
            continue;
        }
        note(&mut places, *at)?;
    }
    Ok(places)
}

/// The places of the rows to go on with.
fn chosen(
    alloc: Global,
    given: &[Row],
    made: &[Made],
    live: &[usize],
    turn: usize,
) -> Result<Vec<usize>, OutOfMemory>
    ensures { IfOk result (λ v. All (Contains live.now) v.items) }
{
    let rows = rows_at(alloc, given, made, live)?;
    let marks = match search(alloc, rows.as_slice())? {
        Found::Multipliers(multipliers) => with_multipliers(alloc, multipliers.as_slice())?,
        _ => balanced(alloc, rows.as_slice(), turn)?,
    };
    marked(alloc, live, marks.as_slice())
}

/// Eliminates all unknowns of some of the rows, at whose places it starts; a turn takes others.
pub fn narrow(
    alloc: Global,
    given: &[Row],
    first: &[usize],
    turn: usize,
) -> Result<Option<LinearAnswer>, OutOfMemory>
    requires ordered { All (λ r. IsRow (plain_row r)) given.now }
    requires starting { Starting given.now (length given.now) first.now }
    ensures answered { IfOk result (λ o. IfSome o (Answered (given_rows given.now))) }
    ensures short { IfOk result (λ o. IfSome o (IsShort (given_rows given.now))) }
{
    let mut made = Vec::new(alloc);
    let mut from = 0;
    let mut live = chosen(alloc, given, made.as_slice(), first, turn)?;
    loop {
        let Some(unknown) = least_unknown(given, made.as_slice(), from, live.as_slice()) else {
            return Ok(None);
        };
        match eliminate_one(alloc, given, &mut made, unknown, &mut live)? {
            Turn::Done => {}
            Turn::Refuted => return Ok(Some(LinearAnswer::Steps(steps_of(
                alloc,
                made.as_slice(),
            )?))),
            Turn::TooWide => return Ok(Some(LinearAnswer::TooWide)),
        }
        from = u64::from(unknown) + 1;
        live = chosen(alloc, given, made.as_slice(), live.as_slice(), turn)?;
    }
}
