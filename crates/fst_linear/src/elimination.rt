// Elimination after Fourier and Motzkin: the unknowns in the order of their numbers, all pairs of
// rows with opposite signs, each sum tightened.

ghost use Rattle.std.specs.Prelude.{◌≡◌, ◌+◌, ◌≤◌, ◌^◌, ◌<◌, suc, length, All, IfOk, MatchOption, []};
ghost use Rattle.fst_rows.specs.Plain.{plain_row};
ghost use Rattle.fst_terms.specs.Rows.{IsRow};
ghost use Rattle.fst_linear.specs.Refutations.{Refutes};
ghost use Rattle.fst_linear.specs.Steps.{plain_steps};
ghost use Rattle.fst_linear.specs.Answered.{Answered, IsShort};
ghost use Rattle.fst_linear.specs.Derivations.{Derives, given_rows, made_rows, made_steps, at};
ghost use Rattle.fst_linear.specs.Living.{Grows, Lives, Swept};
ghost use Rattle.fst_linear.specs.Lifts.{Lifts, LiftsOut, Starting};

use crate::answer::{LinearAnswer, Step};
use crate::derivation::Made;
use crate::pairs::is_below;
use crate::split::{least_unknown, split};
use crate::sweep::{Turn, note, sweep_all};
use fst_base::{OutOfMemory, Seq};
use fst_rows::Row;
use std::alloc::Global;

/// Eliminates one unknown: the live rows are those after it.
pub fn eliminate_one(
    alloc: Global,
    given: &[Row],
    made: &mut Vec<Made>,
    unknown: u32,
    live: &mut Vec<usize>,
) -> Result<Turn, OutOfMemory>
    requires derives { Derives (given_rows given.now) (made_rows made.old.items) (made_steps made.old.items) }
    requires lives { Lives given.now made.old.items unknown live.old.items }
    ensures derives { Derives (given_rows given.now) (made_rows made.new.items) (made_steps made.new.items) }
    ensures swept { IfOk result (λ t. Swept given.now made.new.items (LiftsOut given.now made.old.items made.new.items unknown live.old.items live.new.items) t) }
{
    let signs = split(alloc, given, made.as_slice(), unknown, live.as_slice())?;
    let mut after = signs.without;
    let turn = sweep_all(
        alloc,
        given,
        made,
        unknown,
        signs.ups.as_slice(),
        signs.downs.as_slice(),
        &mut after,
    )?;
    *live = after;
    Ok(turn)
}

/// The places of the given rows, or none where one of them is `0 <= c` with negative c.
pub fn start(alloc: Global, given: &[Row]) -> Result<Option<Vec<usize>>, OutOfMemory>
    ensures { IfOk result (λ o. MatchOption o (Refutes (given_rows given.now) []) (λ live. Starting given.now (length given.now) live.items)) }
{
    let mut live = Vec::new(alloc);
    for i in 0..given.len() {
        if is_below(&given[i]) {
            return Ok(None);
        }
        note(&mut live, i)?;
    }
    Ok(Some(live))
}

pub fn steps_of(alloc: Global, made: &[Made]) -> Result<Seq<Step>, OutOfMemory>
    ensures { IfOk result (λ steps. plain_steps steps ≡ made_steps made.now) }
{
    let mut steps = Seq::new(alloc);
    for one in made {
        steps.push(one.step)?;
    }
    Ok(steps)
}

/// Eliminates all unknowns of the rows, at whose places it starts.
pub fn eliminate(
    alloc: Global,
    given: &[Row],
    first: Vec<usize>,
) -> Result<LinearAnswer, OutOfMemory>
    requires ordered { All (λ r. IsRow (plain_row r)) given.now }
    requires starting { Starting given.now (length given.now) first.items }
    ensures answered { IfOk result (λ a. Answered (given_rows given.now) a) }
    ensures short { IfOk result (λ a. IsShort (given_rows given.now) a) }
{
    let mut live = first;
    let mut made = Vec::new(alloc);
    let mut from = 0;
    loop {
        let Some(unknown) = least_unknown(given, made.as_slice(), from, live.as_slice()) else {
            return Ok(LinearAnswer::NoCombination);
        };
        match eliminate_one(alloc, given, &mut made, unknown, &mut live)? {
            Turn::Done => {}
            Turn::Refuted => return Ok(LinearAnswer::Steps(steps_of(alloc, made.as_slice())?)),
            Turn::TooWide => return Ok(LinearAnswer::TooWide),
        }
        from = u64::from(unknown) + 1;
    }
}
