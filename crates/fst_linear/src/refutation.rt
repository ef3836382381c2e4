ghost use Rattle.std.specs.Prelude.{All, IfOk};
ghost use Rattle.fst_rows.specs.Plain.{plain_row};
ghost use Rattle.fst_terms.specs.Rows.{IsRow};
ghost use Rattle.fst_linear.specs.Answered.{Answered, IsShort};
ghost use Rattle.fst_linear.specs.Derivations.{given_rows};

use crate::answer::LinearAnswer;
use crate::elimination::{eliminate, start};
use crate::follow::follow;
use crate::narrow::{narrow, rows_at};
use crate::search::{Found, search};
use crate::solution::solves;
use fst_base::{OutOfMemory, Seq};
use fst_rows::Row;
use std::alloc::Global;

/// So often elimination is tried among some of the rows.
const TURNS: usize = 12;

/// Steps that refute the rows, or that no natural multipliers sum them to a contradiction, or that
/// a combination of them is past 128 bits.
pub fn refute(alloc: Global, rows: &Seq<Row>) -> Result<LinearAnswer, OutOfMemory>
    requires { All (λ r. IsRow (plain_row r)) rows.now }
    ensures answered { IfOk result (λ a. Answered (given_rows rows.now) a) }
    ensures short { IfOk result (λ a. IsShort (given_rows rows.now) a) }
{
    let given = rows.as_slice();
    let Some(live) = start(alloc, given)? else {
        return Ok(LinearAnswer::Steps(Seq::new(alloc)));
    };
    let all = rows_at(alloc, given, &[], live.as_slice())?;
    match search(alloc, all.as_slice())? {
        Found::Values(scale, values) => {
            if scale > 0 && solves(given, scale, values.as_slice()) {
                return Ok(LinearAnswer::NoCombination);
            }
        }
        Found::Multipliers(multipliers) => {
            if let Some(steps) = follow(alloc, given, multipliers.as_slice())? {
                return Ok(LinearAnswer::Steps(steps));
            }
        }
        Found::Nothing => {}
    }
    for turn in 0..TURNS {
        if let Some(answer) = narrow(alloc, given, live.as_slice(), turn)? {
            return Ok(answer);
        }
    }
    eliminate(alloc, given, live)
}
