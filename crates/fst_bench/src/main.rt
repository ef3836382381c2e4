//! A program that makes an input of one kind and size and hands it to a library call again and again, so that its time can be told.
#![tactic(auto)]

mod congruence;
mod flats;
mod linear;
mod machine;
mod words;

use crate::congruence::closed;
use crate::flats::prepared;
use crate::linear::refuted;
use crate::machine::{counted, ticked};
use crate::words::{is_word, number};
use fst_base::OutOfMemory;
use std::alloc::Global;
use std::env::Env;
use std::process::ExitCode;

/// Which run of a library call the words ask for, and what it tells.
///
/// - `flats`, the number of hypotheses of a sequent, and how often its flat form is made: the number of its terms.
/// - `chain` or `grid`, the number of unknowns, and how often their closure is made: the number of its terms.
/// - `loop` or `state`, and the fuel of a run: 1 where it is out of fuel, as it has to be.
/// - `rows`, the number of rows, of unknowns (0 is a chain), the greatest coefficient, a seed, and how often the rows are refuted: the
///   last answer, where 0 is steps, 1 no combination, and 2 too wide.
fn told<R: Env>(rt: &R, alloc: Global) -> Result<usize, OutOfMemory> {
    let size = number(rt, 2);
    let times = number(rt, 3);
    if is_word(rt, 1, b"flats") {
        return prepared(alloc, size, times);
    }
    if is_word(rt, 1, b"chain") {
        return closed(alloc, false, size, times);
    }
    if is_word(rt, 1, b"grid") {
        return closed(alloc, true, size, times);
    }
    if is_word(rt, 1, b"loop") {
        return Ok(usize::from(counted(alloc, size)?));
    }
    if is_word(rt, 1, b"state") {
        return Ok(usize::from(ticked(alloc, size)?));
    }
    let most = number(rt, 4);
    let seed = number(rt, 5);
    Ok(usize::from(refuted(alloc, size, times, most, seed, number(rt, 6))?))
}

/// The first word is the kind of input. Prints what the run tells, or that memory is wanting.
fn main(rt: HostRuntime) -> ExitCode {
    match told(&rt, rt.alloc()) {
        Ok(number) => {
            let _ = println!(&rt; "{number}");
            ExitCode::SUCCESS
        }
        Err(OutOfMemory) => {
            let _ = println!(&rt; "no memory");
            ExitCode::FAILURE
        }
    }
}
