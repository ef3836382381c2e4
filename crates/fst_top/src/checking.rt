//! The answer of `check` over the bytes of a file.

ghost use Rattle.std.specs.Prelude.{◌≡◌, ◌≤◌, ◌<◌, ◌^◌, length, IfOk};
ghost use Rattle.fst_program.specs.Plain.{plain_program};
ghost use Rattle.fst_program.specs.Paths.{goals_of};
ghost use Rattle.fst_top.specs.Built.{IsBuilt};
ghost use Rattle.fst_top.specs.Answers.{Reads, longest};
ghost use Rattle.fst_top.specs.Answering.{IsAnswer};
ghost use Rattle.fst_top.specs.Printed.{yes_text};

use crate::judging::{Judged, judge_program};
use crate::print;
use crate::reading::{Reading, read_program};
use crate::status::{Answer, Status};
use fst_base::{OutOfMemory, Seq};
use fst_program::Program;
use std::alloc::Global;

/// The answer over the bytes of a file.
pub fn check(alloc: Global, text: &[u8]) -> Result<Answer, OutOfMemory>
    requires { length text.now ≤ longest }
    ensures { IfOk result (IsAnswer text.now) }
{
    match read_program(alloc, text)? {
        Reading::Program(program) => check_program(alloc, text, &program),
        Reading::Refused(answer) => Ok(answer),
    }
}

fn check_program(alloc: Global, text: &[u8], program: &Program) -> Result<Answer, OutOfMemory>
    requires short { length text.now ≤ longest }
    requires reads { Reads text.now (plain_program program.now) }
    requires built { IsBuilt (plain_program program.now) }
    requires few { length program.now.funs ≤ 1000 }
    ensures { IfOk result (IsAnswer text.now) }
{
    match judge_program(alloc, text, program)? {
        Judged::Valid(goals) => yes(alloc, program, goals),
        Judged::No(printed) => Ok(Answer {
            status: Status::NotProved,
            text: printed,
        }),
    }
}

fn yes(alloc: Global, program: &Program, goals: u128) -> Result<Answer, OutOfMemory>
    requires goals { goals ≡ length (goals_of (plain_program program.now)) }
    requires bound { goals < 2 ^ 127 }
    ensures { IfOk result (λ answer. (answer.status ≡ Status.Done) × (answer.text ≡ yes_text (plain_program program.now))) }
{
    let mut printed = Seq::new(alloc);
    print::yes(program, goals, &mut printed)?;
    Ok(Answer {
        status: Status::Done,
        text: printed,
    })
}
