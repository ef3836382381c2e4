//! The program of a file.

ghost use Rattle.std.specs.Prelude.{◌≤◌, length, IfOk};
ghost use Rattle.fst_program.specs.Plain.{plain_program};
ghost use Rattle.fst_syntax.specs.Program.{IsProgram, IsRefused};
ghost use Rattle.fst_top.specs.Answers.{longest};
ghost use Rattle.fst_top.specs.Answering.{IsRead};

use crate::elaborate::{Stop, elaborate_program};
use crate::print;
use crate::status::{Answer, Status};
use crate::token_words::has_word;
use fst_base::{Fault, OutOfMemory, Pos, Rule, Seq};
use fst_program::Program;
use fst_reader::{RawDecl, read};
use std::alloc::Global;

/// The program of a file, or the answer where it is none of the first programs.
#[derive(Drop)]
pub enum Reading {
    Program(Program),
    Refused(Answer),
}

/// What is said of a file that isn't one of the first programs.
const NOT_BUILT: &[u8] = b"refused 0 NotBuilt\n";

/// The program that the bytes of a file are.
pub fn read_program(alloc: Global, text: &[u8]) -> Result<Reading, OutOfMemory>
    requires { length text.now ≤ longest }
    ensures { IfOk result (IsRead text.now) }
{
    match read(alloc, text) {
        Ok(program) => elaborate(alloc, text, &program.decls),
        Err(Fault::Refused(rule, at)) => refused(alloc, text, rule, at),
        Err(Fault::NoMemory) => Err(OutOfMemory),
    }
}

fn refused(alloc: Global, text: &[u8], rule: Rule, at: Pos) -> Result<Reading, OutOfMemory>
    requires short { length text.now ≤ longest }
    requires refused { IsRefused text.now rule at }
    ensures { IfOk result (IsRead text.now) }
{
    let mut printed = Seq::new(alloc);
    print::refusal(rule, at, text, &mut printed)?;
    Ok(Reading::Refused(Answer {
        status: Status::Refused,
        text: printed,
    }))
}

fn elaborate(alloc: Global, text: &[u8], decls: &Seq<RawDecl>) -> Result<Reading, OutOfMemory>
    requires short { length text.now ≤ longest }
    requires program { IsProgram text.now decls.now }
    ensures { IfOk result (IsRead text.now) }
{
    if has_word(text, "unfold") {
        return Ok(Reading::Refused(Answer::said(alloc, Status::Refused, NOT_BUILT)?));
    }
    match elaborate_program(alloc, decls.as_slice()) {
        Ok(program) => Ok(Reading::Program(program)),
        Err(Stop::NotBuilt) => Ok(Reading::Refused(Answer::said(
            alloc,
            Status::Refused,
            NOT_BUILT,
        )?)),
        Err(Stop::NoMemory) => Err(OutOfMemory),
    }
}
