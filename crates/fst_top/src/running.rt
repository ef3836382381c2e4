//! The answer of `run` over the bytes of a file.

ghost use Rattle.std.specs.Prelude.{◌≡◌, ◌≤◌, ◌<◌, ◌^◌, Some, map, length, IfOk, IsTrue};
ghost use Rattle.fst_base.specs.Values.{plain_value, v_unit};
ghost use Rattle.fst_code.specs.Plain.{plain_code};
ghost use Rattle.fst_code.specs.Sound.{is_sound};
ghost use Rattle.fst_machine.specs.CodeRuns.{code_run};
ghost use Rattle.fst_program.specs.Entry.{main_of};
ghost use Rattle.fst_program.specs.Erasure.{erased_run};
ghost use Rattle.fst_program.specs.Plain.{plain_fun, plain_program};
ghost use Rattle.fst_program.specs.Texts.{fun_at};
ghost use Rattle.fst_top.specs.Built.{IsBuilt};
ghost use Rattle.fst_top.specs.Answers.{Reads, longest};
ghost use Rattle.fst_top.specs.Answering.{IsRunAnswer, IsProvedRun, IsEnd};
ghost use Rattle.fst_top.specs.First.{IsFirst, RunGives};
ghost use Rattle.fst_top.specs.Printed.{bad_argument_text, value_text};

use crate::arguments::{Arguments, read_arguments};
use crate::judging::{Judged, judge_program};
use crate::print;
use crate::reading::{Reading, read_program};
use crate::status::{Answer, Status};
use fst_base::{Name, OutOfMemory, Rule, Seq, Value};
use fst_code::Code;
use fst_erase::erase;
use fst_machine::{Answer as Run, Machine};
use fst_program::{Fun, Program};
use std::alloc::Global;

/// The answer over the bytes of a file: main is run on the values of the words, once every goal is proved.
pub fn run(alloc: Global, text: &[u8], fuel: u64, words: &[Name]) -> Result<Answer, OutOfMemory>
    requires { length text.now ≤ longest }
    ensures { IfOk result (IsRunAnswer text.now fuel words.now) }
{
    match read_program(alloc, text)? {
        Reading::Program(program) => run_program(alloc, text, &program, fuel, words),
        Reading::Refused(answer) => Ok(answer),
    }
}

fn run_program(
    alloc: Global,
    text: &[u8],
    program: &Program,
    fuel: u64,
    words: &[Name],
) -> Result<Answer, OutOfMemory>
    requires short { length text.now ≤ longest }
    requires reads { Reads text.now (plain_program program.now) }
    requires built { IsBuilt (plain_program program.now) }
    requires few { length program.now.funs ≤ 1000 }
    ensures { IfOk result (IsRunAnswer text.now fuel words.now) }
{
    match program.main() {
        Some(main) => run_main(alloc, text, program, main, fuel, words),
        None => Answer::refusal(alloc, Status::BadWords, Rule::NoMain),
    }
}

fn run_main(
    alloc: Global,
    text: &[u8],
    program: &Program,
    main: u32,
    fuel: u64,
    words: &[Name],
) -> Result<Answer, OutOfMemory>
    requires short { length text.now ≤ longest }
    requires reads { Reads text.now (plain_program program.now) }
    requires built { IsBuilt (plain_program program.now) }
    requires few { length program.now.funs ≤ 1000 }
    requires main { main_of (plain_program program.now) ≡ Some main }
    ensures { IfOk result (IsRunAnswer text.now fuel words.now) }
{
    let fun = main_function(program, main);
    match read_arguments(alloc, fun.params.as_slice(), words)? {
        Arguments::Values(values) => prove_and_run(alloc, text, program, main, fuel, &values),
        Arguments::Bad(word) => bad_argument(alloc, word),
    }
}

fn main_function(program: &Program, main: u32) -> &Fun
    requires { main_of (plain_program program.now) ≡ Some main }
    ensures { fun_at (plain_program program.now) main ≡ Some (plain_fun result.now) }
{
    let Some(fun) = program.funs.get(main as usize) else {
        unreachable!();
    };
    fun
}

/// Runs main only where every goal is valid.
fn prove_and_run(
    alloc: Global,
    text: &[u8],
    program: &Program,
    main: u32,
    fuel: u64,
    values: &Seq<Value>,
) -> Result<Answer, OutOfMemory>
    requires short { length text.now ≤ longest }
    requires built { IsBuilt (plain_program program.now) }
    requires few { length program.now.funs ≤ 1000 }
    requires main { main_of (plain_program program.now) ≡ Some main }
    ensures { IfOk result (IsProvedRun text.now (plain_program program.now) main fuel (map plain_value values.now)) }
{
    match judge_program(alloc, text, program)? {
        Judged::Valid(_) => run_erased(alloc, program, main, fuel, values),
        Judged::No(printed) => Ok(Answer {
            status: Status::NotProved,
            text: printed,
        }),
    }
}

/// The answer of main's run on these values.
fn run_erased(
    alloc: Global,
    program: &Program,
    main: u32,
    fuel: u64,
    values: &Seq<Value>,
) -> Result<Answer, OutOfMemory>
    requires built { IsBuilt (plain_program program.now) }
    requires main { main_of (plain_program program.now) ≡ Some main }
    ensures { IfOk result (IsEnd (erased_run (plain_program program.now) main fuel (map plain_value values.now) v_unit)) }
{
    let code = erase(alloc, program)?;
    match result_of(alloc, &code, main, fuel, values)? {
        Some(value) => done(alloc, &value),
        None => Answer::said(alloc, Status::OutOfFuel, b"out of fuel\n"),
    }
}

/// The result of the function's run, where the fuel ends it. Code of the first programs is never stuck, and meets no number past
/// 128 bits.
fn result_of(
    alloc: Global,
    code: &Code,
    main: u32,
    fuel: u64,
    values: &Seq<Value>,
) -> Result<Option<Value>, OutOfMemory>
    requires first { IsFirst (plain_code code.now) main }
    requires sound { IsTrue (is_sound (plain_code code.now)) }
    ensures { IfOk result (RunGives (code_run (plain_code code.now) main fuel (map plain_value values.now) v_unit)) }
{
    let mut machine = Machine::new(alloc, code, main, values, None)?;
    match machine.run(alloc, fuel) {
        Run::Done(value) => Ok(Some(value)),
        Run::OutOfFuel => Ok(None),
        Run::NoMemory => Err(OutOfMemory),
        Run::PastRange => unreachable!(),
        Run::Stuck(_) => unreachable!(),
    }
}

fn done(alloc: Global, value: &Value) -> Result<Answer, OutOfMemory>
    ensures { IfOk result (λ a. (a.status ≡ Status.Done) × (a.text ≡ value_text (plain_value value.now))) }
{
    let mut text = Seq::new(alloc);
    print::value(value, &mut text)?;
    Ok(Answer {
        status: Status::Done,
        text,
    })
}

fn bad_argument(alloc: Global, word: u128) -> Result<Answer, OutOfMemory>
    requires { word < 2 ^ 127 }
    ensures { IfOk result (λ a. (a.status ≡ Status.BadWords) × (a.text ≡ bad_argument_text word)) }
{
    let mut text = Seq::new(alloc);
    print::bad_argument(word, &mut text)?;
    Ok(Answer {
        status: Status::BadWords,
        text,
    })
}
