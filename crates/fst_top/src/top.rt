//! The top call.

ghost use Rattle.std.specs.Prelude.{◌≡◌, Some, IfOk};
ghost use Rattle.fst_outside.specs.Outside.{Rose, IsOneMore};
ghost use Rattle.fst_top.specs.Answers.{check, run, command_of};
ghost use Rattle.fst_top.specs.Help.{help_text, version_text};
ghost use Rattle.fst_top.specs.Outcomes.{Fetched, Given, Delivered};
ghost use Rattle.fst_top.specs.Promises.{Promises, given_by};
ghost use Rattle.fst_top.specs.Statuses.{number_of};

use crate::checking::check;
use crate::print;
use crate::running::run;
use crate::status::{Answer, Status};
use crate::words::{Command, command_of};
use fst_base::{Name, OutOfMemory, Rule, Seq};
use fst_outside::{FetchFault, PutFault, Shelf, Sink};
use std::alloc::Global;

/// The most bytes that a file has.
const LONGEST: usize = 1 << 20;

/// Does what the words say, which don't hold the program's name: fetches the file from the shelf, puts the text into the
/// sink in one call, and gives the exit status. Status 7 says that the fetch failed, 8 that the put failed, and 10 that
/// memory was wanted.
pub fn fstar<S: Shelf, K: Sink>(alloc: Global, words: &Seq<Name>, shelf: &mut S, sink: &mut K) -> u8
    ensures { Promises words.now (given_by (S.told shelf.old) (S.bytes_read shelf.new))
        (Rose (S.faults shelf.old) (S.faults shelf.new)) (Rose (K.faults sink.old) (K.faults sink.new))
        (S.fetched shelf.old) (S.fetched shelf.new) (K.written sink.old) (K.written sink.new) (K.calls sink.old) (K.calls sink.new)
        result }
{
    let status = match answer(alloc, words.as_slice(), shelf) {
        Ok(answer) => deliver(answer, sink),
        Err(OutOfMemory) => Status::NoMemory,
    };
    status.number()
}

/// Puts the text of an answer, and gives its status where that went well.
fn deliver<K: Sink>(answer: Answer, sink: &mut K) -> Status
    ensures put { Delivered (K.written sink.old) (K.written sink.new) (Rose (K.faults sink.old) (K.faults sink.new)) answer.text answer.status result }
    ensures counted { IsOneMore (K.calls sink.old) (K.calls sink.new) }
{
    match sink.put(answer.text.as_slice()) {
        Ok(()) => answer.status,
        Err(PutFault::Failed) => Status::WriteFault,
        Err(PutFault::NoMemory) => Status::NoMemory,
    }
}

/// The answer to the words.
fn answer<S: Shelf>(alloc: Global, words: &[Name], shelf: &mut S) -> Result<Answer, OutOfMemory>
    ensures given { IfOk result (λ a. Given (command_of words.now) (given_by (S.told shelf.old) (S.bytes_read shelf.new)) (Rose (S.faults shelf.old) (S.faults shelf.new)) (number_of a.status) a.text) }
    ensures fetched { Fetched (command_of words.now) (S.fetched shelf.old) (S.fetched shelf.new) }
{
    match command_of(words) {
        Some(Command::Help) => help(alloc),
        Some(Command::Version) => version(alloc),
        Some(Command::Check(file)) => check_file(alloc, file, shelf),
        Some(Command::Run(file, fuel, arguments)) => {
            run_file(alloc, file, fuel, arguments, shelf)
        }
        Some(Command::BadFuel) => Answer::refusal(alloc, Status::BadWords, Rule::BadFuel),
        None => Answer::refusal(alloc, Status::BadWords, Rule::BadWords),
    }
}

/// The answer of `check` on a file of the shelf.
fn check_file<S: Shelf>(alloc: Global, file: &str, shelf: &mut S) -> Result<Answer, OutOfMemory>
    ensures given { IfOk result (λ a. Given (Some (check file.now)) (given_by (S.told shelf.old) (S.bytes_read shelf.new)) (Rose (S.faults shelf.old) (S.faults shelf.new)) (number_of a.status) a.text) }
    ensures fetched { Fetched (Some (check file.now)) (S.fetched shelf.old) (S.fetched shelf.new) }
{
    match shelf.fetch(alloc, file, LONGEST) {
        Ok(bytes) => check(alloc, bytes.as_slice()),
        Err(FetchFault::Failed) => Answer::said(alloc, Status::ReadFault, b"read fault\n"),
        Err(FetchFault::TooLong) => Answer::refusal(alloc, Status::Refused, Rule::TooLong),
        Err(FetchFault::NoMemory) => Err(OutOfMemory),
    }
}

/// The answer of `run` on a file of the shelf.
fn run_file<S: Shelf>(
    alloc: Global,
    file: &str,
    fuel: u64,
    arguments: &[Name],
    shelf: &mut S,
) -> Result<Answer, OutOfMemory>
    ensures given { IfOk result (λ a. Given (Some (run file.now fuel arguments.now)) (given_by (S.told shelf.old) (S.bytes_read shelf.new)) (Rose (S.faults shelf.old) (S.faults shelf.new)) (number_of a.status) a.text) }
    ensures fetched { Fetched (Some (run file.now fuel arguments.now)) (S.fetched shelf.old) (S.fetched shelf.new) }
{
    match shelf.fetch(alloc, file, LONGEST) {
        Ok(bytes) => run(alloc, bytes.as_slice(), fuel, arguments),
        Err(FetchFault::Failed) => Answer::said(alloc, Status::ReadFault, b"read fault\n"),
        Err(FetchFault::TooLong) => Answer::refusal(alloc, Status::Refused, Rule::TooLong),
        Err(FetchFault::NoMemory) => Err(OutOfMemory),
    }
}

fn help(alloc: Global) -> Result<Answer, OutOfMemory>
    ensures { IfOk result (λ a. (a.status ≡ Status.Done) × (a.text ≡ help_text)) }
{
    let mut text = Seq::new(alloc);
    print::help(&mut text)?;
    Ok(Answer {
        status: Status::Done,
        text,
    })
}

fn version(alloc: Global) -> Result<Answer, OutOfMemory>
    ensures { IfOk result (λ a. (a.status ≡ Status.Done) × (a.text ≡ version_text)) }
{
    let mut text = Seq::new(alloc);
    print::version(&mut text)?;
    Ok(Answer {
        status: Status::Done,
        text,
    })
}
