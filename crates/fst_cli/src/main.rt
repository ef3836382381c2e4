//! The program `fstar`: its words, real files and standard output for the top call.
#![tactic(auto)]

use fst_base::{Name, OutOfMemory, Seq};
use fst_outside::{FolderShelf, OutSink};
use fst_top::fstar;
use std::alloc::Global;
use std::env::{Env, FillError};
use std::io;
use std::io::ErrorKind;
use std::process::ExitCode;
use std::str::from_utf8;

/// The exit status where the words could not be made.
const NO_MEMORY: u8 = 10;

/// More bytes than the system gives to one word.
const LONGEST_WORD: usize = 1 << 24;

/// The word of this number; 0 is the program's name.
fn word<R: Env>(rt: &R, alloc: Global, index: usize) -> Result<Option<Name>, OutOfMemory> {
    let mut size: usize = 256;
    'sizes: while size <= LONGEST_WORD {
        let mut buffer = vec![in alloc; 0u8; size]?;
        match rt.arg(index, &mut buffer) {
            Ok(length) => return named(alloc, &buffer[..length]),
            Err(FillError::NotPresent) => return Ok(None),
            Err(FillError::TooLong) => size *= 2,
        }
    }
    Err(OutOfMemory)
}

/// A word as a name; one that isn't UTF-8 is made the empty word.
fn named(alloc: Global, bytes: &[u8]) -> Result<Option<Name>, OutOfMemory> {
    let text = from_utf8(bytes).unwrap_or("");
    let name = Name::new(alloc, text)?;
    Ok(Some(name))
}

/// The words behind the program's name.
fn words<R: Env>(rt: &R, alloc: Global) -> Result<Seq<Name>, OutOfMemory> {
    let mut words = Seq::new(alloc);
    for index in 1..usize::MAX {
        match word(rt, alloc, index)? {
            Some(word) => words.push(word)?,
            None => return Ok(words),
        }
    }
    Ok(words)
}

/// Why a file can't be read.
fn reason(error: Option<ErrorKind>) -> &'static str {
    match error {
        Some(ErrorKind::NotFound) => "there is no such file",
        Some(ErrorKind::PermissionDenied) => "permission is denied",
        Some(ErrorKind::IsADirectory) => "it is a folder",
        _ => "the system reports an error",
    }
}

/// A line on standard error that names the file which an answer speaks of, or tells where to read on. Standard output holds the
/// answer alone.
fn explain<R: Eprint>(
    rt: &R,
    status: u8,
    words: &Seq<Name>,
    error: Option<ErrorKind>,
) -> io::Result<()> {
    let file = words.get(1).map_or("", |word| word.text());
    match status {
        1 => eprintln!(rt; "fstar: a goal of {file} isn't proved"),
        2 => eprintln!(rt; "fstar: {file} is refused"),
        3 => eprintln!(rt; "fstar: see fstar --help"),
        7 => eprintln!(rt; "fstar: {file} can't be read: {}", reason(error)),
        8 => eprintln!(rt; "fstar: standard output can't be written"),
        10 => eprintln!(rt; "fstar: there isn't enough memory"),
        _ => Ok(()),
    }
}

fn main(rt: HostRuntime) -> ExitCode {
    let alloc = rt.alloc();
    match words(&rt, alloc) {
        Ok(words) => {
            let mut shelf = FolderShelf::new(alloc, &rt);
            let mut sink = OutSink::new(&rt);
            let status = fstar(alloc, &words, &mut shelf, &mut sink);
            // The answer stands on standard output already, so a line that can't be written is left out.
            let _ = explain(&rt, status, &words, shelf.last_error());
            ExitCode::from(status)
        }
        Err(OutOfMemory) => ExitCode::from(NO_MEMORY),
    }
}
