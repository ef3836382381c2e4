ghost use Rattle.std.specs.Prelude.{◌≡◌, ◌≢◌, ◌⊎◌, ◌+◌, ◌<◌, ◌^◌, [], Some, length};
ghost use Rattle.std.specs.Option.{option_copied};
ghost use Rattle.fst_outside.specs.Memory.{bytes_of, held_up_to, answer, fetched_once, ShelfState};

use crate::fault::FetchFault;
use crate::file::{File, bytes_of, up_to};
use crate::shelf::Shelf;
use fst_base::{Name, Seq};
use std::alloc::Global;
use std::marker::Model;

/// Files in memory. The fetches with the listed numbers, from 0, fail, as does that of a name that is not held.
#[derive(Drop)]
pub struct MemoryShelf {
    files: Seq<File>,
    failing: Seq<u64>,
    fetched: Seq<Name>,
    faults: u64,
}

impl Model for MemoryShelf {
    ghost use Rattle.std.specs.Prelude.{◌≤◌, length};
    ghost use Rattle.fst_outside.specs.Memory.{ShelfState};

    ghost Value = { ShelfState };

    ghost view = { λ s. record { files = s.files; failing = s.failing; fetched = s.fetched; faults = s.faults } };

    ghost invariant = { λ s. s.faults ≤ length s.fetched };
}

impl MemoryShelf {
    /// A shelf of these files. The list of names that it keeps grows by `alloc`.
    pub fn new(alloc: Global, files: Seq<File>, failing: Seq<u64>) -> MemoryShelf
        ensures { result ≡ record { files = files; failing = failing; fetched = []; faults = 0 } }
    {
        MemoryShelf {
            files,
            failing,
            fetched: Seq::new(alloc),
            faults: 0,
        }
    }

    /// The files that it holds.
    pub fn files(&self) -> &Seq<File>
        ensures { result.now ≡ self.now.files }
    {
        &self.files
    }

    fn answer(&self, alloc: Global, name: &str, limit: usize) -> Result<Seq<u8>, FetchFault>
        ensures { (result ≡ Err FetchFault.NoMemory) ⊎ (result ≡ answer self.now name.now limit) }
    {
        let number = number_of(self.fetched.as_slice());
        if self.failing.as_slice().contains(&number) {
            return Err(FetchFault::Failed);
        }
        held_up_to(alloc, limit, bytes_of(self.files.as_slice(), name))
    }
}

impl Shelf for MemoryShelf {
    ghost told = { λ s name. bytes_of s.files name };

    ghost bytes_read = { λ _. [] };

    ghost fetched = { λ s. Some s.fetched };

    ghost faults = { λ s. s.faults };

    fn fetch(&mut self, alloc: Global, name: &str, limit: usize) -> Result<Seq<u8>, FetchFault>
        ensures answer { (result ≡ Err FetchFault.NoMemory) ⊎ (result ≡ answer self.old name.now limit) }
        ensures after { result ≢ Err FetchFault.NoMemory → self.new ≡ fetched_once self.old name.now result }
        ensures no_memory { result ≡ Err FetchFault.NoMemory → self.new ≡ self.old }
        ensures below { self.new.faults + 1 < 2 ^ 64 }
    {
        let number = number_of(self.fetched.as_slice());
        let noted = Name::new(alloc, name)?;
        let answer = self.answer(alloc, name, limit);
        if let Err(FetchFault::NoMemory) = answer {
            return Err(FetchFault::NoMemory);
        }
        self.fetched.push(noted)?;
        if let Err(FetchFault::Failed) = answer {
            self.faults += 1;
        }
        answer
    }
}

/// The bytes of a file that is held, where they are at most `limit`.
fn held_up_to(alloc: Global, limit: usize, held: Option<&Seq<u8>>) -> Result<Seq<u8>, FetchFault>
    ensures { (result ≡ Err FetchFault.NoMemory) ⊎ (result ≡ held_up_to limit (option_copied held.entry)) }
{
    match held {
        Some(bytes) => up_to(alloc, limit, bytes.as_slice()),
        None => Err(FetchFault::Failed),
    }
}

/// The number of the fetch that follows those of these names.
fn number_of(fetched: &[Name]) -> u64
    ensures value { result ≡ length fetched.now }
    ensures small { result + 2 < 2 ^ 64 }
{
    fetched.len() as u64
}
