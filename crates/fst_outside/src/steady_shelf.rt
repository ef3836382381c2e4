ghost use Rattle.std.specs.Prelude.{◌≡◌, ◌≢◌, ◌⊎◌, ◌++◌, ◌∷◌, [], Some};
ghost use Rattle.fst_outside.specs.Memory.{bytes_or_none, up_to, SteadyState};

use crate::fault::FetchFault;
use crate::file::{File, bytes_of, up_to};
use crate::shelf::Shelf;
use fst_base::{Name, Seq};
use std::alloc::Global;
use std::marker::Model;

/// Files in memory, where a name that is not held tells the empty file. It never fails.
#[derive(Drop)]
pub struct SteadyShelf {
    files: Seq<File>,
    fetched: Seq<Name>,
}

impl Model for SteadyShelf {
    ghost use Rattle.fst_outside.specs.Memory.{SteadyState};

    ghost Value = { SteadyState };

    ghost view = { λ s. record { files = s.files; fetched = s.fetched } };
}

impl SteadyShelf {
    /// A shelf of these files. The list of names that it keeps grows by `alloc`.
    pub fn new(alloc: Global, files: Seq<File>) -> SteadyShelf
        ensures { result ≡ record { files = files; fetched = [] } }
    {
        SteadyShelf {
            files,
            fetched: Seq::new(alloc),
        }
    }

    fn answer(&self, alloc: Global, name: &str, limit: usize) -> Result<Seq<u8>, FetchFault>
        ensures { (result ≡ Err FetchFault.NoMemory) ⊎ (result ≡ up_to limit (bytes_or_none self.now.files name.now)) }
    {
        match bytes_of(self.files.as_slice(), name) {
            Some(bytes) => up_to(alloc, limit, bytes.as_slice()),
            None => up_to(alloc, limit, &[]),
        }
    }
}

impl Shelf for SteadyShelf {
    ghost told = { λ s name. Some (bytes_or_none s.files name) };

    ghost bytes_read = { λ _. [] };

    ghost fetched = { λ s. Some s.fetched };

    ghost faults = { λ _. 0 };

    fn fetch(&mut self, alloc: Global, name: &str, limit: usize) -> Result<Seq<u8>, FetchFault>
        ensures answer { (result ≡ Err FetchFault.NoMemory) ⊎ (result ≡ up_to limit (bytes_or_none self.old.files name.now)) }
        ensures after { result ≢ Err FetchFault.NoMemory → self.new ≡ record self.old { fetched = self.old.fetched ++ name.now ∷ [] } }
        ensures no_memory { result ≡ Err FetchFault.NoMemory → self.new ≡ self.old }
    {
        let noted = Name::new(alloc, name)?;
        let answer = self.answer(alloc, name, limit);
        if let Err(FetchFault::NoMemory) = answer {
            return Err(FetchFault::NoMemory);
        }
        self.fetched.push(noted)?;
        answer
    }
}
