ghost use Rattle.std.specs.Prelude.{◌≡◌, ◌≢◌, ◌<◌, ◌≤◌, [], None, IfOk, length};

use crate::fault::FetchFault;
use crate::shelf::Shelf;
use fst_base::Seq;
use std::alloc::Global;
use std::io::{ErrorKind, Read};
use std::marker::Model;
use std::rt::Files;
use std::{fs, io};

/// Real files, by their paths. It tells nothing of a file before it is fetched, and keeps the bytes of the last fetch; each error
/// of the system raises the count of faults, which stays at its last value.
#[derive(Drop)]
pub struct FolderShelf<'a, R> {
    rt: &'a R,
    last: Seq<u8>,
    error: Option<ErrorKind>,
    faults: u64,
}

impl<'a, R> Model for FolderShelf<'a, R> {
    ghost use Rattle.fst_outside.specs.Outside.{FolderState};

    ghost Value = { FolderState };

    ghost view = { λ s. record { bytes_read = s.last; faults = s.faults } };
}

impl<'a, R: Files> FolderShelf<'a, R> {
    /// The files that the runtime reaches.
    pub fn new(alloc: Global, rt: &'a R) -> FolderShelf<'a, R>
        ensures { result ≡ record { bytes_read = []; faults = 0 } }
    {
        FolderShelf {
            rt,
            last: Seq::new(alloc),
            error: None,
            faults: 0,
        }
    }

    /// The kind of the last error of the system; none where no fetch failed. For a line to the user: no clause speaks of it.
    pub fn last_error(&self) -> Option<ErrorKind> {
        self.error
    }

    // Keeps the bytes, and hands them out where they are within the limit.
    fn hand_out(
        &mut self,
        alloc: Global,
        bytes: Vec<u8>,
        limit: usize,
    ) -> Result<Seq<u8>, FetchFault>
        ensures bytes { IfOk result (λ given. (given ≡ self.new.bytes_read) × (length given ≤ limit)) }
        ensures too_long { result ≡ Err FetchFault.TooLong → limit < length self.new.bytes_read }
        ensures not_failed { result ≢ Err FetchFault.Failed }
        ensures faults { self.new.faults ≡ self.old.faults }
    {
        self.last = Seq::from_slice(alloc, &bytes)?;
        if bytes.len() > limit {
            return Err(FetchFault::TooLong);
        }
        Ok(Seq::from_vec(bytes))
    }
}

// At most one byte more than the limit is read.
fn read<R: Files>(rt: &R, alloc: Global, name: &str, limit: usize) -> io::Result<Vec<u8>> {
    let file = fs::open(rt, name)?;
    let mut bytes = Vec::new(alloc);
    let most = (limit as u64).saturating_add(1);
    file.take(most).read_to_end(&mut bytes)?;
    Ok(bytes)
}

impl<'a, R: Files> Shelf for FolderShelf<'a, R> {
    ghost told = { λ _ _. None };

    ghost bytes_read = { λ s. s.bytes_read };

    ghost fetched = { λ _. None };

    ghost faults = { λ s. s.faults };

    fn fetch(&mut self, alloc: Global, name: &str, limit: usize) -> Result<Seq<u8>, FetchFault> {
        match read(self.rt, alloc, name, limit) {
            Ok(bytes) => self.hand_out(alloc, bytes, limit),
            Err(error) => {
                self.faults = self.faults.saturating_add(1);
                self.error = Some(error.kind());
                Err(fault_of(&error))
            }
        }
    }
}

fn fault_of(error: &io::Error) -> FetchFault
    ensures { result ≢ FetchFault.TooLong }
{
    match error.kind() {
        ErrorKind::OutOfMemory => FetchFault::NoMemory,
        _ => FetchFault::Failed,
    }
}
