ghost use Rattle.std.specs.Prelude.{◌≡◌, ◌⊎◌};
ghost use Rattle.std.specs.Option.{option_copied};
ghost use Rattle.fst_outside.specs.Memory.{bytes_of, up_to};

use crate::fault::FetchFault;
use fst_base::{Name, Seq};
use std::alloc::Global;

/// A file in memory.
#[derive(Debug, Drop)]
pub struct File {
    pub name: Name,
    pub bytes: Seq<u8>,
}

/// The bytes of the first file of the name.
pub fn bytes_of<'a>(files: &'a [File], name: &str) -> Option<&'a Seq<u8>>
    ensures { option_copied result ≡ bytes_of files.now name.now }
{
    for file in files {
        if file.name.text() == name {
            return Some(&file.bytes);
        }
    }
    None
}

/// The bytes, where they are at most `limit`.
pub fn up_to(alloc: Global, limit: usize, bytes: &[u8]) -> Result<Seq<u8>, FetchFault>
    ensures { (result ≡ Err FetchFault.NoMemory) ⊎ (result ≡ up_to limit bytes.now) }
{
    if bytes.len() > limit {
        return Err(FetchFault::TooLong);
    }
    let copy = Seq::from_slice(alloc, bytes)?;
    Ok(copy)
}
