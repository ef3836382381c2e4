ghost use Rattle.std.specs.Prelude.{◌≡◌, ◌≢◌, ℕ, ◌≤◌, ◌<◌, List, Option, length, IfOk};
ghost use Rattle.fst_outside.specs.Outside.{Rose, with_name, bytes_given};

use crate::fault::FetchFault;
use fst_base::Seq;
use std::alloc::Global;

/// Where a file's bytes come from.
pub trait Shelf {
    /// The bytes of the file of a name, where the shelf tells them.
    ghost told: { Self → List ℕ → Option (List ℕ) };

    /// The bytes that the last fetch read, where the shelf tells none for its name.
    ghost bytes_read: { Self → List ℕ };

    /// The names that were fetched, where the shelf tells them.
    ghost fetched: { Self → Option (List (List ℕ)) };

    /// A count of faults.
    ghost faults: { Self → ℕ };

    /// The bytes of the file of this name, of at most `limit` bytes.
    fn fetch(&mut self, alloc: Global, name: &str, limit: usize) -> Result<Seq<u8>, FetchFault>
        ensures within { IfOk result (λ bytes. length bytes ≤ limit) }
        ensures bytes { IfOk result (λ bytes. bytes ≡ bytes_given (told self.old name.now) (bytes_read self.new)) }
        ensures failed { result ≡ Err FetchFault.Failed → Rose (faults self.old) (faults self.new) }
        ensures too_long { result ≡ Err FetchFault.TooLong → limit < length (bytes_given (told self.old name.now) (bytes_read self.new)) }

        ensures keeps { (other : List ℕ) → told self.new other ≡ told self.old other }
        ensures named { result ≢ Err FetchFault.NoMemory → fetched self.new ≡ with_name (fetched self.old) name.now }
        ensures unnamed { result ≡ Err FetchFault.NoMemory → fetched self.new ≡ fetched self.old }
        ensures never_falls { faults self.old ≤ faults self.new };
}
