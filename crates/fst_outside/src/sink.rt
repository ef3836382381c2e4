ghost use Rattle.std.specs.Prelude.{◌≡◌, ℕ, ◌≤◌, List, Option, take, OnOk};
ghost use Rattle.fst_outside.specs.Outside.{Rose, with_piece, IsOneMore};

use crate::fault::PutFault;

/// Where a text goes.
pub trait Sink {
    /// The bytes that were written, where the sink tells them.
    ghost written: { Self → Option (List ℕ) };

    /// The number of calls of `put`, where the sink tells it.
    ghost calls: { Self → Option ℕ };

    /// A count of faults.
    ghost faults: { Self → ℕ };

    /// Appends the piece. After `Failed` a prefix of it was appended, after `NoMemory` nothing.
    fn put(&mut self, piece: &[u8]) -> Result<(), PutFault>
        ensures ok { OnOk result (written self.new ≡ with_piece (written self.old) piece.now) }
        ensures failed { result ≡ Err PutFault.Failed → Rose (faults self.old) (faults self.new) }
        ensures prefix { result ≡ Err PutFault.Failed
            → (n : ℕ) × (written self.new ≡ with_piece (written self.old) (take n piece.now)) }
        ensures no_memory { result ≡ Err PutFault.NoMemory → written self.new ≡ written self.old }

        ensures counted { IsOneMore (calls self.old) (calls self.new) }
        ensures never_falls { faults self.old ≤ faults self.new };
}
