ghost use Rattle.std.specs.Prelude.{◌≡◌, ◌≢◌, ◌++◌, [], Some, OnOk};
ghost use Rattle.fst_outside.specs.Outside.{IsOneMore};
ghost use Rattle.fst_outside.specs.Memory.{SteadySinkState, next_call, calls_told};

use crate::fault::PutFault;
use crate::sink::Sink;
use fst_base::Seq;
use std::alloc::Global;
use std::marker::Model;

/// A text in memory. It never fails.
#[derive(Drop)]
pub struct SteadySink {
    written: Seq<u8>,
    calls: u64,
}

impl Model for SteadySink {
    ghost use Rattle.fst_outside.specs.Memory.{SteadySinkState};

    ghost Value = { SteadySinkState };

    ghost view = { λ s. record { written = s.written; calls = s.calls } };
}

impl SteadySink {
    /// An empty text, which grows by `alloc`.
    pub fn new(alloc: Global) -> SteadySink
        ensures { result ≡ record { written = []; calls = 0 } }
    {
        SteadySink {
            written: Seq::new(alloc),
            calls: 0,
        }
    }
}

impl Sink for SteadySink {
    ghost written = { λ s. Some s.written };

    ghost calls = { λ s. calls_told s.calls };

    ghost faults = { λ _. 0 };

    #[tactic(auto, using(crate::proofs::SinkLemmas::one_more))]
    fn put(&mut self, piece: &[u8]) -> Result<(), PutFault>
        ensures never_fails { result ≢ Err PutFault.Failed }
        ensures ok { OnOk result (self.new ≡ record { written = self.old.written ++ piece.now; calls = next_call self.old.calls }) }
        ensures no_memory { result ≡ Err PutFault.NoMemory → self.new ≡ record self.old { calls = next_call self.old.calls } }
        ensures counted { IsOneMore (calls_told self.old.calls) (calls_told self.new.calls) }
    {
        self.calls = self.calls.saturating_add(1);
        self.written.extend_from_slice(piece)?;
        Ok(())
    }
}
