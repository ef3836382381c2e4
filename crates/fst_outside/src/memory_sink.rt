ghost use Rattle.std.specs.Prelude.{◌≡◌, ◌≢◌, ◌+◌, ◌<◌, ◌^◌, [], Some, IsSome, OnOk};
ghost use Rattle.fst_outside.specs.Outside.{IsOneMore};
ghost use Rattle.fst_outside.specs.Memory.{SinkState, kept_of, put_once, next_call, calls_told};

use crate::fault::PutFault;
use crate::sink::Sink;
use fst_base::Seq;
use std::alloc::Global;
use std::marker::Model;

/// A call of `put`, by its number from 0, that fails, and how many bytes it appends before.
#[derive(Clone, Copy, Debug, PartialEq, Eq)]
pub struct Fail {
    pub call: u64,
    pub kept: usize,
}

/// A text in memory. The listed calls fail; the first entry of a call counts.
#[derive(Drop)]
pub struct MemorySink {
    failing: Seq<Fail>,
    written: Seq<u8>,
    calls: u64,
    faults: u64,
}

impl Model for MemorySink {
    ghost use Rattle.std.specs.Prelude.{◌+◌, ◌<◌, ◌^◌};
    ghost use Rattle.fst_outside.specs.Memory.{SinkState};

    ghost Value = { SinkState };

    ghost view = { λ s. record { failing = s.failing; written = s.written; calls = s.calls; faults = s.faults } };

    ghost invariant = { λ s. s.faults + 1 < 2 ^ 64 };
}

/// Past these a fault counts as want of memory. No run gets there.
const MOST_FAULTS: u64 = u64::MAX - 1;

impl MemorySink {
    /// An empty text, which grows by `alloc`, and the calls that are to fail.
    pub fn new(alloc: Global, failing: Seq<Fail>) -> MemorySink
        ensures { result ≡ record { failing = failing; written = []; calls = 0; faults = 0 } }
    {
        MemorySink {
            failing,
            written: Seq::new(alloc),
            calls: 0,
            faults: 0,
        }
    }

    /// The text so far.
    pub fn written(&self) -> &Seq<u8>
        ensures { result.now ≡ self.now.written }
    {
        &self.written
    }
}

impl Sink for MemorySink {
    ghost written = { λ s. Some s.written };

    ghost calls = { λ s. calls_told s.calls };

    ghost faults = { λ s. s.faults };

    #[tactic(auto, using(crate::proofs::SinkLemmas::one_more))]
    fn put(&mut self, piece: &[u8]) -> Result<(), PutFault>
        ensures ok { OnOk result (kept_of self.old.failing self.old.calls ≡ None) }
        ensures failed { result ≡ Err PutFault.Failed → IsSome (kept_of self.old.failing self.old.calls) }
        ensures after { result ≢ Err PutFault.NoMemory → self.new ≡ put_once self.old piece.now }
        ensures no_memory { result ≡ Err PutFault.NoMemory → self.new ≡ record self.old { calls = next_call self.old.calls } }
        ensures below { self.new.faults + 1 < 2 ^ 64 }
        ensures counted { IsOneMore (calls_told self.old.calls) (calls_told self.new.calls) }
    {
        let call = self.calls;
        self.calls = call.saturating_add(1);
        match kept_of(self.failing.as_slice(), call) {
            None => {
                self.written.extend_from_slice(piece)?;
                Ok(())
            }
            Some(_) if self.faults == MOST_FAULTS => Err(PutFault::NoMemory),
            Some(kept) => {
                self.written
                    .extend_from_slice(&piece[..kept.min(piece.len())])?;
                self.faults += 1;
                Err(PutFault::Failed)
            }
        }
    }
}

fn kept_of(failing: &[Fail], call: u64) -> Option<usize>
    ensures { result ≡ kept_of failing.now call }
{
    for fail in failing {
        if fail.call == call {
            return Some(fail.kept);
        }
    }
    None
}
