ghost use Rattle.std.specs.Prelude.{◌≡◌};

use fst_base::{OutOfMemory, Pos};

/// Why a run gives no value.
#[derive(Clone, Copy)]
pub(crate) enum Stop {
    /// A number leaves 128 bits.
    PastRange,
    /// A divisor is 0, or a match has no arm for its value.
    Stuck(Pos),
    NoMemory,
}

impl From<OutOfMemory> for Stop {
    ghost use Rattle.fst_machine.specs.declared.stop.Stop.TheVariants.{NoMemory};

    ghost from_gives = { λ _ stop. stop ≡ NoMemory };

    fn from(_: OutOfMemory) -> Stop {
        Stop::NoMemory
    }
}
