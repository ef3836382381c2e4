ghost use Rattle.std.specs.Prelude.{◌≡◌};

use fst_base::OutOfMemory;

/// Why a tree gives no program.
#[derive(Clone, Copy, Debug, PartialEq, Eq)]
pub enum Stop {
    /// It holds something that isn't built, a name isn't in scope or is declared twice, or a term doesn't fit its sort.
    NotBuilt,
    NoMemory,
}

impl From<OutOfMemory> for Stop {
    ghost use Rattle.fst_top.specs.declared.elaborate.stop.Stop.TheVariants.{NoMemory};

    ghost from_gives = { λ _ e. e ≡ NoMemory };

    fn from(_: OutOfMemory) -> Stop {
        Stop::NoMemory
    }
}
