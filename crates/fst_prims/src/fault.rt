ghost use Rattle.std.specs.Prelude.{◌≡◌};
ghost use Rattle.fst_prims.specs.declared.fault.PrimFault.TheVariants.{NoMemory};

use fst_base::OutOfMemory;
use thiserror::Error;

/// Why a primitive has no answer.
#[derive(Debug, Drop, Error)]
pub enum PrimFault {
    #[error("the result is past 128 bits")]
    PastRange,
    #[error("the divisor is zero")]
    ZeroDivisor,
    #[error("out of memory")]
    NoMemory,
}

impl From<OutOfMemory> for PrimFault {
    ghost from_gives = { λ _ fault. fault ≡ NoMemory };

    fn from(_: OutOfMemory) -> PrimFault {
        PrimFault::NoMemory
    }
}
