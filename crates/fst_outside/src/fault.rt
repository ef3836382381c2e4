ghost use Rattle.std.specs.Prelude.{◌≡◌};

use fst_base::OutOfMemory;
use thiserror::Error;

/// Why a fetch gave no bytes.
#[derive(Clone, Copy, Debug, PartialEq, Eq, Error)]
pub enum FetchFault {
    #[error("the fetch failed")]
    Failed,
    #[error("the file is too long")]
    TooLong,
    #[error("out of memory")]
    NoMemory,
}

/// Why a put did not take the piece.
#[derive(Clone, Copy, Debug, PartialEq, Eq, Error)]
pub enum PutFault {
    #[error("the put failed")]
    Failed,
    #[error("out of memory")]
    NoMemory,
}

impl From<OutOfMemory> for FetchFault {
    ghost use Rattle.fst_outside.specs.declared.fault.FetchFault.TheVariants.{NoMemory};

    ghost from_gives = { λ _ fault. fault ≡ NoMemory };

    fn from(_: OutOfMemory) -> FetchFault {
        FetchFault::NoMemory
    }
}

impl From<OutOfMemory> for PutFault {
    ghost use Rattle.fst_outside.specs.declared.fault.PutFault.TheVariants.{NoMemory};

    ghost from_gives = { λ _ fault. fault ≡ NoMemory };

    fn from(_: OutOfMemory) -> PutFault {
        PutFault::NoMemory
    }
}
