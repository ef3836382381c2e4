ghost use Rattle.std.specs.Prelude.{◌≡◌};
ghost use Rattle.fst_values.specs.declared.fault.ValueFault.TheVariants.{NoMemory};

use fst_base::OutOfMemory;
use thiserror::Error;

/// Why a text is not read as a value.
#[derive(Debug, Drop, Error)]
pub enum ValueFault {
    #[error("a number is past 128 bits")]
    NumberTooWide,
    #[error("not a value of the sort")]
    NotAValue,
    #[error("out of memory")]
    NoMemory,
}

impl From<OutOfMemory> for ValueFault {
    ghost from_gives = { λ _ fault. fault ≡ NoMemory };

    fn from(_: OutOfMemory) -> ValueFault {
        ValueFault::NoMemory
    }
}
