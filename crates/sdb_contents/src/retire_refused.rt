//! Why a store was not retired.
use sdb_types::{Key, NoMemory};
use thiserror::Error;

/// Why a store was not retired. It is still attached.
#[derive(Debug, Drop, Error)]
pub enum RetireRefused {
    /// A call failed.
    #[error("store fault")]
    StoreFault,
    /// A row that the catalog may not have, a record that can't be moved, or one that was written meanwhile.
    #[error("bad row")]
    BadRow(Key),
    #[error("out of memory")]
    NoMemory,
}

impl From<NoMemory> for RetireRefused {
    ghost use Rattle.std.specs.Prelude.{◌≡◌};
    ghost use Rattle.sdb_contents.specs.declared.retire_refused.RetireRefused.TheVariants.{NoMemory as OutOfMemory};

    ghost from_gives = { λ _ e. e ≡ OutOfMemory };

    fn from(_e: NoMemory) -> RetireRefused {
        RetireRefused::NoMemory
    }
}
