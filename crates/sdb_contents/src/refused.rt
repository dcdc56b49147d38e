//! Why a scan stopped.
use sdb_types::NoMemory;
use thiserror::Error;

/// Why a scan of a table stopped.
#[derive(Debug, Drop, Error)]
pub enum CallRefused {
    /// The call failed.
    #[error("store fault")]
    StoreFault,
    #[error("out of memory")]
    NoMemory,
}

impl From<NoMemory> for CallRefused {
    ghost use Rattle.std.specs.Prelude.{◌≡◌};
    ghost use Rattle.sdb_contents.specs.declared.refused.CallRefused.TheVariants.{NoMemory as OutOfMemory};

    ghost from_gives = { λ _ e. e ≡ OutOfMemory };

    fn from(_e: NoMemory) -> CallRefused {
        CallRefused::NoMemory
    }
}
