//! Why a closing dump stopped.
ghost use Rattle.std.specs.Prelude.{◌≡◌};
ghost use Rattle.sdb_contents.specs.Refused.{Refuses};

use crate::CallRefused;
use sdb_types::{Duplicate, Key, NoMemory, Record};
use thiserror::Error;

/// Why a closing dump is refused.
#[derive(Debug, Drop, Error)]
pub enum ClosingRefused {
    /// A scan failed.
    #[error("store fault")]
    StoreFault,
    /// The record at this key breaks the rules of its table.
    #[error("bad record")]
    BadRecord(Key),
    #[error("out of memory")]
    NoMemory,
}

impl From<NoMemory> for ClosingRefused {
    ghost use Rattle.std.specs.Prelude.{◌≡◌};
    ghost use Rattle.sdb_contents.specs.declared.dump_refused.ClosingRefused.TheVariants.{NoMemory as OutOfMemory};

    ghost from_gives = { λ _ e. e ≡ OutOfMemory };

    fn from(_e: NoMemory) -> ClosingRefused {
        ClosingRefused::NoMemory
    }
}

impl From<CallRefused> for ClosingRefused {
    ghost use Rattle.std.specs.Prelude.{◌≡◌};
    ghost use Rattle.sdb_contents.specs.Refused.{of_call};

    ghost from_gives = { λ e refused. refused ≡ of_call e };

    fn from(e: CallRefused) -> ClosingRefused {
        match e {
            CallRefused::StoreFault => ClosingRefused::StoreFault,
            CallRefused::NoMemory => ClosingRefused::NoMemory,
        }
    }
}

/// The refusal of a record.
pub fn bad(rec: &Record) -> ClosingRefused
    ensures { Refuses (λ key. key ≡ rec.now.key) ⊥ result }
{
    match rec.key.copy() {
        Ok(key) => ClosingRefused::BadRecord(key),
        Err(NoMemory) => ClosingRefused::NoMemory,
    }
}
