//! Why bytes are not read.
ghost use Rattle.std.specs.Prelude.{◌≡◌};
ghost use Rattle.sdb_codec.specs.declared.refused.Stopped.TheVariants.{NoMemory as StoppedNoMemory};
ghost use Rattle.sdb_codec.specs.declared.refused.ReadRefused.TheVariants.{NoMemory as RefusedNoMemory};

use sdb_types::NoMemory;
use thiserror::Error;

/// Why a record or a key was not read.
#[derive(Clone, Copy, Debug, PartialEq, Eq, Error)]
pub enum ReadRefused {
    /// The offset of the first field that is cut off or isn't of its form, or of the first byte after the whole.
    #[error("bad bytes at {0}")]
    BadBytes(u64),
    #[error("out of memory")]
    NoMemory,
}

impl From<NoMemory> for ReadRefused {
    ghost from_gives = { λ _ e. e ≡ RefusedNoMemory };

    fn from(_e: NoMemory) -> ReadRefused {
        ReadRefused::NoMemory
    }
}

/// Why reading stopped.
#[derive(Clone, Copy, Debug, PartialEq, Eq)]
pub enum Stopped {
    /// A field is cut off or isn't of its form: how many bytes are left where it begins.
    Wrong(usize),
    NoMemory,
}

impl From<NoMemory> for Stopped {
    ghost from_gives = { λ _ e. e ≡ StoppedNoMemory };

    fn from(_e: NoMemory) -> Stopped {
        Stopped::NoMemory
    }
}
