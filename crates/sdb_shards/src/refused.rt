//! Why a partition was not moved.
ghost use Rattle.std.specs.Prelude.{◌≡◌};
ghost use Rattle.sdb_shards.specs.declared.refused.MoveRefused.TheVariants.{NoMemory as OutOfMemory};

use sdb_types::{Key, NoMemory};
use thiserror::Error;

#[derive(Debug, Drop, Error)]
pub enum MoveRefused {
    #[error("no box has this number")]
    NoBox,
    #[error("a call of a box failed")]
    Fault,
    /// The key of a record that is in the way.
    #[error("a record is in the way")]
    Occupied(Key),
    #[error("out of memory")]
    NoMemory,
}

impl From<NoMemory> for MoveRefused {
    ghost from_gives = { λ _ e. e ≡ OutOfMemory };

    fn from(_e: NoMemory) -> MoveRefused {
        MoveRefused::NoMemory
    }
}
