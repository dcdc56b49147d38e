//! Why a report is not drawn.
ghost use Rattle.std.specs.Prelude.{◌≡◌};
ghost use Rattle.sdb_picture.specs.declared.refused.PictureRefused.TheVariants.{NoMemory as RefusedNoMemory};

use sdb_types::NoMemory;
use thiserror::Error;

/// Why a report is not drawn.
#[derive(Clone, Copy, Debug, PartialEq, Eq, Error)]
pub enum PictureRefused {
    /// The number of the first line, from 1, that no report has there.
    #[error("bad report at {0}")]
    BadReport(u64),
    /// The report has more than 1,000 events.
    #[error("too many events")]
    TooManyEvents,
    #[error("out of memory")]
    NoMemory,
}

impl From<NoMemory> for PictureRefused {
    ghost from_gives = { λ _ e. e ≡ RefusedNoMemory };

    fn from(_e: NoMemory) -> PictureRefused {
        PictureRefused::NoMemory
    }
}
