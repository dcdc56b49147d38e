//! Why a table isn't exported.
ghost use Rattle.std.specs.Prelude.{◌≡◌};
ghost use Rattle.sdb_shell.specs.declared.export_refused.ExportRefused.TheVariants.{NoMemory as OutOfMemory};

use sdb_model::Answer;
use sdb_types::NoMemory;
use thiserror::Error;

/// Why a table isn't exported.
#[derive(Debug, Drop, Error)]
pub enum ExportRefused {
    /// A statement of its transaction got this answer, which isn't the one that is wanted.
    #[error("not committed")]
    NotCommitted(Answer),
    #[error("out of memory")]
    NoMemory,
}

impl From<NoMemory> for ExportRefused {
    ghost from_gives = { λ _ e. e ≡ OutOfMemory };

    fn from(_e: NoMemory) -> ExportRefused {
        ExportRefused::NoMemory
    }
}
