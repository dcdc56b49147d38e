//! Why a report is not read.
ghost use Rattle.std.specs.Prelude.{◌≡◌};
ghost use Rattle.sdb_report.specs.declared.refused.ReportRefused.TheVariants.{NoMemory as RefusedNoMemory};

use sdb_types::NoMemory;
use thiserror::Error;

/// Why a report is not read.
#[derive(Clone, Copy, Debug, PartialEq, Eq, Error)]
pub enum ReportRefused {
    /// The number of the first line, from 1, that no report has there.
    #[error("bad line {0}")]
    BadLine(u64),
    #[error("out of memory")]
    NoMemory,
}

impl From<NoMemory> for ReportRefused {
    ghost from_gives = { λ _ e. e ≡ RefusedNoMemory };

    fn from(_e: NoMemory) -> ReportRefused {
        ReportRefused::NoMemory
    }
}
