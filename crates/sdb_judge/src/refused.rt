//! Why an input isn't judged.
ghost use Rattle.std.specs.Prelude.{◌≡◌};
ghost use Rattle.sdb_judge.specs.declared.refused.JudgeRefused.TheVariants.{NoMemory as RefusedNoMemory};

use sdb_script::ScriptRefused;
use sdb_types::NoMemory;
use thiserror::Error;

/// Why an input isn't judged.
#[derive(Debug, Drop, Error)]
pub enum JudgeRefused {
    /// What comes before the report is no script.
    #[error("no script")]
    NoScript(ScriptRefused),
    /// What comes after the script is no report: the first line, from 1, that no report has there.
    #[error("no report: bad line {0}")]
    NoReport(u64),
    #[error("out of memory")]
    NoMemory,
}

impl From<NoMemory> for JudgeRefused {
    ghost from_gives = { λ _ e. e ≡ RefusedNoMemory };

    fn from(_e: NoMemory) -> JudgeRefused {
        JudgeRefused::NoMemory
    }
}
