//! Why a text is no script.
ghost use Rattle.std.specs.Prelude.{◌≡◌};
ghost use Rattle.sdb_script.specs.declared.fault.LineRefused.TheVariants.{NoMemory as OutOfMemory};

use sdb_loader::SchemaFault;
use sdb_model::Which;
use sdb_types::NoMemory;
use thiserror::Error;

/// What is wrong with a line.
#[derive(Debug, Drop, Error)]
pub enum LineFault {
    #[error("not UTF-8")]
    Text,
    /// No line that may come there.
    #[error("no line that may come there")]
    Form,
    /// A place in a store that isn't attached, or of a namespace that was placed before or holds the catalog.
    #[error("no place for a namespace")]
    Store,
    /// JSON that describes no catalog.
    #[error("no catalog")]
    Schema(SchemaFault),
    /// The script ends before `run`.
    #[error("no run")]
    Missing,
}

/// Why a line isn't accepted.
#[derive(Drop)]
pub enum LineRefused {
    Bad(LineFault),
    Limit(Which),
    NoMemory,
}

/// Why a text is refused: the number of the first line that may not come, from 1, and what is wrong with it, or which quantity
/// passes its limit there.
#[derive(Debug, Drop, Error)]
pub enum ScriptRefused {
    #[error("bad line {0}")]
    BadLine(u64, LineFault),
    #[error("too much at line {0}")]
    Limit(u64, Which),
    #[error("out of memory")]
    NoMemory,
}

impl From<NoMemory> for LineRefused {
    ghost from_gives = { λ _ e. e ≡ OutOfMemory };

    fn from(_e: NoMemory) -> LineRefused {
        LineRefused::NoMemory
    }
}
