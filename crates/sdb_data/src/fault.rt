//! What rows are read for, and why a text has none.
ghost use Rattle.std.specs.Prelude.{◌≡◌};
ghost use Rattle.sdb_data.specs.declared.fault.CsvRefused.TheVariants.{NoMemory as OutOfMemory};

use sdb_types::NoMemory;
use thiserror::Error;

/// What becomes of each row that is read.
#[derive(Clone, Copy, Debug, PartialEq, Eq)]
pub enum Mode {
    Insert,
    /// Found by its key, so a text names another column too.
    Update,
    Upsert,
}

/// Why a record is refused. Of several faults the first in this order counts. Fields and columns of the primary key are counted from 1.
#[derive(Clone, Copy, Debug, PartialEq, Eq, Error)]
pub enum CsvFault {
    /// A field that isn't UTF-8.
    #[error("not UTF-8")]
    NotUtf8,
    /// Another number of fields than the header's.
    #[error("another number of fields")]
    Fields,
    /// A field of the header that is no column's name.
    #[error("no such column")]
    NoColumn(u64),
    /// A field of the header that an earlier one equals.
    #[error("repeated column")]
    RepeatedColumn(u64),
    /// A column of the primary key that the header lacks; 0 where it names the key alone and rows are to be updated.
    #[error("missing key")]
    MissingKey(u64),
    /// A field that says no value of its column.
    #[error("bad value")]
    BadValue(u64),
}

/// Why a text is refused.
#[derive(Clone, Copy, Debug, PartialEq, Eq, Error)]
pub enum CsvRefused {
    /// The number of the first record with a fault, the header's being 1, and its fault.
    #[error("bad CSV")]
    BadCsv(u64, CsvFault),
    #[error("out of memory")]
    NoMemory,
}

impl From<NoMemory> for CsvRefused {
    ghost from_gives = { λ _ e. e ≡ OutOfMemory };

    fn from(_e: NoMemory) -> CsvRefused {
        CsvRefused::NoMemory
    }
}
