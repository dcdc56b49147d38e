//! Why a store is not made, and why a call stops.
ghost use Rattle.std.specs.Prelude.{◌≡◌};
ghost use Rattle.sdb_types.specs.Draws.{counted as next_number};
ghost use Rattle.sdb_store.specs.Store.{faults_after};
ghost use Rattle.sdb_sqlite.specs.Stopping.{stopped_by, stop_reply};
ghost use Rattle.sdb_sqlite.specs.declared.refused.Stopped.TheVariants.{NoMemory as StoppedNoMemory};

use sdb_types::{NoMemory, Reply};
use sqlite::{Error as SqlError, ErrorCode};
use thiserror::Error;

/// Why a store is not made.
#[derive(Clone, Copy, Debug, PartialEq, Eq, Error)]
pub enum KeptRefused {
    /// The database refused to make the table, and was not out of memory.
    #[error("the database refused to make the table")]
    Database,
    #[error("out of memory")]
    NoMemory,
}

/// Why a call stops before it has an answer.
#[derive(Clone, Copy)]
pub enum Stopped {
    /// The database refused a statement, and was not out of memory.
    Refused,
    /// A count or a length does not fit its field.
    Unfit,
    /// A scanned row has a key that is none, or one outside the span.
    Foreign,
    /// Two scanned rows have one key.
    Tied,
    NoMemory,
}

impl From<NoMemory> for Stopped {
    ghost from_gives = { λ _ stopped. stopped ≡ StoppedNoMemory };

    fn from(_e: NoMemory) -> Stopped {
        Stopped::NoMemory
    }
}

impl From<SqlError> for Stopped {
    ghost from_gives = { λ error stopped. stopped ≡ stopped_by error };

    fn from(error: SqlError) -> Stopped {
        match error {
            SqlError::SqliteFailure(ErrorCode::OutOfMemory) => Stopped::NoMemory,
            _ => Stopped::Refused,
        }
    }
}

/// One more, up to the greatest number of the count's type.
pub fn one_more(count: u64) -> u64
    ensures { result ≡ next_number count }
{
    count.saturating_add(1)
}

/// The reply to a call that stopped. A fault is counted, and nothing else.
pub fn stop(faults: &mut u64, stopped: Stopped) -> Reply
    ensures reply { result ≡ stop_reply stopped }
    ensures faults { faults.new ≡ faults_after result faults.old }
{
    match stopped {
        Stopped::NoMemory => Reply::NoMemory,
        Stopped::Refused | Stopped::Unfit | Stopped::Foreign | Stopped::Tied => {
            *faults = one_more(*faults);
            Reply::Fault
        }
    }
}
