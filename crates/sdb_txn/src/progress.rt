//! What becomes of a call of a transaction.
ghost use Rattle.std.specs.Prelude.{◌≡◌};
ghost use Rattle.sdb_txn.specs.Txn.{progress_of};

use sdb_phases::Outcome;
use sdb_record::Images;
use sdb_types::{Key, Record, TxId};

#[derive(Debug, Drop, PartialEq, Eq)]
pub enum Progress {
    /// A call is pending.
    More,
    /// The rows that the transaction sees where it has read, in the order of their keys.
    Rows(Images),
    /// The record at this key is unresolved, and its transaction may still decide: its id, and when it prepared the record.
    Busy(Key, TxId, i64),
    Faulted,
    /// The record or the coordinator row at this key isn't well formed.
    BadRecord(Key),
    NoMemory,
    /// A key that was read is no longer what was read, with what is there.
    Conflict(Key, Option<Record>),
    Committed,
    /// Another has put the transaction's row ABORTED.
    Expired(TxId),
    /// Whether the transaction is committed is not known.
    Unknown(TxId),
}

/// What the answer of a COMMIT is returned as; another call is pending where there is none yet.
pub fn answered(answer: Option<Outcome>) -> Progress
    ensures { result ≡ progress_of answer }
{
    match answer {
        None => Progress::More,
        Some(Outcome::Committed) => Progress::Committed,
        Some(Outcome::Conflict(key, found)) => Progress::Conflict(key, found),
        Some(Outcome::Expired(id)) => Progress::Expired(id),
        Some(Outcome::Faulted) => Progress::Faulted,
        Some(Outcome::Unknown(id)) => Progress::Unknown(id),
        Some(Outcome::BadRecord(key)) => Progress::BadRecord(key),
        Some(Outcome::NoMemory) => Progress::NoMemory,
    }
}
