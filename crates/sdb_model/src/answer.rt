//! Answers to statements.
ghost use Rattle.std.specs.Prelude.{◌≡◌, IfOk};

use sdb_types::{Duplicate, Key, NoMemory, Record, Seq, TxId, Values};

/// Rows that were selected: the values of the columns asked for.
pub type Rows = Seq<Values>;

/// Why a statement is refused: the number of the kind, and the place in the statement.
#[derive(Clone, Copy, Debug, PartialEq, Eq)]
pub struct Refusal {
    pub kind: u8,
    pub place: u32,
}

/// The answer to a statement.
#[derive(Debug, PartialEq, Eq)]
pub enum Answer {
    /// A SELECT was read.
    Rows(Rows),
    /// INSERT and UPSERT count 1, UPDATE and DELETE the rows matched, VACUUM the tombstones removed.
    Count(u64),
    /// BEGIN or ROLLBACK was accepted.
    Done,
    Committed,
    /// INSERT of a key that has a row; nothing changes.
    Duplicate(Key),
    /// A record of that transaction is undecided and not yet expired; it was prepared at that moment.
    Busy(Key, TxId, i64),
    /// The record found at that key, or none, isn't the committed version that was read.
    Conflict(Key, Option<Record>),
    /// Another client has aborted the transaction.
    Expired(TxId),
    /// A store failed; a COMMIT with this answer is not recorded.
    Faulted,
    /// It is not known whether the COMMIT is recorded.
    Unknown(TxId),
    /// The record found at that key isn't of the form of records.
    BadRecord(Key),
    Refused(Refusal),
    /// BEGIN while a VACUUM runs.
    Vacuuming,
    /// VACUUM while a transaction is open.
    OpenTransactions,
    NoMemory,
}

// By hand: each drop is then one call, where a derived one is written out at each exit, with a call for each field.
impl Drop for Answer {
    fn drop(self) {
        match self {
            Answer::Rows(_) => {}
            Answer::Count(_) => {}
            Answer::Done => {}
            Answer::Committed => {}
            Answer::Duplicate(_) => {}
            Answer::Busy(_, _, _) => {}
            Answer::Conflict(_, _) => {}
            Answer::Expired(_) => {}
            Answer::Faulted => {}
            Answer::Unknown(_) => {}
            Answer::BadRecord(_) => {}
            Answer::Refused(_) => {}
            Answer::Vacuuming => {}
            Answer::OpenTransactions => {}
            Answer::NoMemory => {}
        }
    }
}

impl Duplicate for Answer {
    fn copy(&self) -> Result<Answer, NoMemory> {
        match self {
            Answer::Rows(rows) => Ok(Answer::Rows(rows.copy()?)),
            Answer::Count(n) => Ok(Answer::Count(*n)),
            Answer::Done => Ok(Answer::Done),
            Answer::Committed => Ok(Answer::Committed),
            Answer::Duplicate(key) => Ok(Answer::Duplicate(key.copy()?)),
            Answer::Busy(key, id, at) => Ok(Answer::Busy(key.copy()?, *id, *at)),
            Answer::Conflict(key, found) => Ok(Answer::Conflict(key.copy()?, found.copy()?)),
            Answer::Expired(id) => Ok(Answer::Expired(*id)),
            Answer::Faulted => Ok(Answer::Faulted),
            Answer::Unknown(id) => Ok(Answer::Unknown(*id)),
            Answer::BadRecord(key) => Ok(Answer::BadRecord(key.copy()?)),
            Answer::Refused(refusal) => Ok(Answer::Refused(*refusal)),
            Answer::Vacuuming => Ok(Answer::Vacuuming),
            Answer::OpenTransactions => Ok(Answer::OpenTransactions),
            Answer::NoMemory => Ok(Answer::NoMemory),
        }
    }
}
