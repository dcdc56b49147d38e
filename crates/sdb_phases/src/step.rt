//! The stages of the phases, and what a step gives.
use sdb_types::{Key, Record, TxId};

/// What a COMMIT answers.
#[derive(Debug, Drop, PartialEq, Eq)]
pub enum Outcome {
    Committed,
    /// A key that was read is no longer what was read, with what is there.
    Conflict(Key, Option<Record>),
    /// Another has put the transaction's row ABORTED.
    Expired(TxId),
    Faulted,
    /// Whether the transaction is committed is not known.
    Unknown(TxId),
    /// The coordinator row at this key isn't well formed.
    BadRecord(Key),
    NoMemory,
}

/// What became of a prepare.
#[derive(Debug, Drop, PartialEq, Eq)]
pub enum PrepareStep {
    /// Another prepare is pending.
    More,
    /// Every write is prepared.
    Done,
    Conflict(Key, Option<Record>),
    Faulted,
    NoMemory,
}

/// What became of a check.
#[derive(Debug, Drop, PartialEq, Eq)]
pub enum ValidateStep {
    /// Another check is pending.
    More,
    /// Every check has passed.
    Valid,
    Conflict(Key, Option<Record>),
    Faulted,
    NoMemory,
}

/// The call at which a decision is.
#[derive(Clone, Copy)]
pub enum DecidePhase {
    /// The put of the row COMMITTED.
    Put,
    /// The look for the row.
    Look,
    /// The put of the row ABORTED.
    Abort,
    /// The second look.
    Again,
    Ended,
}

/// What became of a call of the decision.
#[derive(Debug, Drop, PartialEq, Eq)]
pub enum DecideStep {
    /// Another call is pending.
    More,
    Committed,
    Expired(TxId),
    Faulted,
    Unknown(TxId),
    BadRecord(Key),
    NoMemory,
}

/// The call at which an abort is.
#[derive(Clone, Copy)]
pub enum AbortPhase {
    /// It wasn't started.
    Idle,
    /// The put of the row ABORTED.
    Row,
    /// The roll backs.
    Rolling,
}

/// The call at which a recovery is.
#[derive(Clone, Copy)]
pub enum RecoverPhase {
    /// The look for the row.
    Look,
    /// The put of the row ABORTED, made at this moment.
    Abort(i64),
    /// The second look.
    Again,
    /// The roll forward, committed at this moment.
    Forward(i64),
    /// The roll back.
    Back,
    Ended,
}

/// What became of a call of a recovery.
#[derive(Debug, Drop, PartialEq, Eq)]
pub enum RecoverStep {
    /// Another call is pending.
    More,
    /// The committed record that the record means, or none.
    Image(Option<Record>),
    /// The record's transaction may still decide: its id, and when it prepared the record.
    Busy(TxId, i64),
    Faulted,
    /// The coordinator row at this key isn't well formed.
    BadRecord(Key),
    NoMemory,
}
