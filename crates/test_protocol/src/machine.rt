//! The driver of the machines.
use crate::replies::Answer;
use sdb_types::{Key, Request, TxId, Value};
use std::alloc::Global;
use test_builders::number_of;

/// What a step answers. Other is anything else, or a call that the answer isn't for.
#[derive(Clone, Copy, PartialEq, Eq)]
pub enum AnswerGiven {
    More,
    Done,
    Committed,
    Expired,
    Unknown,
    /// The image is the record as it was committed, or none.
    Forward,
    Back,
    Busy,
    /// So many rows are seen.
    Rows(usize),
    /// The account of that number, and the version that is there.
    Conflict(i32, Option<TxId>),
    /// The roll of the account of that number was pending, and whether another is left.
    Rolled(i32, bool),
    /// The put of the coordinator's row was pending, and whether a roll is left.
    Put(bool),
    BadRecord,
    Faulted,
    NoMemory,
    Other,
}

/// What takes replies, one after the other.
pub trait Machine {
    /// What an answer to the pending call says, at a moment.
    fn give(&mut self, alloc: Global, answer: Answer, now: i64) -> AnswerGiven;

    /// Whether no call is pending.
    fn is_over(&self) -> bool;
}

/// The moment at which a record that was prepared at the moment 1,000 has expired, and the last before it.
pub const EXPIRED: i64 = 16_000;

pub const EARLIER: i64 = 15_999;

fn give_all<M: Machine>(alloc: Global, machine: &mut M, answers: &[Answer]) {
    for answer in answers {
        machine.give(alloc, *answer, EXPIRED);
    }
}

/// What one more answer says, at a moment. The others come when the record has expired.
pub fn answer_after<M: Machine + Drop>(
    alloc: Global,
    machine: M,
    before: &[Answer],
    answer: Answer,
    now: i64,
) -> AnswerGiven {
    let mut machine = machine;
    give_all(alloc, &mut machine, before);
    machine.give(alloc, answer, now)
}

/// Whether each answer says what is beside it, and no call is pending in the end.
pub fn runs_as<M: Machine>(
    alloc: Global,
    machine: &mut M,
    steps: &[(Answer, AnswerGiven)],
) -> bool {
    for (answer, answered) in steps {
        if machine.give(alloc, *answer, EXPIRED) != *answered {
            return false;
        }
    }
    machine.is_over()
}

/// The same of a machine that is not needed afterwards.
pub fn runs_to_end<M: Machine + Drop>(
    alloc: Global,
    machine: M,
    steps: &[(Answer, AnswerGiven)],
) -> bool {
    let mut machine = machine;
    runs_as(alloc, &mut machine, steps)
}

/// A conflict at an account.
pub fn conflict_at(key: &Key, version: Option<TxId>) -> AnswerGiven {
    match number_of(key) {
        Some(number) => AnswerGiven::Conflict(number, version),
        None => AnswerGiven::Other,
    }
}

/// What a transaction is answered, where it is this one.
pub fn if_own(id: TxId, own: TxId, answered: AnswerGiven) -> AnswerGiven {
    if id.0 == own.0 {
        answered
    } else {
        AnswerGiven::Other
    }
}

/// What the transaction is answered whose id is the key of its row.
pub fn if_row_of(key: &Key, id: &str, answered: AnswerGiven) -> AnswerGiven {
    match key.partition.at(0) {
        Some(Value::Text(text)) if text.as_str() == id => answered,
        _ => AnswerGiven::Other,
    }
}

/// The key that a call writes, where it writes one.
pub fn written_key(request: Option<&Request>) -> Option<&Key> {
    match request {
        Some(Request::PutIf(rec, _)) => Some(&rec.key),
        Some(Request::DeleteIf(key, _)) => Some(key),
        _ => None,
    }
}
