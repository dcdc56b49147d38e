//! Answers from constants.
use crate::cells::{Cell, values_of};
use crate::keys::{Place, key_of};
use crate::rows::{Row, found_of};
use sdb_model::{Answer, Refusal, Rows};
use sdb_types::{NameRefused, NoMemory, TxId};
use std::alloc::Global;

/// An answer as a constant.
#[derive(Clone, Copy)]
pub enum AnswerCase {
    Rows(&'static [&'static [Cell]]),
    Count(u64),
    Done,
    Committed,
    Duplicate(Place),
    Busy(Place, TxId, i64),
    Conflict(Place, Option<Row>),
    Expired(TxId),
    Faulted,
    Unknown(TxId),
    BadRecord(Place),
    Refused(u8, u32),
    Vacuuming,
    OpenTransactions,
    NoMemory,
}

fn rows_of(alloc: Global, cells: &[&'static [Cell]]) -> Result<Rows, NoMemory> {
    let mut rows = Rows::new(alloc);
    for row in cells {
        rows.push(values_of(alloc, row)?)?;
    }
    Ok(rows)
}

fn conflict(alloc: Global, place: Place, row: Option<Row>) -> Result<Answer, NameRefused> {
    let key = key_of(alloc, place)?;
    let found = found_of(alloc, row)?;
    Ok(Answer::Conflict(key, found))
}

// An answer that names no key.
fn plain(case: AnswerCase) -> Answer {
    match case {
        AnswerCase::Count(count) => Answer::Count(count),
        AnswerCase::Done => Answer::Done,
        AnswerCase::Committed => Answer::Committed,
        AnswerCase::Expired(id) => Answer::Expired(id),
        AnswerCase::Faulted => Answer::Faulted,
        AnswerCase::Unknown(id) => Answer::Unknown(id),
        AnswerCase::Refused(kind, place) => Answer::Refused(Refusal { kind, place }),
        AnswerCase::Vacuuming => Answer::Vacuuming,
        AnswerCase::OpenTransactions => Answer::OpenTransactions,
        _ => Answer::NoMemory,
    }
}

pub fn answer_of(alloc: Global, case: AnswerCase) -> Result<Answer, NameRefused> {
    match case {
        AnswerCase::Rows(rows) => Ok(Answer::Rows(rows_of(alloc, rows)?)),
        AnswerCase::Duplicate(place) => Ok(Answer::Duplicate(key_of(alloc, place)?)),
        AnswerCase::Busy(place, id, moment) => Ok(Answer::Busy(key_of(alloc, place)?, id, moment)),
        AnswerCase::Conflict(place, row) => conflict(alloc, place, row),
        AnswerCase::BadRecord(place) => Ok(Answer::BadRecord(key_of(alloc, place)?)),
        _ => Ok(plain(case)),
    }
}
