//! Calls and their replies from constants.
use crate::cells::Cell;
use crate::keys::{Place, key_of, span_of};
use crate::rows::{Row, found_of, record_of, records_of};
use sdb_types::{Condition, NameRefused, Reply, Request};
use std::alloc::Global;

/// A call as a constant.
#[derive(Clone, Copy)]
pub enum Ask {
    Get(Place),
    /// The names of a table, and one of its partitions or all.
    Scan(&'static str, &'static str, Option<&'static [Cell]>),
    Put(Row, Condition),
    Delete(Place, Condition),
}

/// A reply as a constant.
#[derive(Clone, Copy)]
pub enum ReplyCase {
    Found(Option<Row>),
    Rows(&'static [Row]),
    Applied,
    NotMet(Option<Row>),
    Fault,
    NoMemory,
}

pub fn request_of(alloc: Global, ask: Ask) -> Result<Request, NameRefused> {
    match ask {
        Ask::Get(place) => Ok(Request::Get(key_of(alloc, place)?)),
        Ask::Scan(ns, table, partition) => {
            Ok(Request::Scan(span_of(alloc, ns, table, partition)?))
        }
        Ask::Put(row, condition) => Ok(Request::PutIf(record_of(alloc, row)?, condition)),
        Ask::Delete(place, condition) => Ok(Request::DeleteIf(key_of(alloc, place)?, condition)),
    }
}

pub fn reply_of(alloc: Global, answered: ReplyCase) -> Result<Reply, NameRefused> {
    match answered {
        ReplyCase::Found(row) => Ok(Reply::Found(found_of(alloc, row)?)),
        ReplyCase::Rows(rows) => Ok(Reply::Rows(records_of(alloc, rows)?)),
        ReplyCase::Applied => Ok(Reply::Applied),
        ReplyCase::NotMet(row) => Ok(Reply::NotMet(found_of(alloc, row)?)),
        ReplyCase::Fault => Ok(Reply::Fault),
        ReplyCase::NoMemory => Ok(Reply::NoMemory),
    }
}
