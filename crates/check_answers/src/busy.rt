//! The cause of Busy: an unresolved record that may not be given up yet.
ghost use Rattle.std.specs.Prelude.{◌≡◌, ◌&&◌, IfOk, IsTrue, ◌↔◌};
ghost use Rattle.std.specs.List.{list_any};
ghost use Rattle.sdb_record.specs.Meta.{is_unresolved as is_unresolved_lem};
ghost use Rattle.sdb_model.specs.Causes.{IsBusy};
ghost use Rattle.sdb_model.specs.Calls.{records_read};
ghost use Rattle.sdb_types.specs.Order.{same_key};
ghost use Rattle.sdb_contents.specs.Commits.{executed_of};
ghost use Rattle.check_answers.specs.Tests.{is_id as is_id_lem, is_at as is_at_lem, prepared_moment as prepared_moment_lem, looks_early as looks_early_lem, is_early as is_early_lem, reads_busy as reads_busy_lem, busy_among as busy_among_lem};

use crate::sign::{Sign, any};
use check_protocol::{is_committed, is_same_key, writer};
use check_tables::{Made, calls_of, clock_at, is_read};
use sdb_contents::Executed;
use sdb_model::Event;
use sdb_record::{coordinator_key, expired, meta_of};
use sdb_types::{Key, NoMemory, Record, Reply, Request, TxId, Value, value_named};
use std::alloc::Global;

const LAST_MOMENT: i64 = 9_007_199_254_740_992;

/// Whether a transaction is this one.
pub fn is_id(found: Option<TxId>, id: TxId) -> bool
    ensures { result ≡ is_id_lem found id }
{
    match found {
        Some(other) => other.0 == id.0,
        None => false,
    }
}

/// When a record was prepared, in milliseconds.
pub fn prepared_moment(rec: &Record) -> Option<i64>
    ensures { result ≡ prepared_moment_lem rec.now }
{
    match value_named(rec.columns.pairs(), "tx_prepared_at") {
        Some(Value::BigInt(n)) if *n >= 0 && *n <= LAST_MOMENT => Some(*n),
        _ => None,
    }
}

fn is_at(found: Option<i64>, at: i64) -> bool
    ensures { result ≡ is_at_lem found at }
{
    match found {
        Some(other) => other == at,
        None => false,
    }
}

/// Whether a record is a transactional one in state 1 or 2.
pub fn is_unresolved(alloc: Global, rec: &Record) -> bool
    ensures { result ≡ is_unresolved_lem rec.now }
{
    match meta_of(alloc, rec) {
        Ok(_) => !is_committed(rec),
        Err(_) => false,
    }
}

/// Whether a call after this event found no row of the transaction, and the record was not expired then.
pub fn looks_early(events: &[Event], after: u64, row: &Key, at: i64, made: &Made) -> bool
    ensures { result ≡ looks_early_lem events.now after row.now at made.now }
{
    if made.at <= after {
        return false;
    }
    match (&made.request, &made.reply) {
        (Request::Get(key), Reply::Found(None)) => {
            is_same_key(key, row) && !expired(at, clock_at(events, made.at))
        }
        _ => false,
    }
}

fn any_look(alloc: Global, events: &[Event], calls: &[Made], after: u64, row: &Key, at: i64) -> bool
    ensures { result ≡ list_any (looks_early_lem events.now after row.now at) calls.now }
{
    any(alloc, calls, Sign::Look(events, after, row, at))
}

/// Whether a record that a read found may not be given up yet: it is unresolved, of this transaction and moment, and a later
/// call found no row of the transaction before the record expired.
pub fn is_early(
    alloc: Global,
    events: &[Event],
    calls: &[Made],
    read: &Made,
    rec: &Record,
    id: TxId,
    row: &Key,
    at: i64,
) -> bool
    ensures { result ≡ is_early_lem events.now calls.now read.now rec.now id row.now at }
{
    is_unresolved(alloc, rec)
        && (is_id(writer(rec), id)
            && (is_at(prepared_moment(rec), at)
                && any_look(alloc, events, calls, read.at, row, at)))
}

fn is_busy_at(
    alloc: Global,
    events: &[Event],
    calls: &[Made],
    read: &Made,
    rec: &Record,
    key: &Key,
    id: TxId,
    row: &Key,
    at: i64,
) -> bool
    ensures { result ≡ (same_key rec.now.key key.now && is_early_lem events.now calls.now read.now rec.now id row.now at) }
{
    is_same_key(&rec.key, key) && is_early(alloc, events, calls, read, rec, id, row, at)
}

#[tactic(auto, using(crate::proofs::Finds::one_found))]
fn any_busy(
    alloc: Global,
    events: &[Event],
    calls: &[Made],
    read: &Made,
    key: &Key,
    id: TxId,
    row: &Key,
    at: i64,
) -> bool
    ensures { result ≡ list_any (λ r. same_key r.key key.now && is_early_lem events.now calls.now read.now r id row.now at) (records_read read.now.reply) }
{
    match &read.reply {
        Reply::Found(Some(rec)) => is_busy_at(alloc, events, calls, read, rec, key, id, row, at),
        Reply::Rows(rows) => {
            rows.as_slice().iter().any(|rec| is_busy_at(
                alloc, events, calls, read, rec, key, id, row, at,
            ))
        }
        _ => false,
    }
}

fn reads_busy(
    alloc: Global,
    events: &[Event],
    calls: &[Made],
    read: &Made,
    key: &Key,
    id: TxId,
    row: &Key,
    at: i64,
) -> bool
    ensures { result ≡ reads_busy_lem events.now calls.now key.now id row.now at read.now }
{
    is_read(&read.request) && any_busy(alloc, events, calls, read, key, id, row, at)
}

fn busy_among(
    alloc: Global,
    events: &[Event],
    calls: &[Made],
    key: &Key,
    id: TxId,
    row: &Key,
    at: i64,
) -> bool
    ensures { result ≡ busy_among_lem events.now calls.now key.now id row.now at }
{
    calls.iter().any(|read| reads_busy(alloc, events, calls, read, key, id, row, at))
}

/// Whether a read of the statement found a record at the key that may not be given up yet.
pub fn is_busy(
    alloc: Global,
    events: &[Event],
    client: u64,
    executed: &Executed,
    key: &Key,
    id: TxId,
    at: i64,
) -> Result<bool, NoMemory>
    ensures { IfOk result (λ busy. IsTrue busy ↔ IsBusy events.now client (executed_of executed.now) key.now id at) }
{
    let calls = calls_of(alloc, events, client, executed)?;
    let row = coordinator_key(alloc, id)?;
    Ok(busy_among(alloc, events, calls.as_slice(), key, id, &row, at))
}
