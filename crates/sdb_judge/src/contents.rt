//! What a store contains after a call.

use check_protocol::is_same_key;
use check_tables::PlainTables;
use sdb_model::How;
use sdb_record::{Image, Images};
use sdb_store::holds;
use sdb_types::{
    Batch, Condition, Duplicate, Key, NoMemory, Record, Records, Reply, Request, Seq, Span,
    is_well_formed,
};
use std::alloc::Global;

/// The same contents.
pub fn copied(alloc: Global, rows: &PlainTables) -> Result<PlainTables, NoMemory> {
    let all = rows.all()?;
    PlainTables::of_rows(alloc, all.as_slice())
}

fn record_of(row: &Image) -> Result<Record, NoMemory> {
    Ok(Record {
        key: row.key.copy()?,
        columns: row.columns.copy()?,
    })
}

fn record_there(rows: &PlainTables, key: &Key) -> Result<Option<Record>, NoMemory> {
    match rows.find(key) {
        Some(columns) => Ok(Some(Record {
            key: key.copy()?,
            columns: columns.copy()?,
        })),
        None => Ok(None),
    }
}

fn records_among(alloc: Global, span: &Span, images: &[Image]) -> Result<Records, NoMemory> {
    let mut found = Seq::new(alloc);
    for row in images {
        if span.contains(&row.key) {
            found.push(record_of(row)?)?;
        }
    }
    Ok(found)
}

/// The records of a span, in the order of their keys.
pub fn records_in(alloc: Global, rows: &PlainTables, span: &Span) -> Result<Records, NoMemory> {
    let all = rows.all()?;
    records_among(alloc, span, all.as_slice())
}

fn images_without(alloc: Global, key: &Key, images: &[Image]) -> Result<Images, NoMemory> {
    let mut kept = Seq::new(alloc);
    for row in images {
        if !is_same_key(&row.key, key) {
            kept.push(row.copy()?)?;
        }
    }
    Ok(kept)
}

fn without(alloc: Global, rows: &PlainTables, key: &Key) -> Result<PlainTables, NoMemory> {
    let all = rows.all()?;
    let kept = images_without(alloc, key, all.as_slice())?;
    PlainTables::of_rows(alloc, kept.as_slice())
}

fn put_reply(condition: &Condition, found: Option<Record>) -> Reply {
    if holds(condition, found.as_ref()) {
        Reply::Applied
    } else {
        Reply::NotMet(found)
    }
}

// The reply to a batch: the place of the first put whose condition fails, from 1, and what is at its key.
fn batch_reply(batch: &Batch, rows: &PlainTables) -> Result<Reply, NoMemory> {
    let mut place: u32 = 0;
    for put in batch {
        place = place.saturating_add(1);
        let found = record_there(rows, &put.rec.key)?;
        if !holds(&put.condition, found.as_ref()) {
            return Ok(Reply::NotAll(place, found));
        }
    }
    Ok(Reply::Applied)
}

// The reply of a store of these contents.
fn reply_to(alloc: Global, request: &Request, rows: &PlainTables) -> Result<Reply, NoMemory> {
    match request {
        Request::Get(key) => Ok(Reply::Found(record_there(rows, key)?)),
        Request::Scan(span) => Ok(Reply::Rows(records_in(alloc, rows, span)?)),
        Request::PutIf(rec, condition) => Ok(put_reply(condition, record_there(rows, &rec.key)?)),
        Request::DeleteIf(key, condition) => Ok(put_reply(condition, record_there(rows, key)?)),
        Request::PutAll(batch) => batch_reply(batch, rows),
    }
}

fn after_put(
    alloc: Global,
    rec: &Record,
    condition: &Condition,
    rows: &PlainTables,
) -> Result<PlainTables, NoMemory> {
    let mut left = copied(alloc, rows)?;
    let found = record_there(rows, &rec.key)?;
    if holds(condition, found.as_ref()) {
        left.put(rec.key.copy()?, rec.columns.copy()?)?;
    }
    Ok(left)
}

fn after_delete(
    alloc: Global,
    key: &Key,
    condition: &Condition,
    rows: &PlainTables,
) -> Result<PlainTables, NoMemory> {
    let found = record_there(rows, key)?;
    if holds(condition, found.as_ref()) {
        without(alloc, rows, key)
    } else {
        copied(alloc, rows)
    }
}

fn after_batch(alloc: Global, batch: &Batch, rows: &PlainTables) -> Result<PlainTables, NoMemory> {
    let mut left = copied(alloc, rows)?;
    if !matches!(batch_reply(batch, rows)?, Reply::Applied) {
        return Ok(left);
    }
    for put in batch {
        left.put(put.rec.key.copy()?, put.rec.columns.copy()?)?;
    }
    Ok(left)
}

// What a store contains after a request.
fn after(alloc: Global, request: &Request, rows: &PlainTables) -> Result<PlainTables, NoMemory> {
    match request {
        Request::PutIf(rec, condition) => after_put(alloc, rec, condition, rows),
        Request::DeleteIf(key, condition) => after_delete(alloc, key, condition, rows),
        Request::PutAll(batch) => after_batch(alloc, batch, rows),
        _ => copied(alloc, rows),
    }
}

fn seen(
    alloc: Global,
    request: &Request,
    reply: &Reply,
    rows: &PlainTables,
) -> Result<Option<PlainTables>, NoMemory> {
    if matches!(reply, Reply::NoMemory) {
        return Ok(Some(copied(alloc, rows)?));
    }
    let own = reply_to(alloc, request, rows)?;
    if own == *reply {
        Ok(Some(after(alloc, request, rows)?))
    } else {
        Ok(None)
    }
}

/// What a store contains after a call or a landing, or none where it doesn't reply so. That the store itself failed counts as no reply, and
/// no store replies to a batch that may not be put.
pub fn performed(
    alloc: Global,
    request: &Request,
    how: How,
    reply: &Reply,
    rows: &PlainTables,
) -> Result<Option<PlainTables>, NoMemory> {
    if !is_well_formed(request) {
        return Ok(None);
    }
    match (how, reply) {
        (How::Seen, reply) => seen(alloc, request, reply, rows),
        (How::Lost, Reply::Fault) => Ok(Some(after(alloc, request, rows)?)),
        (How::Discarded | How::Delayed, Reply::Fault) => Ok(Some(copied(alloc, rows)?)),
        _ => Ok(None),
    }
}
