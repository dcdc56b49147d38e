//! The calls on the table.
ghost use Rattle.std.specs.Prelude.{◌≡◌, Some, None};
ghost use Rattle.sdb_codec.specs.Spelling.{key_bytes, record_bytes, RecordIsEncodable};
ghost use Rattle.sdb_sqlite.specs.Asked.{IsDue, found_in, found_by, IsGot, Gets, IsListed, Scans, Writes, PutsOver, RemovesOver, IsPut, IsRemoved, Puts, Removes, put_params, put_text, rows_of, written_by};
ghost use Rattle.sdb_sqlite.specs.Statements.{add_row as add_text};

use crate::body::{blob_at, record_at};
use crate::held::Held;
use crate::refused::Stopped;
use crate::rows::records_of;
use crate::spelling::{key_spelling, partition_spelling, table_text};
use crate::statements::{add_row, body_at, change_row, partition_rows, remove_row, table_rows};
use sdb_codec::{record_has_spelling, write_record};
use sdb_store::holds;
use sdb_types::{Condition, Duplicate, Key, Record, Records, Span, Values};
use sqlite::{Connection, Error, Row};
use std::alloc::Global;

/// What became of a write.
#[derive(Drop)]
pub enum Written {
    Applied,
    /// The condition does not hold of what is at the key.
    NotMet(Option<Record>),
}

// The record of a key that the rows of a get's answer show.
fn first_record(alloc: Global, key: &Key, rows: &[Row]) -> Result<Option<Record>, Stopped>
    ensures { IsDue (found_in key.now rows.now) result }
{
    match rows {
        [] => Ok(None),
        [row, ..] => {
            let body = blob_at(row, 0)?;
            Ok(Some(record_at(alloc, key.copy()?, &body)?))
        }
    }
}

fn found(
    alloc: Global,
    key: &Key,
    answer: Result<Vec<Row>, Error>,
) -> Result<Option<Record>, Stopped>
    ensures { IsDue (found_by key.now (rows_of answer)) result }
{
    match answer {
        Ok(rows) => first_record(alloc, key, &rows),
        Err(error) => Err(Stopped::from(error)),
    }
}

// The record at a key, whose bytes are these.
fn find_at<S: Held>(
    alloc: Global,
    connection: &mut Connection<S>,
    key: &Key,
    spelled: &[u8],
) -> Result<Option<Record>, Stopped>
    requires { spelled.now ≡ key_bytes key.now }
    ensures { IsGot S.Store key.now connection.old connection.new result }
{
    let answer = body_at(connection, spelled);
    found(alloc, key, answer)
}

/// The record at a key.
pub fn find<S: Held>(
    alloc: Global,
    connection: &mut Connection<S>,
    key: &Key,
) -> Result<Option<Record>, Stopped>
    ensures { Gets S.Store key.now connection.old connection.new result }
{
    let spelled = key_spelling(alloc, key)?;
    find_at(alloc, connection, key, spelled.as_slice())
}

// The records that the rows of an answer mean.
fn listed(alloc: Global, span: &Span, answer: Result<Vec<Row>, Error>) -> Result<Records, Stopped>
    ensures { IsListed span.now (rows_of answer) result }
{
    match answer {
        Ok(rows) => records_of(alloc, span, &rows),
        Err(error) => Err(Stopped::from(error)),
    }
}

// The records of a whole table.
fn list_table<S: Held>(
    alloc: Global,
    connection: &mut Connection<S>,
    span: &Span,
) -> Result<Records, Stopped>
    requires { span.now.partition ≡ None }
    ensures { Scans S.Store span.now connection.old connection.new result }
{
    let table = table_text(alloc, &span.table)?;
    let answer = table_rows(connection, &table);
    listed(alloc, span, answer)
}

// The records of a partition.
fn list_partition<S: Held>(
    alloc: Global,
    connection: &mut Connection<S>,
    span: &Span,
    partition: &Values,
) -> Result<Records, Stopped>
    requires { span.now.partition ≡ Some partition.now }
    ensures { Scans S.Store span.now connection.old connection.new result }
{
    let spelled = partition_spelling(alloc, &span.table, partition)?;
    let table = table_text(alloc, &span.table)?;
    let answer = partition_rows(connection, &table, spelled.as_slice());
    listed(alloc, span, answer)
}

/// The records of a span, in the order of their keys.
pub fn list<S: Held>(
    alloc: Global,
    connection: &mut Connection<S>,
    span: &Span,
) -> Result<Records, Stopped>
    ensures { Scans S.Store span.now connection.old connection.new result }
{
    match &span.partition {
        Some(partition) => list_partition(alloc, connection, span, partition),
        None => list_table(alloc, connection, span),
    }
}

fn written_as(answer: Result<usize, Error>) -> Result<Written, Stopped>
    ensures { result ≡ written_by answer }
{
    match answer {
        Ok(_) => Ok(Written::Applied),
        Err(error) => Err(Stopped::from(error)),
    }
}

// Adds the row of a record, whose bytes are these.
fn add<S: Held>(
    alloc: Global,
    connection: &mut Connection<S>,
    rec: &Record,
    spelled: &[u8],
    body: &[u8],
) -> Result<Written, Stopped>
    requires fits { RecordIsEncodable rec.now }
    requires spelled { spelled.now ≡ key_bytes rec.now.key }
    requires body { body.now ≡ record_bytes rec.now }
    ensures { Writes S.Store add_text (put_params rec.now None) connection.old connection.new result }
{
    let table = table_text(alloc, &rec.key.table)?;
    let partition = partition_spelling(alloc, &rec.key.table, &rec.key.partition)?;
    let answer = add_row(connection, spelled, &table, partition.as_slice(), body);
    written_as(answer)
}

// Writes a record over what was found at its key.
fn write_over<S: Held>(
    alloc: Global,
    connection: &mut Connection<S>,
    rec: &Record,
    spelled: &[u8],
    found: Option<Record>,
) -> Result<Written, Stopped>
    requires fits { RecordIsEncodable rec.now }
    requires spelled { spelled.now ≡ key_bytes rec.now.key }
    ensures { Writes S.Store (put_text found) (put_params rec.now found) connection.old connection.new result }
{
    let body = write_record(alloc, rec)?;
    match found {
        None => add(alloc, connection, rec, spelled, body.as_slice()),
        Some(_) => written_as(change_row(connection, spelled, body.as_slice())),
    }
}

// Puts a record over what was found at its key, where the condition holds of that.
fn put_over<S: Held>(
    alloc: Global,
    connection: &mut Connection<S>,
    rec: &Record,
    spelled: &[u8],
    condition: &Condition,
    found: Option<Record>,
) -> Result<Written, Stopped>
    requires fits { RecordIsEncodable rec.now }
    requires spelled { spelled.now ≡ key_bytes rec.now.key }
    ensures { PutsOver S.Store rec.now condition.now connection.old connection.new result found }
{
    if !holds(condition, found.as_ref()) {
        return Ok(Written::NotMet(found));
    }
    write_over(alloc, connection, rec, spelled, found)
}

fn put_at<S: Held>(
    alloc: Global,
    connection: &mut Connection<S>,
    rec: &Record,
    spelled: &[u8],
    condition: &Condition,
) -> Result<Written, Stopped>
    requires fits { RecordIsEncodable rec.now }
    requires spelled { spelled.now ≡ key_bytes rec.now.key }
    ensures { IsPut S.Store rec.now condition.now connection.old connection.new result }
{
    match find_at(alloc, connection, &rec.key, spelled) {
        Ok(found) => put_over(alloc, connection, rec, spelled, condition, found),
        Err(stopped) => Err(stopped),
    }
}

/// Puts a record at its key, where the condition holds of what is there.
pub fn put<S: Held>(
    alloc: Global,
    connection: &mut Connection<S>,
    rec: &Record,
    condition: &Condition,
) -> Result<Written, Stopped>
    ensures { Puts S.Store rec.now condition.now connection.old connection.new result }
{
    if !record_has_spelling(rec) {
        return Err(Stopped::Unfit);
    }
    let spelled = key_spelling(alloc, &rec.key)?;
    put_at(alloc, connection, rec, spelled.as_slice(), condition)
}

// Takes what was found at a key out, where the condition holds of it.
fn remove_over<S: Held>(
    connection: &mut Connection<S>,
    key: &Key,
    spelled: &[u8],
    condition: &Condition,
    found: Option<Record>,
) -> Result<Written, Stopped>
    requires { spelled.now ≡ key_bytes key.now }
    ensures { RemovesOver S.Store key.now condition.now connection.old connection.new result found }
{
    if !holds(condition, found.as_ref()) {
        return Ok(Written::NotMet(found));
    }
    match found {
        None => Ok(Written::Applied),
        Some(_) => {
            let answer = remove_row(connection, spelled);
            written_as(answer)
        }
    }
}

fn remove_at<S: Held>(
    alloc: Global,
    connection: &mut Connection<S>,
    key: &Key,
    spelled: &[u8],
    condition: &Condition,
) -> Result<Written, Stopped>
    requires { spelled.now ≡ key_bytes key.now }
    ensures { IsRemoved S.Store key.now condition.now connection.old connection.new result }
{
    match find_at(alloc, connection, key, spelled) {
        Ok(found) => remove_over(connection, key, spelled, condition, found),
        Err(stopped) => Err(stopped),
    }
}

/// Takes the record at a key out, where the condition holds of what is there.
pub fn delete<S: Held>(
    alloc: Global,
    connection: &mut Connection<S>,
    key: &Key,
    condition: &Condition,
) -> Result<Written, Stopped>
    ensures { Removes S.Store key.now condition.now connection.old connection.new result }
{
    let spelled = key_spelling(alloc, key)?;
    remove_at(alloc, connection, key, spelled.as_slice(), condition)
}
