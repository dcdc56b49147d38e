//! The rows of a scan.
ghost use Rattle.std.specs.Prelude.{◌≡◌, OnOk};
ghost use Rattle.std.specs.List.Sorted.{IsPermutation, IsSortedByKey};
ghost use Rattle.sdb_types.specs.Order.{key_cmp};
ghost use Rattle.sdb_types.specs.Contents.{starts_after as starts_after_lem, rise};
ghost use Rattle.sdb_codec.specs.Reading.{key_in};
ghost use Rattle.sdb_sqlite.specs.Asked.{IsDue, IsInOrder, IsListedIn, row_record, row_keyed, rows_records};
ghost use Rattle.sdb_sqlite.specs.Rows.{blob_of};
ghost use Rattle.sqlite.specs.Order.{column};

use crate::body::{blob_at, record_at};
use crate::refused::Stopped;
use sdb_codec::{ReadRefused, read_key};
use sdb_types::{Key, NoMemory, Record, Records, Seq, Span};
use sqlite::Row;
use std::alloc::Global;

// The record of a row with that key.
fn record_of_key(alloc: Global, span: &Span, bytes: &[u8], row: &Row) -> Result<Record, Stopped>
    ensures { IsDue (row_keyed span.now (key_in bytes.now) (blob_of (column row.now 1))) result }
{
    let key = match read_key(alloc, bytes) {
        Ok(key) => key,
        Err(ReadRefused::BadBytes(_)) => return Err(Stopped::Foreign),
        Err(ReadRefused::NoMemory) => return Err(Stopped::NoMemory),
    };
    if !span.contains(&key) {
        return Err(Stopped::Foreign);
    }
    let body = blob_at(row, 1)?;
    Ok(record_at(alloc, key, &body)?)
}

fn record_of_row(alloc: Global, span: &Span, row: &Row) -> Result<Record, Stopped>
    ensures { IsDue (row_record span.now row.now) result }
{
    let key = blob_at(row, 0)?;
    record_of_key(alloc, span, &key, row)
}

fn records_of_rows(alloc: Global, span: &Span, rows: &[Row]) -> Result<Records, Stopped>
    ensures { IsDue (rows_records span.now rows.now) result }
{
    let mut records = Seq::new(alloc);
    for row in rows {
        records.push(record_of_row(alloc, span, row)?)?;
    }
    Ok(records)
}

// Puts records in the order of their keys.
fn put_in_order(records: &mut Vec<Record>) -> Result<(), NoMemory>
    ensures same { IsPermutation records.old.items records.new.items }
    ensures sorted { OnOk result (IsSortedByKey (λ r. r.key) key_cmp records.new.items) }
{
    records.sort_by(|a, b| a.key.compare(&b.key))?;
    Ok(())
}

fn starts_after(key: &Key, records: &[Record]) -> bool
    ensures { result ≡ starts_after_lem key.now records.now }
{
    match records {
        [] => true,
        [first, ..] => key.compare(&first.key).is_lt(),
    }
}

fn rises(records: &[Record]) -> bool
    ensures { result ≡ rise records.now }
{
    let mut rest = records;
    while let [first, others @ ..] = rest {
        if !starts_after(&first.key, others) {
            return false;
        }
        rest = others;
    }
    true
}

fn in_order(records: Records) -> Result<Records, Stopped>
    ensures { IsInOrder records result }
{
    let mut records = records.into_vec();
    put_in_order(&mut records)?;
    if !rises(&records) {
        return Err(Stopped::Tied);
    }
    Ok(Seq::from_vec(records))
}

/// The records of a span that its rows mean, in the order of their keys.
pub fn records_of(alloc: Global, span: &Span, rows: &[Row]) -> Result<Records, Stopped>
    ensures { IsListedIn span.now rows.now result }
{
    let records = records_of_rows(alloc, span, rows)?;
    in_order(records)
}
