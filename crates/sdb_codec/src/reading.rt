//! Reading records and keys.
ghost use Rattle.std.specs.Prelude.{◌≡◌, IfOk, IfErr, Ok};
ghost use Rattle.sdb_codec.specs.Types.{Key, Record};
ghost use Rattle.sdb_types.specs.Fits.{key_fits, record_fits};
ghost use Rattle.sdb_codec.specs.Spelling.{key_bytes, record_bytes, KeyIsEncodable, RecordIsEncodable};
ghost use Rattle.sdb_codec.specs.Places.{IsRefusedAt, key_due, record_due};
ghost use Rattle.sdb_codec.specs.Reading.{Gives, Reads, format_at as format_at_lem, key_at as key_at_lem, record_at as record_at_lem, whole, record_in, key_in, refusal};

use crate::columns::columns_at;
use crate::fields::{table_at, values_at};
use crate::refused::{ReadRefused, Stopped};
use sdb_types::{Key, Record};
use std::alloc::Global;

#[tactic(auto, unfolding(crate::specs::Reading::key_at))]
fn key_at(alloc: Global, bytes: &[u8]) -> Result<(Key, &[u8]), Stopped>
    ensures { Gives (λ x. (x.0, x.1.now)) result (key_at_lem bytes.now) }
{
    let (table, rest) = table_at(alloc, bytes)?;
    let (partition, rest) = values_at(alloc, rest)?;
    let (clustering, rest) = values_at(alloc, rest)?;
    let key = Key {
        table,
        partition,
        clustering,
    };
    Ok((key, rest))
}

fn format_at(bytes: &[u8]) -> Result<&[u8], Stopped>
    ensures { Gives (λ x. x.now) result (format_at_lem bytes.now) }
{
    match bytes {
        [1, rest @ ..] => Ok(rest),
        _ => Err(Stopped::Wrong(bytes.len())),
    }
}

#[tactic(auto, unfolding(crate::specs::Reading::record_at))]
fn record_at(alloc: Global, bytes: &[u8]) -> Result<(Record, &[u8]), Stopped>
    ensures { Gives (λ x. (x.0, x.1.now)) result (record_at_lem bytes.now) }
{
    let rest = format_at(bytes)?;
    let (key, rest) = key_at(alloc, rest)?;
    let (columns, rest) = columns_at(alloc, rest)?;
    Ok((Record { key, columns }, rest))
}

fn whole_key(alloc: Global, bytes: &[u8]) -> Result<Key, Stopped>
    ensures { Gives (λ k. k) result (whole (key_at_lem bytes.now)) }
{
    let (key, rest) = key_at(alloc, bytes)?;
    if !rest.is_empty() {
        return Err(Stopped::Wrong(rest.len()));
    }
    Ok(key)
}

fn whole_record(alloc: Global, bytes: &[u8]) -> Result<Record, Stopped>
    ensures { Gives (λ r. r) result (whole (record_at_lem bytes.now)) }
{
    let (rec, rest) = record_at(alloc, bytes)?;
    if !rest.is_empty() {
        return Err(Stopped::Wrong(rest.len()));
    }
    Ok(rec)
}

// The place of a fault is counted from the start.
fn refused_at(length: usize, stopped: Stopped) -> ReadRefused
    ensures { result ≡ refusal length stopped }
{
    match stopped {
        Stopped::Wrong(left) => ReadRefused::BadBytes(length.saturating_sub(left) as u64),
        Stopped::NoMemory => ReadRefused::NoMemory,
    }
}

fn record_of(alloc: Global, bytes: &[u8]) -> Result<Record, ReadRefused>
    ensures { Reads result (record_in bytes.now) }
{
    match whole_record(alloc, bytes) {
        Ok(rec) => Ok(rec),
        Err(stopped) => Err(refused_at(bytes.len(), stopped)),
    }
}

fn key_of(alloc: Global, bytes: &[u8]) -> Result<Key, ReadRefused>
    ensures { Reads result (key_in bytes.now) }
{
    match whole_key(alloc, bytes) {
        Ok(key) => Ok(key),
        Err(stopped) => Err(refused_at(bytes.len(), stopped)),
    }
}

/// The record that the bytes spell, all of the bytes.
pub fn read_record(alloc: Global, bytes: &[u8]) -> Result<Record, ReadRefused>
    // What is read is spelled so.
    ensures found { IfOk result (λ r. RecordIsEncodable r × (bytes.now ≡ record_bytes r)) }
    // What is spelled like this is read, unless memory runs out.
    ensures only { (r : Record) → record_fits r → RecordIsEncodable r → bytes.now ≡ record_bytes r → Reads result (Ok r) }
    // The bad place is where the first field begins that is cut off or isn't of its form, or where bytes follow the whole.
    ensures place { IfErr result (IsRefusedAt record_due bytes.now) }
    // It is what reading from left to right gives.
    ensures read { Reads result (record_in bytes.now) }
{
    record_of(alloc, bytes)
}

/// The key that the bytes spell, all of the bytes.
pub fn read_key(alloc: Global, bytes: &[u8]) -> Result<Key, ReadRefused>
    // What is read is spelled so.
    ensures found { IfOk result (λ k. KeyIsEncodable k × (bytes.now ≡ key_bytes k)) }
    // What is spelled like this is read, unless memory runs out.
    ensures only { (k : Key) → key_fits k → KeyIsEncodable k → bytes.now ≡ key_bytes k → Reads result (Ok k) }
    // The bad place is where the first field begins that is cut off or isn't of its form, or where bytes follow the whole.
    ensures place { IfErr result (IsRefusedAt key_due bytes.now) }
    // It is what reading from left to right gives.
    ensures read { Reads result (key_in bytes.now) }
{
    key_of(alloc, bytes)
}
