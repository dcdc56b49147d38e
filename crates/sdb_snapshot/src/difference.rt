//! Whether a scan finds what was read before.
ghost use Rattle.std.specs.Prelude.{◌≡◌, IfOk, find};
ghost use Rattle.std.specs.Option.{option_copied};
ghost use Rattle.sdb_record.specs.Moved.{version_of as version_of_lem};
ghost use Rattle.sdb_snapshot.specs.Reads.{base_at, reads_of};
ghost use Rattle.sdb_snapshot.specs.Sets.{differs_from};

use crate::read_set::ReadSet;
use sdb_record::{Read, Reads, is_same_version, version_of, writer_of};
use sdb_types::{Duplicate, Key, NoMemory, Record, TxId};
use std::alloc::Global;

// The version of what was found at a key, none where it was not read.
fn version_at(read_set: &ReadSet, key: &Key) -> Option<TxId>
    ensures { result ≡ version_of_lem (base_at read_set.now key.now) }
{
    match read_set.get(key) {
        Some(found) => version_of(found),
        None => None,
    }
}

// Whether a key was read with another version than is found now.
fn differs(read_set: &ReadSet, now: &ReadSet, key: &Key) -> bool
    ensures { result ≡ differs_from read_set.now now.now key.now }
{
    match read_set.get(key) {
        Some(as_read) => !is_same_version(version_of(as_read), version_at(now, key)),
        None => false,
    }
}

/// The first of the keys that differs.
pub fn first_changed<'a>(
    read_set: &ReadSet,
    now: &ReadSet,
    keys: &'a [Record],
) -> Option<&'a Record>
    ensures { option_copied result ≡ find (λ r. differs_from read_set.now now.now r.key) keys.now }
{
    for rec in keys {
        if differs(read_set, now, &rec.key) {
            return Some(rec);
        }
    }
    None
}

/// The keys of records with their versions.
pub fn versions_of(alloc: Global, records: &[Record]) -> Result<Reads, NoMemory>
    ensures { IfOk result (λ reads. reads ≡ reads_of records.now) }
{
    let mut reads = Reads::new(alloc);
    for rec in records {
        reads.push(Read {
            key: rec.key.copy()?,
            version: writer_of(&rec.columns),
        })?;
    }
    Ok(reads)
}
