//! What the columns of a row mean.
ghost use Rattle.std.specs.Prelude.{◌≡◌, ◌⊎◌, [], None, Some, IfOk, IfErr};
ghost use Rattle.sqlite.specs.Order.{column};
ghost use Rattle.sdb_sqlite.specs.Bodies.{IsRecordOf};
ghost use Rattle.sdb_sqlite.specs.Rows.{blob_of, record_of_body};

use crate::refused::Stopped;
use sdb_codec::{ReadRefused, read_record};
use sdb_types::{Columns, Key, NoMemory, Record, same};
use sqlite::Row;
use std::alloc::Global;

/// The bytes in a column of a row.
pub fn blob_at(row: &Row, at: usize) -> Result<Vec<u8>, Stopped>
    ensures ok { IfOk result (λ bytes. blob_of (column row.now at) ≡ Some bytes.items) }
    ensures err { IfErr result (λ e. (e ≡ Stopped.NoMemory) ⊎ ((e ≡ Stopped.Refused) × (blob_of (column row.now at) ≡ None))) }
{
    Ok(row.get(at)?)
}

fn bare(alloc: Global, key: Key) -> Record
    ensures own { result.key ≡ key }
    ensures columns { result.columns ≡ [] }
{
    Record {
        key,
        columns: Columns::new(alloc),
    }
}

/// The record that a row of that key with that body means: the one that the body spells where it is of that key, and
/// else one without columns.
pub fn record_at(alloc: Global, key: Key, body: &[u8]) -> Result<Record, NoMemory>
    ensures agrees { IfOk result (IsRecordOf body.now key) }
    ensures is { IfOk result (λ r. r ≡ record_of_body key body.now) }
{
    match read_record(alloc, body) {
        Ok(rec) => {
            if same(&rec.key, &key) {
                Ok(rec)
            } else {
                Ok(bare(alloc, key))
            }
        }
        Err(ReadRefused::BadBytes(_)) => Ok(bare(alloc, key)),
        Err(ReadRefused::NoMemory) => Err(NoMemory),
    }
}
