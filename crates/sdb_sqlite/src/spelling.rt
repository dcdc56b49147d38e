//! What a row of the table has in its columns.
ghost use Rattle.std.specs.Prelude.{◌≡◌, ◌⊎◌, ◌↔◌, IfOk, IfErr, OnOk};
ghost use Rattle.std.specs.String.{string_bytes};
ghost use Rattle.sdb_types.specs.Order.{table_text as table_text_lem};
ghost use Rattle.sdb_codec.specs.Spelling.{key_bytes, KeyIsEncodable};
ghost use Rattle.sdb_sqlite.specs.Spans.{partition_key as partition_key_lem};

use crate::refused::Stopped;
use sdb_codec::{key_has_spelling, write_key};
use sdb_types::{Duplicate, Key, NoMemory, Octets, TableName, Values};
use std::alloc::Global;

/// A table's name as `ns.table`.
pub fn table_text(alloc: Global, table: &TableName) -> Result<String, NoMemory>
    ensures { IfOk result (λ text. string_bytes text ≡ table_text_lem table.now) }
{
    let mut text = String::from_str(alloc, table.ns.as_str())?;
    text.push_str(".")?;
    text.push_str(table.table.as_str())?;
    Ok(text)
}

fn partition_key(alloc: Global, table: &TableName, partition: &Values) -> Result<Key, NoMemory>
    ensures { IfOk result (λ key. key ≡ partition_key_lem table.now partition.now) }
{
    Ok(Key {
        table: table.copy()?,
        partition: partition.copy()?,
        clustering: Values::new(alloc),
    })
}

/// The bytes of a key. A key whose counts and lengths don't fit their fields has none.
pub fn key_spelling(alloc: Global, key: &Key) -> Result<Octets, Stopped>
    ensures ok { IfOk result (λ bytes. bytes ≡ key_bytes key.now) }
    ensures fits { OnOk result (KeyIsEncodable key.now) }
    ensures err { IfErr result (λ e. ((e ≡ Stopped.Unfit) × (¬ KeyIsEncodable key.now)) ⊎ ((e ≡ Stopped.NoMemory) × KeyIsEncodable key.now)) }
{
    if !key_has_spelling(key) {
        return Err(Stopped::Unfit);
    }
    Ok(write_key(alloc, key)?)
}

/// The bytes of a partition's key. One whose counts and lengths don't fit their fields has none.
pub fn partition_spelling(
    alloc: Global,
    table: &TableName,
    partition: &Values,
) -> Result<Octets, Stopped>
    ensures fits { OnOk result (KeyIsEncodable (partition_key_lem table.now partition.now)) }
    ensures err { IfErr result (λ e. ((e ≡ Stopped.Unfit) × (¬ KeyIsEncodable (partition_key_lem table.now partition.now))) ⊎ (e ≡ Stopped.NoMemory)) }
    ensures ok { IfOk result (λ bytes. bytes ≡ key_bytes (partition_key_lem table.now partition.now)) }
{
    key_spelling(alloc, &partition_key(alloc, table, partition)?)
}
