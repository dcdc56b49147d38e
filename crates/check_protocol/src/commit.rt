//! Whether a COMMIT may be accepted: its write set and its read set against what was observed.
ghost use Rattle.std.specs.Prelude.{◌≡◌, ◌&&◌, if◌then◌else◌, IfOk};
ghost use Rattle.std.specs.Option.{option_copied, option_map_or};
ghost use Rattle.std.specs.List.{list_all};
ghost use Rattle.sdb_record.specs.Moved.{is_unchanged as is_unchanged_lem};
ghost use Rattle.sdb_record.specs.Names.{is_user};
ghost use Rattle.sdb_record.specs.Parts.{are_user_columns as are_user_columns_lem, is_column_name};
ghost use Rattle.sdb_record.specs.Rolls.{is_change as is_change_lem, prepared_record};
ghost use Rattle.check_protocol.specs.Observed.{is_settled as is_settled_lem};
ghost use Rattle.check_protocol.specs.Rules.{is_base as is_base_lem, is_sound as is_sound_lem, is_valid_write as is_valid_write_lem, is_valid_key as is_valid_key_lem, are_valid_writes as are_valid_writes_lem, is_valid_version as is_valid_version_lem, is_valid_found as is_valid_found_lem, is_valid_item as is_valid_item_lem, prepared_by as prepared_by_lem};
ghost use Rattle.sdb_model.specs.Tables.{is_data as is_data_lem};

use crate::{ReadItem, is_same_key, is_settled, settles, version_among, write_of};
use sdb_record::{
    Change, MetaRefused, Read, Scan, Write, is_coordinator, is_user_name, meta_of, prepared,
};
use sdb_types::{Key, NoMemory, Pair, Record, TxId, is_identifier_text};
use std::alloc::Global;

/// Whether it is the key of a table of records.
pub fn is_data(key: &Key) -> bool
    ensures { result ≡ is_data_lem key.now }
{
    !is_coordinator(&key.table)
}

fn is_base(alloc: Global, key: &Key, base: &Record) -> bool
    ensures { result ≡ is_base_lem key.now base.now }
{
    is_same_key(&base.key, key)
        && match meta_of(alloc, base) {
            Ok(meta) => meta.is_committed(),
            Err(MetaRefused::BadMeta(_)) => false,
            Err(MetaRefused::NoMemory) => false,
        }
}

fn is_user_column(name: &str) -> bool
    ensures { result ≡ (is_user name.now && is_column_name name.now) }
{
    is_user_name(name) && (name.len() <= 64 && is_identifier_text(name.as_bytes()))
}

fn are_user_columns(pairs: &[Pair]) -> bool
    ensures { result ≡ are_user_columns_lem pairs.now }
{
    for pair in pairs {
        if !is_user_column(pair.name.as_str()) {
            return false;
        }
    }
    true
}

fn is_change(change: &Change) -> bool
    ensures { result ≡ is_change_lem change.now }
{
    match change {
        Change::Row(columns) => {
            let _length = columns.len();
            are_user_columns(columns.pairs())
        }
        Change::Delete => true,
    }
}

/// Whether a write is of the form that a transaction may prepare.
pub fn is_sound(alloc: Global, write: &Write) -> bool
    ensures { result ≡ is_sound_lem write.now }
{
    (match &write.base {
        Some(base) => is_base(alloc, &write.key, base),
        None => true,
    }) && is_change(&write.change)
}

/// What a transaction prepares for a write at a moment, where the write is of that form.
pub fn prepared_if_sound(
    alloc: Global,
    write: &Write,
    id: TxId,
    now: i64,
) -> Result<Option<Record>, NoMemory>
    ensures { IfOk result (λ found. found ≡ (if is_sound_lem write.now then Some (prepared_record write.now id now) else None)) }
{
    if is_sound(alloc, write) {
        Ok(Some(prepared(alloc, write, id, now)?))
    } else {
        Ok(None)
    }
}

/// The same of a write that there may be.
pub fn prepared_by(
    alloc: Global,
    id: TxId,
    now: i64,
    write: Option<&Write>,
) -> Result<Option<Record>, NoMemory>
    ensures { IfOk result (λ found. found ≡ prepared_by_lem id.0 now (option_copied write.entry)) }
{
    match write {
        None => Ok(None),
        Some(write) => prepared_if_sound(alloc, write, id, now),
    }
}

fn is_fine_write(
    alloc: Global,
    observed: &[Record],
    key: &Key,
    write: &Write,
) -> Result<bool, NoMemory>
    ensures { IfOk result (λ valid. valid ≡ is_valid_write_lem observed.now key.now write.now) }
{
    if !is_sound(alloc, write) || !is_data(key) {
        return Ok(false);
    }
    match &write.base {
        Some(base) => is_settled(alloc, observed, key, base),
        None => Ok(true),
    }
}

fn is_fine_key(
    alloc: Global,
    observed: &[Record],
    writes: &[Write],
    write: &Write,
) -> Result<bool, NoMemory>
    ensures { IfOk result (λ valid. valid ≡ is_valid_key_lem observed.now writes.now write.now) }
{
    match write_of(writes, &write.key) {
        Some(first) => is_fine_write(alloc, observed, &write.key, first),
        None => Ok(true),
    }
}

/// Whether each key is written as a transaction may, over a committed record that a read came to.
pub fn are_valid_writes(
    alloc: Global,
    observed: &[Record],
    writes: &[Write],
) -> Result<bool, NoMemory>
    ensures { IfOk result (λ valid. valid ≡ are_valid_writes_lem observed.now writes.now writes.now) }
{
    for write in writes {
        if !is_fine_key(alloc, observed, writes, write)? {
            return Ok(false);
        }
    }
    Ok(true)
}

fn is_fine_version(
    alloc: Global,
    observed: &[Record],
    key: &Key,
    version: Option<TxId>,
) -> Result<bool, NoMemory>
    ensures { IfOk result (λ valid. valid ≡ is_valid_version_lem observed.now key.now version) }
{
    match version {
        Some(id) => settles(alloc, observed, key, id),
        None => Ok(true),
    }
}

fn is_fine_found(
    alloc: Global,
    observed: &[Record],
    scan: &Scan,
    read: &Read,
) -> Result<bool, NoMemory>
    ensures { IfOk result (λ valid. valid ≡ is_valid_found_lem observed.now scan.now read.now) }
{
    if !scan.span.contains(&read.key) {
        return Ok(true);
    }
    let version = version_among(scan.found.as_slice(), &read.key);
    is_fine_version(alloc, observed, &read.key, version)
}

fn is_fine_scan(alloc: Global, observed: &[Record], scan: &Scan) -> Result<bool, NoMemory>
    ensures { IfOk result (λ valid. valid ≡ list_all (is_valid_found_lem observed.now scan.now) scan.now.found) }
{
    let found = scan.found.as_slice();
    for read in found {
        if !is_fine_found(alloc, observed, scan, read)? {
            return Ok(false);
        }
    }
    Ok(true)
}

fn is_fine_note(alloc: Global, observed: &[Record], item: &ReadItem) -> Result<bool, NoMemory>
    ensures { IfOk result (λ valid. valid ≡ is_valid_item_lem observed.now item.now) }
{
    match item {
        ReadItem::KeyRead(read) => {
            if !is_data(&read.key) {
                return Ok(false);
            }
            is_fine_version(alloc, observed, &read.key, read.version)
        }
        ReadItem::SpanRead(scan) => {
            if is_coordinator(&scan.span.table) {
                return Ok(false);
            }
            is_fine_scan(alloc, observed, scan)
        }
    }
}

/// Whether each version read is that of a committed record that a read came to.
pub fn are_valid_items(
    alloc: Global,
    observed: &[Record],
    read_set: &[ReadItem],
) -> Result<bool, NoMemory>
    ensures { IfOk result (λ valid. valid ≡ list_all (is_valid_item_lem observed.now) read_set.now) }
{
    for item in read_set {
        if !is_fine_note(alloc, observed, item)? {
            return Ok(false);
        }
    }
    Ok(true)
}
