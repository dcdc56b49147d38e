//! The home of a partition: the box that holds it.
ghost use Rattle.std.specs.Prelude.{◌≡◌, ◌<◌, ◌%◌, ◌==◌, sum, cond, Some, None, IfOk, OnOk, OnErr};
ghost use Rattle.std.specs.BTreeMap.{get};
ghost use Rattle.std.specs.Ordering.{eq_by_cmp};
ghost use Rattle.sdb_types.specs.declared.key.Key.{Key};
ghost use Rattle.sdb_types.specs.Order.{key_cmp};
ghost use Rattle.sdb_shards.specs.Homes.{home_at as home_at_lem, home_of, key_fits, number_of, partition_key as partition_key_lem, span_of as span_of_lem};

use sdb_codec::{key_has_spelling, write_key};
use sdb_types::{Duplicate, Key, NoMemory, Span, TableName, Values};
use std::alloc::Global;
use std::collections::BTreeMap;

/// The key of a partition: it has no clustering values.
pub(crate) fn partition_key(
    alloc: Global,
    table: &TableName,
    partition: &Values,
) -> Result<Key, NoMemory>
    ensures { IfOk result (λ key. key ≡ partition_key_lem table.now partition.now) }
{
    Ok(Key {
        table: table.copy()?,
        partition: partition.copy()?,
        clustering: Values::new(alloc),
    })
}

/// The span of a partition that is given by its key.
pub(crate) fn span_of(key: &Key) -> Result<Span, NoMemory>
    ensures { IfOk result (λ span. span ≡ span_of_lem key.now) }
{
    Ok(Span {
        table: key.table.copy()?,
        partition: Some(key.partition.copy()?),
    })
}

// The sum of bytes modulo the number of boxes.
fn remainder(bytes: &[u8], boxes: u32) -> u32
    requires { 0 < boxes }
    ensures { result ≡ sum bytes.now % boxes }
{
    let mut left: u64 = 0;
    for byte in bytes {
        left = (left + *byte as u64) % boxes as u64;
    }
    left as u32
}

fn fits(key: &Key) -> bool
    ensures { result ≡ key_fits key.now }
{
    key_has_spelling(key)
}

// The home of a partition that was not moved.
fn first_home(alloc: Global, boxes: u32, key: &Key) -> Result<u32, NoMemory>
    requires { 0 < boxes }
    ensures { IfOk result (λ at. at ≡ number_of key.now % boxes) }
{
    if !fits(key) {
        return Ok(0);
    }
    let bytes = write_key(alloc, key)?;
    Ok(remainder(bytes.as_slice(), boxes))
}

/// The home of a partition.
pub(crate) fn home_at(
    alloc: Global,
    moved: &BTreeMap<Key, u32>,
    boxes: u32,
    key: &Key,
) -> Result<u32, NoMemory>
    requires { 0 < boxes }
    ensures { IfOk result (λ at. at ≡ home_at_lem (get key_cmp moved.now) boxes key.now) }
{
    match moved.get(key) {
        Some(at) => Ok(*at),
        None => first_home(alloc, boxes, key),
    }
}

/// Whether a box is the home of a record.
pub(crate) fn is_home(
    alloc: Global,
    moved: &BTreeMap<Key, u32>,
    boxes: u32,
    key: &Key,
    at: u32,
) -> Result<bool, NoMemory>
    requires { 0 < boxes }
    ensures { IfOk result (λ yes. yes ≡ (home_of (get key_cmp moved.now) boxes key.now == at)) }
{
    let partition = partition_key(alloc, &key.table, &key.partition)?;
    let home = home_at(alloc, moved, boxes, &partition)?;
    Ok(home == at)
}

/// Gives a partition a home. Where it has one already, this takes no memory.
pub(crate) fn set_home(moved: &mut BTreeMap<Key, u32>, key: Key, at: u32) -> Result<(), NoMemory>
    ensures ok { OnOk result ((q : Key) → get key_cmp moved.new q ≡ cond (eq_by_cmp key_cmp key q) (Some at) (get key_cmp moved.old q)) }
    ensures absent { OnErr result (get key_cmp moved.old key ≡ None) }
    ensures err { OnErr result ((q : Key) → get key_cmp moved.new q ≡ get key_cmp moved.old q) }
{
    moved.insert(key, at)?;
    Ok(())
}
