//! Writes in groups, each of which goes to a store in one call.
ghost use Rattle.std.specs.Prelude.{◌≡◌, ◌∷◌, ◌++◌, [], IfOk, OnOk, map, None};
ghost use Rattle.std.specs.Option.{option_copied};
ghost use Rattle.std.specs.BTreeMap.{get};
ghost use Rattle.sdb_types.specs.Order.{key_cmp};
ghost use Rattle.sdb_record.specs.Groups.{HaveLatest, grouped as grouped_lem, is_past as is_past_lem, partition_of as partition_of_lem, placed, rise_from};

use crate::write::{Write, Writes};
use sdb_types::{Duplicate, Key, NoMemory, Seq, Values, find_rising};
use std::alloc::Global;
use std::collections::BTreeMap;

/// How many writes a group has at most.
const MOST: usize = 64;

/// Writes in groups: each has from 1 to 64 writes, of one partition of one table.
pub type Groups = Seq<Writes>;

// The key of a partition: it has no clustering values.
fn partition_of(alloc: Global, key: &Key) -> Result<Key, NoMemory>
    ensures { IfOk result (λ partition. partition ≡ partition_of_lem key.now) }
{
    Ok(Key {
        table: key.table.copy()?,
        partition: key.partition.copy()?,
        clustering: Values::new(alloc),
    })
}

// What a tree has at a key. Most partitions come in their order.
fn index_of(places: &BTreeMap<Key, usize>, key: &Key) -> Option<usize>
    ensures { result ≡ get key_cmp places.now key.now }
{
    match find_rising(places, key) {
        Some(i) => Some(*i),
        None => None,
    }
}

// A group of one write.
fn alone(alloc: Global, write: Write) -> Result<Writes, NoMemory>
    ensures { IfOk result (λ group. group ≡ write ∷ []) }
{
    let mut group = Writes::new(alloc);
    group.push(write)?;
    Ok(group)
}

// Begins a group with a write.
fn begin(
    groups: &mut Vec<Writes>,
    latest: &mut BTreeMap<Key, usize>,
    partition: Key,
    write: Write,
) -> Result<(), NoMemory>
    requires partition { partition ≡ partition_of_lem write.key }
    requires latest { HaveLatest (get key_cmp latest.old) groups.old.items }
    ensures groups { OnOk result (groups.new.items ≡ groups.old.items ++ (write ∷ []) ∷ []) }
    ensures latest { OnOk result (HaveLatest (get key_cmp latest.new) groups.new.items) }
{
    let group = alone(*groups.allocator(), write)?;
    latest.insert(partition, groups.len())?;
    groups.push(group)?;
    Ok(())
}

// Puts a write into the latest group of its partition, or into a new one.
fn place(
    groups: &mut Vec<Writes>,
    latest: &mut BTreeMap<Key, usize>,
    write: Write,
) -> Result<(), NoMemory>
    requires { HaveLatest (get key_cmp latest.old) groups.old.items }
    ensures groups { OnOk result (groups.new.items ≡ placed write groups.old.items) }
    ensures latest { OnOk result (HaveLatest (get key_cmp latest.new) groups.new.items) }
{
    let partition = partition_of(*groups.allocator(), &write.key)?;
    match index_of(latest, &partition) {
        Some(i) => {
            if groups[i].len() < MOST {
                return groups[i].push(write);
            }
        }
        None => {}
    }
    begin(groups, latest, partition, write)
}

// Whether a key is of a partition past the last one.
fn is_past(last: Option<&Key>, key: &Key) -> bool
    ensures { result ≡ is_past_lem (option_copied last.entry) key.now }
{
    match last {
        None => true,
        Some(last) => last
            .table
            .cmp(&key.table)
            .then(last.partition.cmp(&key.partition))
            .is_lt(),
    }
}

// Whether each write is of a partition past that of the write before it: then each is a group of its own.
fn rise(writes: &[Write]) -> bool
    ensures { result ≡ rise_from None writes.now }
{
    let mut last = None;
    for write in writes {
        if !is_past(last, &write.key) {
            return false;
        }
        last = Some(&write.key);
    }
    true
}

// A group of each write.
fn apart(alloc: Global, writes: &[Write]) -> Result<Groups, NoMemory>
    ensures { IfOk result (λ groups. groups ≡ map (λ w. w ∷ []) writes.now) }
{
    let mut groups = Seq::new(alloc);
    for write in writes {
        groups.push(alone(alloc, write.copy()?)?)?;
    }
    Ok(groups)
}

/// The writes in groups: one after the other, a write joins the latest group of its table and partition where that has fewer than 64 writes,
/// and otherwise begins a new group. It takes time in the order of n log n for n writes, whatever their partitions are.
pub fn grouped(writes: &Writes) -> Result<Groups, NoMemory>
    ensures { IfOk result (λ groups. groups ≡ grouped_lem writes.now) }
{
    if rise(writes.as_slice()) {
        return apart(writes.allocator(), writes.as_slice());
    }
    let mut groups = Vec::new(writes.allocator());
    let mut latest = BTreeMap::new(writes.allocator());
    for write in writes.as_slice() {
        place(&mut groups, &mut latest, write.copy()?)?;
    }
    Ok(Seq::from_vec(groups))
}
