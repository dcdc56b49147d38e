//! The rows of a number of partitions in the read set of a snapshot, and one call of the snapshot again and again.
ghost use Rattle.std.specs.Prelude.{◌≡◌, ◌∷◌, [], IfSome};
ghost use Rattle.sdb_record.specs.Rolls.{IsBaseOf};

use crate::records::{columns_of, key_of, span_of, table};
use crate::words::number;
use sdb_record::{Change, Changes, Keyed, meta_of};
use sdb_snapshot::Snapshot;
use sdb_types::{Duplicate, Key, Record, Records, Span, TableName};
use std::alloc::Global;
use std::env::Args;

/// The call that is made.
#[derive(Clone, Copy)]
enum Call {
    Overlay,
    Lookup,
    Write,
    Scan,
}

/// So many partitions of so many rows, and how often the call is made.
#[derive(Clone, Copy)]
struct Load {
    call: Call,
    partitions: i64,
    rows: i64,
    turns: i64,
}

fn record_of(alloc: Global, key: &Key) -> Option<Record>
    ensures { IfSome result (λ rec. rec.key ≡ key.now) }
{
    let key = key.copy().ok()?;
    let columns = columns_of(alloc)?;
    Some(Record { key, columns })
}

// A committed record of a key.
fn committed(alloc: Global, key: &Key) -> Option<Record>
    ensures { IfSome result (IsBaseOf key.now) }
{
    let rec = record_of(alloc, key)?;
    match meta_of(alloc, &rec) {
        Ok(meta) if meta.is_committed() => Some(rec),
        _ => None,
    }
}

// Adds a committed record of a key to the read set, where the key was not read.
fn note(alloc: Global, seen: &mut Snapshot, key: Key) -> Option<()> {
    let rec = committed(alloc, &key)?;
    if seen.lookup(&key).is_none() {
        seen.note_get(key, Some(rec)).ok()?;
    }
    Some(())
}

fn note_partition(
    alloc: Global,
    table: &TableName,
    seen: &mut Snapshot,
    partition: i64,
    rows: i64,
) -> Option<()> {
    for row in 0..rows {
        note(alloc, seen, key_of(alloc, table, partition, row)?)?;
    }
    Some(())
}

fn recorded_read(alloc: Global, table: &TableName, load: Load) -> Option<Snapshot> {
    let mut seen = Snapshot::new(alloc);
    for partition in 0..load.partitions {
        note_partition(alloc, table, &mut seen, partition, load.rows)?;
    }
    Some(seen)
}

// How many rows of a span are seen.
fn rows_of(seen: &Snapshot, span: &Span) -> Option<usize> {
    let rows = seen.overlay_span(span).ok()?;
    Some(rows.len())
}

// The change that deletes a key.
fn deletion(alloc: Global, key: Key) -> Option<Changes>
    ensures { IfSome result (λ changes. changes ≡ record { key = key; change = Change.Delete } ∷ []) }
{
    let change = Change::Delete;
    let mut changes = Changes::new(alloc);
    changes.push(Keyed { key, change }).ok()?;
    Some(changes)
}

// Writes a key that was read, and returns how many keys are written.
fn write(alloc: Global, seen: &mut Snapshot, key: Key) -> Option<usize> {
    if seen.lookup(&key).is_some() {
        let changes = deletion(alloc, key)?;
        seen.write(changes).ok()?;
    }
    Some(seen.writes().len())
}

// Adds a scan that found no row to the read set, where the span was not scanned, and returns how many scans are in it.
fn scan(alloc: Global, seen: &mut Snapshot, span: Span) -> Option<usize> {
    if !seen.scanned(&span) {
        seen.note_scan(span, Records::new(alloc)).ok()?;
    }
    Some(seen.scans().len())
}

// Makes the call at a partition, or at its first row.
fn make(
    alloc: Global,
    table: &TableName,
    seen: &mut Snapshot,
    call: Call,
    partition: i64,
) -> Option<usize> {
    match call {
        Call::Overlay => rows_of(seen, &span_of(alloc, table, partition)?),
        Call::Lookup => Some(usize::from(
            seen.lookup(&key_of(alloc, table, partition, 0)?).is_some(),
        )),
        Call::Write => write(alloc, seen, key_of(alloc, table, partition, 0)?),
        Call::Scan => scan(alloc, seen, span_of(alloc, table, partition)?),
    }
}

// The partition whose turn is next.
fn after(partition: i64, partitions: i64) -> i64 {
    let last = partitions.saturating_sub(1);
    if partition < last { partition + 1 } else { 0 }
}

// Goes through the partitions, one call a turn, and returns what the last call returned.
fn play_turns(alloc: Global, load: Load) -> Option<usize> {
    let table = table(alloc)?;
    let mut seen = recorded_read(alloc, &table, load)?;
    let mut last = 0;
    let mut partition = 0;
    for _ in 0..load.turns {
        last = make(alloc, &table, &mut seen, load.call, partition)?;
        partition = after(partition, load.partitions);
    }
    Some(last)
}

fn call_of(word: &str) -> Option<Call> {
    match word {
        "overlay" => Some(Call::Overlay),
        "lookup" => Some(Call::Lookup),
        "write" => Some(Call::Write),
        "scan" => Some(Call::Scan),
        _ => None,
    }
}

fn load_of(call: Call, words: &mut Args) -> Option<Load> {
    let partitions = number(words)?;
    let rows = number(words)?;
    let turns = number(words)?;
    Some(Load {
        call,
        partitions,
        rows,
        turns,
    })
}

/// Plays the load of the words: the call, the partitions, the rows of each, and the turns. A scan finds no row, so its
/// partitions are to have none.
pub fn play(alloc: Global, words: &mut Args) -> Option<usize> {
    let call = call_of(words.next()?.as_str())?;
    play_turns(alloc, load_of(call, words)?)
}
