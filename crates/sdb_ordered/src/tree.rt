//! Records in the order of their keys.
ghost use Rattle.std.specs.Prelude.{◌≡◌, false, IfOk, OnOk, OnErr, None};
ghost use Rattle.std.specs.Option.{option_copied, option_map};
ghost use Rattle.std.specs.FinMap as map;
ghost use Rattle.std.specs.BTreeMap.{IsOrdered};
ghost use Rattle.sdb_types.specs.Order.{key_cmp};
ghost use Rattle.sdb_ordered.specs.Start.{span_start};
ghost use Rattle.sdb_types.specs.declared.record.Condition.TheVariants.{Absent};
ghost use Rattle.sdb_types.specs.declared.record.Request.TheVariants.{PutIf};
ghost use Rattle.sdb_store.specs.Store.{Answers};
ghost use Rattle.sdb_types.specs.Contents.{holds, record_at, record_of, rows_in, rows_among};

use sdb_store::{Rows, holds_of_columns};
use sdb_types::{
    Columns, Condition, Duplicate, Key, NoMemory, Record, Records, Reply, Seq, Span, Values,
};
use std::alloc::Global;
use std::collections::BTreeMap;
use std::collections::btree_map::Entry;
use std::marker::Model;

/// A tree from key to columns, seen as what it holds.
pub struct Tree {
    alloc: Global,
    rows: BTreeMap<Key, Columns>,
}

// By hand: each drop is then one call, where a derived one is written out at each exit, with a call for each field.
impl Drop for Tree {
    fn drop(self) {
        let Tree { alloc: _, rows: _ } = self;
    }
}

impl Model for Tree {
    ghost use Rattle.std.specs.FinMap as map;
    ghost use Rattle.sdb_types.specs.Contents.{Contents};
    ghost use Rattle.sdb_store.specs.HeldCode.{coded_contents};

    ghost Value = { Contents };

    ghost coded = { coded_contents };

    ghost view = { λ t. map.from_entries t.rows.entries };
}

/// The least key that a span may contain. Each key of the span is at it or after it.
pub fn least_key(alloc: Global, span: &Span) -> Result<Key, NoMemory>
    ensures { IfOk result (λ key. key ≡ span_start span.now) }
{
    let partition = match &span.partition {
        Some(partition) => partition.copy()?,
        None => Values::new(alloc),
    };
    Ok(Key {
        table: span.table.copy()?,
        partition,
        clustering: Values::new(alloc),
    })
}

// The record of an entry of a tree.
fn copied(key: &Key, columns: &Columns) -> Result<Record, NoMemory>
    ensures { IfOk result (λ rec. rec ≡ record { key = key.now; columns = columns.now }) }
{
    Ok(Record {
        key: key.copy()?,
        columns: columns.copy()?,
    })
}

// The record of what is at a key, if anything is.
fn record_of_found(key: &Key, found: Option<&Columns>) -> Result<Option<Record>, NoMemory>
    ensures { IfOk result (λ rec. rec ≡ option_map (λ columns. record_of (key.now, columns)) (option_copied found.entry)) }
{
    match found {
        Some(columns) => Ok(Some(copied(key, columns)?)),
        None => Ok(None),
    }
}

// The records of a span among the entries of a tree: they come together, from the span's least key on.
fn rows_of(alloc: Global, rows: &BTreeMap<Key, Columns>, span: &Span) -> Result<Records, NoMemory>
    ensures rows { IfOk result (λ found. found ≡ rows_among span.now rows.now.entries) }
    ensures ordered { OnOk result (IsOrdered key_cmp rows.now) }
{
    let start = least_key(alloc, span)?;
    let mut found = Seq::new(alloc);
    for (key, columns) in rows.range(start..) {
        if !span.contains(key) {
            break;
        }
        found.push(copied(key, columns)?)?;
    }
    Ok(found)
}

// Puts a record at its key, where nothing is there. One search finds the place.
fn put_first(rows: &mut BTreeMap<Key, Columns>, rec: &Record) -> Result<Reply, NoMemory>
    ensures ok { IfOk result (λ reply. Answers (PutIf rec.now Absent) reply (map.from_entries rows.old.entries) (map.from_entries rows.new.entries)) }
    ensures err { OnErr result (rows.new.entries ≡ rows.old.entries) }
{
    let columns = rec.columns.copy()?;
    match rows.entry(rec.key.copy()?)? {
        Entry::Occupied(entry) => Ok(Reply::NotMet(Some(copied(&rec.key, entry.get())?))),
        Entry::Vacant(entry) => {
            entry.insert_entry(columns);
            Ok(Reply::Applied)
        }
    }
}

// Puts a record over the version at its key. One search finds the place, and no record is copied where the condition holds.
fn put_over(
    rows: &mut BTreeMap<Key, Columns>,
    rec: &Record,
    condition: &Condition,
) -> Result<Reply, NoMemory>
    requires { holds condition.now None ≡ false }
    ensures ok { IfOk result (λ reply. Answers (PutIf rec.now condition.now) reply (map.from_entries rows.old.entries) (map.from_entries rows.new.entries)) }
    ensures err { OnErr result (rows.new.entries ≡ rows.old.entries) }
{
    let columns = rec.columns.copy()?;
    match rows.get_mut(&rec.key) {
        Some(found) => {
            if !holds_of_columns(condition, Some(found)) {
                return Ok(Reply::NotMet(Some(copied(&rec.key, found)?)));
            }
            *found = columns;
            Ok(Reply::Applied)
        }
        None => Ok(Reply::NotMet(None)),
    }
}

impl Rows for Tree {
    ghost contents = { λ t. t };

    fn new(alloc: Global) -> Tree {
        Tree {
            alloc,
            rows: BTreeMap::new(alloc),
        }
    }

    fn find(&self, key: &Key) -> Result<Option<Record>, NoMemory> {
        record_of_found(key, self.rows.get(key))
    }

    fn list(&self, span: &Span) -> Result<Records, NoMemory> {
        rows_of(self.alloc, &self.rows, span)
    }

    fn insert(&mut self, rec: Record) -> Result<(), NoMemory> {
        let columns = rec.columns.copy()?;
        let key = rec.into_key();
        self.rows.insert(key, columns)?;
        Ok(())
    }

    fn replace(&mut self, rec: Record) {
        let (key, columns) = rec.into_parts();
        match self.rows.get_mut(&key) {
            Some(found) => {
                *found = columns;
            }
            None => {}
        }
    }

    fn remove(&mut self, key: &Key) {
        self.rows.remove(key);
    }

    fn put(&mut self, rec: &Record, condition: &Condition) -> Result<Reply, NoMemory> {
        match condition {
            Condition::Absent => put_first(&mut self.rows, rec),
            Condition::Version(_, _) => put_over(&mut self.rows, rec, condition),
        }
    }

    fn delete(&mut self, key: &Key, condition: &Condition) -> Result<Reply, NoMemory> {
        let found = self.rows.get(key);
        if !holds_of_columns(condition, found) {
            return Ok(Reply::NotMet(record_of_found(key, found)?));
        }
        self.rows.remove(key);
        Ok(Reply::Applied)
    }
}
