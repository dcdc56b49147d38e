//! The rows of all tables of a catalog.
ghost use Rattle.std.specs.Prelude.{◌≡◌, IfOk, OnOk, map, drop};
ghost use Rattle.std.specs.Option.{option_copied};
ghost use Rattle.std.specs.FinMap as finite;
ghost use Rattle.std.specs.BTreeMap.{IsOrdered};
ghost use Rattle.sdb_types.specs.Order.{key_cmp};
ghost use Rattle.sdb_model.specs.Exec.{all_rows, row_of_entry, tables_of_rows};

use sdb_record::{Image, Images};
use sdb_types::{Columns, Duplicate, Key, NoMemory, Seq};
use std::alloc::Global;
use std::collections::BTreeMap;
use std::marker::Model;

/// Plain tables: rows by key, a key naming its table, seen as a finite map from key to user columns.
pub struct PlainTables {
    alloc: Global,
    rows: BTreeMap<Key, Columns>,
}

// By hand: each drop is then one call, where a derived one is written out at each exit, with a call for each field.
impl Drop for PlainTables {
    fn drop(self) {
        let PlainTables { alloc: _, rows: _ } = self;
    }
}

impl Model for PlainTables {
    ghost use Rattle.std.specs.FinMap as finite;
    ghost use Rattle.sdb_types.specs.Contents.{Contents};
    ghost use Rattle.sdb_store.specs.HeldCode.{coded_contents};

    ghost Value = { Contents };

    ghost coded = { coded_contents };

    ghost view = { λ t. finite.from_entries t.rows.entries };
}

// The rows of a tree, in the order of their keys.
fn rows_of(alloc: Global, rows: &BTreeMap<Key, Columns>) -> Result<Images, NoMemory>
    ensures rows { IfOk result (λ found. found ≡ map row_of_entry rows.now.entries) }
    ensures ordered { OnOk result (IsOrdered key_cmp rows.now) }
{
    let mut found = Seq::new(alloc);
    for (key, columns) in rows.iter() {
        found.push(Image {
            key: key.copy()?,
            columns: columns.copy()?,
        })?;
    }
    Ok(found)
}

impl PlainTables {
    /// No rows.
    pub fn new(alloc: Global) -> PlainTables
        ensures { result ≡ finite.empty }
    {
        PlainTables {
            alloc,
            rows: BTreeMap::new(alloc),
        }
    }

    /// The user columns of the row of a key, if it has one.
    pub fn find(&self, key: &Key) -> Option<&Columns>
        ensures { option_copied result ≡ finite.get self.now key.now }
    {
        self.rows.get(key)
    }

    /// All rows, in the order of their keys.
    pub fn all(&self) -> Result<Images, NoMemory>
        ensures { IfOk result (λ rows. rows ≡ all_rows self.now) }
    {
        rows_of(self.alloc, &self.rows)
    }

    /// With a row at a key, in place of the one that was there.
    pub fn put(&mut self, key: Key, columns: Columns) -> Result<(), NoMemory>
        ensures { OnOk result (self.new ≡ finite.insert self.old key columns) }
    {
        self.rows.insert(key, columns)?;
        Ok(())
    }

    /// The tables that have these rows. Of rows with one key the first counts.
    pub fn of_rows(alloc: Global, rows: &[Image]) -> Result<PlainTables, NoMemory>
        ensures { IfOk result (λ tables. tables ≡ tables_of_rows rows.now) }
    {
        let mut tables = PlainTables::new(alloc);
        let mut i = rows.len();
        while i > 0 {
            i -= 1;
            let row = &rows[i];
            tables.put(row.key.copy()?, row.columns.copy()?)?;
        }
        Ok(tables)
    }
}
