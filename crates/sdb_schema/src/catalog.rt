//! Catalogs: tables by name.
ghost use Rattle.std.specs.Prelude.{◌≡◌, ◌<◌, ◌≤◌, ◌↔◌, [], length, true, false, not, nat_le, None, take_while, IfOk, IfErr, OnOk, OnErr, IfSome, IsErrOf};
ghost use Rattle.std.specs.Option.{option_copied};
ghost use Rattle.std.specs.Slice.{IsItemAt};
ghost use Rattle.std.specs.Ordering.{is_lt};
ghost use Rattle.sdb_types.specs.Order.{table_cmp};
ghost use Rattle.sdb_schema.specs.declared.catalog.AddRefused.TheVariants.{NoMemory as OutOfMemory};
ghost use Rattle.sdb_schema.specs.Added.{column_refused, number_of, with_column};
ghost use Rattle.sdb_schema.specs.Table.{is_table};
ghost use Rattle.sdb_schema.specs.Catalog.{table_named, has_table, with_table, is_called, is_catalog};

use crate::added::ColumnRefused;
use crate::table::{Column, Table};
use sdb_types::{Duplicate, NoMemory, Seq, TableName};
use std::alloc::Global;
use std::marker::Model;
use thiserror::Error;

/// Why a catalog refuses a table.
#[derive(Clone, Copy, Debug, PartialEq, Eq, Error)]
pub enum AddRefused {
    #[error("known table")]
    Known,
    /// There are 64 tables.
    #[error("too many tables")]
    TooMany,
    #[error("out of memory")]
    NoMemory,
}

impl From<NoMemory> for AddRefused {
    ghost from_gives = { λ _ e. e ≡ OutOfMemory };

    fn from(_e: NoMemory) -> AddRefused {
        AddRefused::NoMemory
    }
}

/// Tables in the order of their names, at most 64.
#[derive(Debug)]
pub struct Catalog {
    tables: Seq<Table>,
}

// By hand: each drop is then one call, where a derived one is written out at each exit, with a call for each field.
impl Drop for Catalog {
    fn drop(self) {
        let Catalog { tables: _ } = self;
    }
}

impl Model for Catalog {
    ghost use Rattle.std.specs.Prelude.{List, ◌≡◌, true};
    ghost use Rattle.sdb_schema.specs.declared.table.Table.{Table};
    ghost use Rattle.sdb_schema.specs.Catalog.{is_catalog};

    ghost Value = { List Table };

    ghost view = { λ c. c.tables };

    ghost invariant = { λ c. is_catalog c.tables ≡ true };
}

fn place_of(tables: &[Table], table: &Table) -> usize
    ensures { result ≡ length (take_while (λ t. is_lt (table_cmp t.name table.now.name)) tables.now) }
{
    tables
        .iter()
        .take_while(|other| other.name.cmp(&table.name).is_lt())
        .count()
}

fn knows(tables: &[Table], name: &TableName) -> bool
    ensures { result ≡ has_table tables.now name.now }
{
    tables.iter().any(|table| table.name.cmp(name).is_eq())
}

fn find_table<'a>(tables: &'a [Table], name: &TableName) -> Option<&'a Table>
    ensures { option_copied result ≡ table_named tables.now name.now }
{
    tables.iter().find(|table| table.name.cmp(name).is_eq())
}

fn put(tables: &mut Seq<Table>, table: Table) -> Result<(), NoMemory>
    ensures ok { OnOk result (tables.new ≡ with_table table tables.old) }
    ensures err { OnErr result (tables.new ≡ tables.old) }
{
    let place = place_of(tables.as_slice(), &table);
    tables.insert(place, table)
}

fn place(tables: &mut Seq<Table>, table: Table) -> Result<(), AddRefused>
    ensures ok { OnOk result (tables.new ≡ with_table table tables.old) }
    ensures err { OnErr result (tables.new ≡ tables.old) }
    ensures new { OnOk result (has_table tables.old table.name ≡ false) }
    ensures room { OnOk result (length tables.old < 64) }
    ensures known { IsErrOf result AddRefused.Known ↔ (has_table tables.old table.name ≡ true) }
    ensures too_many { IsErrOf result AddRefused.TooMany ↔ ((has_table tables.old table.name ≡ false) × (64 ≤ length tables.old)) }
{
    if knows(tables.as_slice(), &table.name) {
        return Err(AddRefused::Known);
    }
    if tables.len() >= 64 {
        return Err(AddRefused::TooMany);
    }
    put(tables, table)?;
    Ok(())
}

// How many tables come before the first of that name.
fn count_before(tables: &[Table], name: &TableName) -> usize
    ensures { result ≡ length (take_while (λ t. not (is_called name.now t)) tables.now) }
{
    tables
        .iter()
        .take_while(|table| !table.name.cmp(name).is_eq())
        .count()
}

// Adds a column to the table of that name.
fn grow(tables: &mut Seq<Table>, name: &TableName, column: &Column) -> Result<(), ColumnRefused>
    requires catalog { is_catalog tables.old ≡ true }
    requires short { nat_le (length column.now.name) 64 ≡ true }
    ensures ok { OnOk result (tables.new ≡ with_column tables.old name.now column.now) }
    ensures allowed { OnOk result (column_refused tables.old name.now column.now ≡ None) }
    ensures catalog { is_catalog tables.new ≡ true }
    ensures err { OnErr result (tables.new ≡ tables.old) }
    ensures refused { IfErr result (λ e. number_of e ≡ column_refused tables.old name.now column.now) }
{
    let place = count_before(tables.as_slice(), name);
    let Some(table) = find_table(tables.as_slice(), name) else {
        return Err(ColumnRefused::NoTable);
    };
    let grown = table.with_column(column)?;
    tables.replace(place, grown);
    Ok(())
}

impl Catalog {
    pub fn new(alloc: Global) -> Catalog
        ensures { result ≡ [] }
    {
        Catalog {
            tables: Seq::new(alloc),
        }
    }

    /// Adds a table, as `Table::new` gives it.
    pub fn add(&mut self, table: Table) -> Result<(), AddRefused>
        requires { is_table table ≡ true }
        ensures ok { OnOk result (self.new ≡ with_table table self.old) }
        ensures err { OnErr result (self.new ≡ self.old) }
        ensures known { IsErrOf result AddRefused.Known ↔ (has_table self.old table.name ≡ true) }
        ensures too_many { IsErrOf result AddRefused.TooMany ↔ ((has_table self.old table.name ≡ false) × (64 ≤ length self.old)) }
    {
        place(&mut self.tables, table)
    }

    /// Adds a column to a table, in its place. Its condition is that the name of the column has at most 64 bytes. A refusal leaves the
    /// catalog.
    pub fn add_column(&mut self, table: &TableName, column: Column) -> Result<(), ColumnRefused>
        requires { nat_le (length column.name) 64 ≡ true }
        ensures ok { OnOk result (self.new ≡ with_column self.old table.now column) }
        ensures allowed { OnOk result (column_refused self.old table.now column ≡ None) }
        ensures err { OnErr result (self.new ≡ self.old) }
        ensures refused { IfErr result (λ e. number_of e ≡ column_refused self.old table.now column) }
    {
        grow(&mut self.tables, table, &column)
    }

    /// The table of a name. Takes no memory.
    pub fn find(&self, name: &TableName) -> Option<&Table>
        ensures { option_copied result ≡ table_named self.now name.now }
    {
        find_table(self.tables.as_slice(), name)
    }

    pub fn len(&self) -> usize
        ensures len { result ≡ length self.now }
        ensures catalog { is_catalog self.now ≡ true }
    {
        self.tables.len()
    }

    /// The table at a place in the order of names.
    pub fn at(&self, i: usize) -> Option<&Table>
        ensures { IsItemAt self.now i result }
    {
        self.tables.at(i)
    }
}

impl Duplicate for Catalog {
    fn copy(&self) -> Result<Catalog, NoMemory> {
        Ok(Catalog {
            tables: self.tables.copy()?,
        })
    }
}
