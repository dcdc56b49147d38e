//! Rows that a table takes.
ghost use Rattle.std.specs.Prelude.{◌≡◌, ◌∷◌, true, None, not, ◌&&◌, OnOk, IfErr, find, is_none};
ghost use Rattle.std.specs.Option.{option_copied, option_map};
ghost use Rattle.std.specs.List.{list_all, list_any};
ghost use Rattle.sdb_record.specs.Names.{same_name};
ghost use Rattle.sdb_types.specs.Columns.{column};
ghost use Rattle.sdb_schema.specs.declared.row.RowRefused.TheVariants.{NoMemory as OutOfMemory};
ghost use Rattle.sdb_schema.specs.Table.{is_key_column, kind_in, key_names, order_names, rises};
ghost use Rattle.sdb_schema.specs.Rows.{is_of_kind, is_in_range, is_of_column, is_value_of, are_values_of, null_in_key, wrong_type_among, out_of_range, row_refusal, is_stored_in, fits_table, RefusesRow};

use crate::column::{all_rise, find_column_near};
use crate::make::is_listed;
use crate::table::{Column, Kind, Order, Table};
use sdb_types::{Columns, Duplicate, Key, Name, NoMemory, Pair, Value};
use thiserror::Error;

/// Why a row is refused: each names the first column in name order.
#[derive(Debug, Drop, Error)]
pub enum RowRefused {
    #[error("null in key")]
    NullInKey(Name),
    #[error("wrong type")]
    WrongType(Name),
    #[error("out of range")]
    OutOfRange(Name),
    #[error("out of memory")]
    NoMemory,
}

impl From<NoMemory> for RowRefused {
    ghost from_gives = { λ _ e. e ≡ OutOfMemory };

    fn from(_e: NoMemory) -> RowRefused {
        RowRefused::NoMemory
    }
}

const LARGEST: i64 = 9_007_199_254_740_992;

// The columns of up to as many values as this are found sooner by going through a table's columns.
const FEW: usize = 8;

fn has_kind(kind: Kind, value: &Value) -> bool
    ensures { result ≡ is_of_kind kind value.now }
{
    match (kind, value) {
        (Kind::Boolean, Value::Bool(_)) => true,
        (Kind::Int, Value::Int(_)) => true,
        (Kind::BigInt, Value::BigInt(_)) => true,
        (Kind::Text, Value::Text(_)) => true,
        (Kind::Blob, Value::Blob(_)) => true,
        _ => false,
    }
}

fn is_in_its_range(value: &Value) -> bool
    ensures { result ≡ is_in_range value.now }
{
    match value {
        Value::BigInt(n) => *n >= -LARGEST && *n <= LARGEST,
        _ => true,
    }
}

// The kind of a column, or none where the table lacks it. The column is looked for as `find_column_near` does.
fn kind_of(columns: &[Column], rising: bool, place: &mut usize, name: &Name) -> Option<Kind>
    requires { rising ≡ true → rises columns.now ≡ true }
    ensures { result ≡ kind_in columns.now name.now }
{
    find_column_near(columns, rising, place, name).map(|column| column.kind)
}

fn suits(columns: &[Column], rising: bool, place: &mut usize, name: &Name, value: &Value) -> bool
    requires { rising ≡ true → rises columns.now ≡ true }
    ensures { result ≡ is_of_column columns.now name.now value.now }
{
    match kind_of(columns, rising, place, name) {
        Some(kind) => has_kind(kind, value),
        None => false,
    }
}

fn orders_by(orders: &[Order], name: &Name) -> bool
    ensures { result ≡ list_any (λ o. same_name name.now o.name) orders.now }
{
    orders.iter().any(|order| name.is_same(&order.name))
}

impl Table {
    ghost use Rattle.std.specs.Prelude.{◌≡◌};
    ghost use Rattle.sdb_schema.specs.Table.{is_key_column};

    /// Whether a column is of the primary key.
    pub fn has_in_key(&self, name: &Name) -> bool
        ensures { result ≡ is_key_column self.now name.now }
    {
        is_listed(self.partition.as_slice(), name) || orders_by(self.clustering.as_slice(), name)
    }
}

fn is_absent(row: &Columns, name: &Name) -> bool
    ensures { result ≡ is_none (column row.now name.now) }
{
    row.get(name).is_none()
}

fn find_null<'a>(table: &'a Table, row: &Columns) -> Option<&'a Name>
    ensures { option_copied result ≡ null_in_key table.now row.now }
{
    table
        .columns
        .as_slice()
        .iter()
        .find(|column| table.has_in_key(&column.name) && is_absent(row, &column.name))
        .map(|column| &column.name)
}

fn find_wrong<'a>(columns: &[Column], row: &'a Columns) -> Option<&'a Name>
    ensures { option_copied result ≡ wrong_type_among columns.now row.now }
{
    row.pairs()
        .iter()
        .find(|pair| !suits(columns, false, &mut 0, &pair.name, &pair.value))
        .map(|pair| &pair.name)
}

fn find_outside(row: &Columns) -> Option<&Name>
    ensures { option_copied result ≡ out_of_range row.now }
{
    row.pairs()
        .iter()
        .find(|pair| !is_in_its_range(&pair.value))
        .map(|pair| &pair.name)
}

fn is_value(columns: &[Column], rising: bool, place: &mut usize, name: &Name, value: &Value) -> bool
    requires { rising ≡ true → rises columns.now ≡ true }
    ensures { result ≡ is_value_of columns.now name.now value.now }
{
    suits(columns, rising, place, name, value) && is_in_its_range(value)
}

fn is_stored(table: &Table, rising: bool, place: &mut usize, pair: &Pair) -> bool
    requires { rising ≡ true → rises table.now.columns ≡ true }
    ensures { result ≡ is_stored_in table.now pair.now }
{
    !table.has_in_key(&pair.name)
        && is_value(
            table.columns.as_slice(),
            rising,
            place,
            &pair.name,
            &pair.value,
        )
}

// Whether the columns of a row are found by their places: where the table's columns are known to rise, or where there are many and those
// are found to.
fn uses_places(table: &Table, rising: bool, pairs: &[Pair]) -> bool
    requires { rising ≡ true → rises table.now.columns ≡ true }
    ensures { result ≡ true → rises table.now.columns ≡ true }
{
    if rising {
        return true;
    }
    pairs.len() > FEW && all_rise(table.columns.as_slice())
}

fn all_stored(table: &Table, rising: bool, pairs: &[Pair]) -> bool
    requires { rising ≡ true → rises table.now.columns ≡ true }
    ensures { result ≡ list_all (is_stored_in table.now) pairs.now }
{
    let rising = uses_places(table, rising, pairs);
    let mut place = 0;
    for pair in pairs {
        if !is_stored(table, rising, &mut place, pair) {
            return false;
        }
    }
    true
}

fn are_values(columns: &[Column], names: &[Name], values: &[Value]) -> bool
    ensures { result ≡ are_values_of columns.now names.now values.now }
{
    match (names.split_first(), values.split_first()) {
        (None, None) => true,
        (Some((name, names)), Some((value, values))) => {
            is_value(columns, false, &mut 0, name, value) && are_values(columns, names, values)
        }
        _ => false,
    }
}

fn are_ordered_values(columns: &[Column], orders: &[Order], values: &[Value]) -> bool
    ensures { result ≡ are_values_of columns.now (order_names orders.now) values.now }
{
    match (orders.split_first(), values.split_first()) {
        (None, None) => true,
        (Some((order, orders)), Some((value, values))) => {
            is_value(columns, false, &mut 0, &order.name, value)
                && are_ordered_values(columns, orders, values)
        }
        _ => false,
    }
}

impl Table {
    ghost use Rattle.std.specs.Prelude.{◌≡◌, true, None, OnOk, IfErr};
    ghost use Rattle.sdb_schema.specs.Table.{rises};
    ghost use Rattle.sdb_schema.specs.Rows.{row_refusal, RefusesRow, fits_table};

    /// Whether a row, by its columns' names, is one of the table: each column of the key has a value, and each value is of
    /// its column's kind and in its range. Its condition is that each name is a column of the table.
    pub fn check_row(&self, row: &Columns) -> Result<(), RowRefused>
        ensures ok { OnOk result (row_refusal self.now row.now ≡ None) }
        ensures refused { IfErr result (RefusesRow (row_refusal self.now row.now)) }
    {
        if let Some(name) = find_null(self, row) {
            return Err(RowRefused::NullInKey(name.copy()?));
        }
        if let Some(name) = find_wrong(self.columns.as_slice(), row) {
            return Err(RowRefused::WrongType(name.copy()?));
        }
        if let Some(name) = find_outside(row) {
            return Err(RowRefused::OutOfRange(name.copy()?));
        }
        Ok(())
    }

    /// Whether a stored row fits the table: its key has a value of each column of the primary key, and each stored column
    /// is one of the table outside its primary key. Takes no memory.
    pub fn fits(&self, row_key: &Key, columns: &Columns) -> bool
        ensures { result ≡ fits_table self.now row_key.now columns.now }
    {
        self.fits_where(false, row_key, columns)
    }

    /// Whether a stored row fits the table, as `fits` says. That the table's columns are in the order of their names is looked at once for many
    /// rows, and `rising` says that it's known. Takes no memory.
    pub fn fits_where(&self, rising: bool, row_key: &Key, columns: &Columns) -> bool
        requires { rising ≡ true → rises self.now.columns ≡ true }
        ensures { result ≡ fits_table self.now row_key.now columns.now }
    {
        let listed = self.columns.as_slice();
        are_values(
            listed,
            self.partition.as_slice(),
            row_key.partition.as_slice(),
        ) && are_ordered_values(
            listed,
            self.clustering.as_slice(),
            row_key.clustering.as_slice(),
        ) && all_stored(self, rising, columns.pairs())
    }
}
