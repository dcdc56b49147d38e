//! What a statement makes of rows.
ghost use Rattle.std.specs.Prelude.{◌≡◌, true, IfOk, map, if◌then◌else◌};
ghost use Rattle.sdb_record.specs.declared.write.Change.TheVariants as change;
ghost use Rattle.sdb_schema.specs.Table.{rises};
ghost use Rattle.sdb_model.specs.Rows.{at_kind as at_kind_lem, literal_at as literal_at_lem, order_names};
ghost use Rattle.sdb_model.specs.Exec.{with_sets, with_named, literal_in, key_of};

use crate::column::columns_rise;
use crate::read::{fits_int, is_key_name, kind_of, value_beside};
use sdb_model::Insert;
use sdb_record::{Change, Changes, Image, Keyed};
use sdb_schema::{Kind, Order, Table, find_column_near};
use sdb_types::{Columns, Duplicate, Key, Name, NoMemory, Pair, Seq, Value, Values};
use std::alloc::Global;

// Where a column is looked for first: among those of the table as `find_column_near` does, and among those of a row as `set_near` does.
#[derive(Drop)]
struct Places {
    table: usize,
    row: usize,
}

fn at_kind(kind: Kind, literal: &Value) -> Result<Value, NoMemory>
    ensures { IfOk result (λ v. v ≡ at_kind_lem kind literal.now) }
{
    match (kind, literal) {
        (Kind::Int, Value::BigInt(n)) if fits_int(*n) => Ok(Value::Int(*n as i32)),
        _ => literal.copy(),
    }
}

/// A literal as a value of a column: a number, which a statement holds as a BigInt, is an Int in an INT column.
pub fn literal_at(table: &Table, name: &Name, literal: &Value) -> Result<Value, NoMemory>
    ensures { IfOk result (λ v. v ≡ literal_at_lem table.now name.now literal.now) }
{
    at_kind(kind_of(table, name), literal)
}

// The name and the value of a column of a row that a literal gives, of a table whose columns may be in order, and of a column that is looked
// for as `find_column_near` does. The name is the table's own, which all rows share.
fn column_near(
    table: &Table,
    rising: bool,
    place: &mut usize,
    name: &Name,
    literal: &Value,
) -> Result<(Name, Value), NoMemory>
    requires { rising ≡ true → rises table.now.columns ≡ true }
    ensures name { IfOk result (λ x. x.0 ≡ name.now) }
    ensures value { IfOk result (λ x. x.1 ≡ literal_at_lem table.now name.now literal.now) }
{
    match find_column_near(table.columns.as_slice(), rising, place, name) {
        Some(column) => Ok((column.name.copy()?, at_kind(column.kind, literal)?)),
        None => Ok((name.copy()?, at_kind(Kind::Text, literal)?)),
    }
}

fn put_sets(
    table: &Table,
    rising: bool,
    sets: &[Pair],
    columns: Columns,
) -> Result<Columns, NoMemory>
    requires { rising ≡ true → rises table.now.columns ≡ true }
    ensures { IfOk result (λ after. after ≡ with_sets table.now sets.now columns) }
{
    let mut columns = columns;
    let mut places = Places { table: 0, row: 0 };
    for pair in sets {
        let (name, value) = column_near(table, rising, &mut places.table, &pair.name, &pair.value)?;
        columns.set_near(&mut places.row, name, value)?;
    }
    Ok(columns)
}

/// The columns with each of the sets.
pub fn set_columns(table: &Table, sets: &[Pair], columns: Columns) -> Result<Columns, NoMemory>
    ensures { IfOk result (λ after. after ≡ with_sets table.now sets.now columns) }
{
    put_sets(table, columns_rise(table), sets, columns)
}

fn put_named(
    table: &Table,
    rising: bool,
    places: &mut Places,
    names: &[Name],
    values: &[Value],
    columns: Columns,
) -> Result<Columns, NoMemory>
    requires { rising ≡ true → rises table.now.columns ≡ true }
    ensures { IfOk result (λ after. after ≡ with_named table.now names.now values.now columns) }
{
    match (names.split_first(), values.split_first()) {
        (Some((name, ns)), Some((value, vs))) => {
            let mut columns = columns;
            if !is_key_name(table, name) {
                let (own, value) = column_near(table, rising, &mut places.table, name, value)?;
                columns.set_near(&mut places.row, own, value)?;
            }
            put_named(table, rising, places, ns, vs, columns)
        }
        _ => Ok(columns),
    }
}

/// The columns with each named user column set: those of the key are left out.
pub fn named_columns(
    table: &Table,
    names: &[Name],
    values: &[Value],
    columns: Columns,
) -> Result<Columns, NoMemory>
    ensures { IfOk result (λ after. after ≡ with_named table.now names.now values.now columns) }
{
    let mut places = Places { table: 0, row: 0 };
    put_named(
        table,
        columns_rise(table),
        &mut places,
        names,
        values,
        columns,
    )
}

fn literal_of(table: &Table, insert: &Insert, name: &Name) -> Result<Value, NoMemory>
    ensures { IfOk result (λ v. v ≡ literal_in table.now insert.now name.now) }
{
    match value_beside(
        insert.columns.as_slice(),
        insert.values.as_slice(),
        name,
        None,
    ) {
        Some(literal) => literal_at(table, name, literal),
        None => Ok(Value::Null),
    }
}

fn literals_of(
    alloc: Global,
    table: &Table,
    insert: &Insert,
    names: &[Name],
) -> Result<Values, NoMemory>
    ensures { IfOk result (λ values. values ≡ map (literal_in table.now insert.now) names.now) }
{
    let mut values = Values::new(alloc);
    for name in names {
        values.push(literal_of(table, insert, name)?)?;
    }
    Ok(values)
}

fn ordered_literals_of(
    alloc: Global,
    table: &Table,
    insert: &Insert,
    orders: &[Order],
) -> Result<Values, NoMemory>
    ensures { IfOk result (λ values. values ≡ map (literal_in table.now insert.now) (order_names orders.now)) }
{
    let mut values = Values::new(alloc);
    for order in orders {
        values.push(literal_of(table, insert, &order.name)?)?;
    }
    Ok(values)
}

/// The key of the row that an insert names.
pub fn inserted_key(alloc: Global, table: &Table, insert: &Insert) -> Result<Key, NoMemory>
    ensures { IfOk result (λ key. key ≡ key_of table.now insert.now) }
{
    Ok(Key {
        table: table.name.copy()?,
        partition: literals_of(alloc, table, insert, table.partition.as_slice())?,
        clustering: ordered_literals_of(alloc, table, insert, table.clustering.as_slice())?,
    })
}

/// The changes that set columns of rows, in the rows' order.
pub fn updates(
    alloc: Global,
    table: &Table,
    sets: &[Pair],
    rows: &[Image],
) -> Result<Changes, NoMemory>
    ensures { IfOk result (λ changes. changes ≡ map (λ r. record { key = r.key; change = change.Row (with_sets table.now sets.now r.columns) }) rows.now) }
{
    let rising = columns_rise(table);
    let mut changes = Seq::new(alloc);
    for row in rows {
        let columns = put_sets(table, rising, sets, row.columns.copy()?)?;
        changes.push(Keyed {
            key: row.key.copy()?,
            change: Change::Row(columns),
        })?;
    }
    Ok(changes)
}

/// The changes that delete rows, in the rows' order.
pub fn deletes(alloc: Global, rows: &[Image]) -> Result<Changes, NoMemory>
    ensures { IfOk result (λ changes. changes ≡ map (λ r. record { key = r.key; change = change.Delete }) rows.now) }
{
    let mut changes = Seq::new(alloc);
    for row in rows {
        changes.push(Keyed {
            key: row.key.copy()?,
            change: Change::Delete,
        })?;
    }
    Ok(changes)
}
