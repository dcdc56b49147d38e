//! The selected values of rows.
ghost use Rattle.std.specs.Prelude.{◌≡◌, IfOk, Some, map};
ghost use Rattle.sdb_model.specs.Rows.{value_of};
ghost use Rattle.sdb_model.specs.Exec.{cut as cut_lem, projected_names as projected_names_lem};

use crate::read::value_at;
use sdb_model::Rows;
use sdb_record::Image;
use sdb_schema::{Column, Table};
use sdb_types::{Duplicate, Name, Names, NoMemory, Value, Values};
use std::alloc::Global;

fn names_of_columns(alloc: Global, columns: &[Column]) -> Result<Names, NoMemory>
    ensures { IfOk result (λ names. names ≡ map (λ c. c.name) columns.now) }
{
    let mut names = Names::new(alloc);
    for column in columns {
        names.push(column.name.copy()?)?;
    }
    Ok(names)
}

/// The columns that a SELECT names, for `*` all in name order.
pub fn projected_names(
    alloc: Global,
    table: &Table,
    columns: &Option<Names>,
) -> Result<Names, NoMemory>
    ensures { IfOk result (λ names. names ≡ projected_names_lem table.now columns.now) }
{
    match columns {
        Some(names) => names.copy(),
        None => names_of_columns(alloc, table.columns.as_slice()),
    }
}

fn value_or_null(table: &Table, row: &Image, name: &Name) -> Result<Value, NoMemory>
    ensures { IfOk result (λ v. v ≡ value_of table.now row.now name.now) }
{
    match value_at(table, row, name) {
        Some(value) => value.copy(),
        None => Ok(Value::Null),
    }
}

/// What a row gives the columns of these names.
pub fn observed(
    alloc: Global,
    table: &Table,
    names: &[Name],
    row: &Image,
) -> Result<Values, NoMemory>
    ensures { IfOk result (λ values. values ≡ map (value_of table.now row.now) names.now) }
{
    let mut values = Values::new(alloc);
    for name in names {
        values.push(value_or_null(table, row, name)?)?;
    }
    Ok(values)
}

/// What rows give the columns of these names, in the rows' order.
pub fn projected_all(
    alloc: Global,
    table: &Table,
    names: &[Name],
    rows: &[Image],
) -> Result<Rows, NoMemory>
    ensures { IfOk result (λ found. found ≡ map (λ r. map (value_of table.now r) names.now) rows.now) }
{
    let mut found = Rows::new(alloc);
    for row in rows {
        found.push(observed(alloc, table, names, row)?)?;
    }
    Ok(found)
}

// The first n rows.
fn first(n: i64, rows: &[Image]) -> &[Image]
    ensures { result.now ≡ cut_lem (Some n) rows.now }
{
    let all = rows.len();
    if n < 0 {
        return &[];
    }
    let count = n as u64;
    if count < all as u64 {
        &rows[..count as usize]
    } else {
        rows
    }
}

/// The first rows, as many as a limit lets pass, or all where there is none.
pub fn cut(limit: Option<i64>, rows: &[Image]) -> &[Image]
    ensures { result.now ≡ cut_lem limit rows.now }
{
    match limit {
        None => rows,
        Some(n) => first(n, rows),
    }
}
