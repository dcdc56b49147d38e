//! Keys and spans from constants.
use crate::cells::{Cell, values_of};
use sdb_types::{Key, Name, NameRefused, Span, TableName, Value, Values};
use std::alloc::Global;

/// A key as a constant.
#[derive(Clone, Copy)]
pub struct Place {
    pub ns: &'static str,
    pub table: &'static str,
    pub partition: &'static [Cell],
    pub clustering: &'static [Cell],
}

pub fn table_of(alloc: Global, ns: &str, table: &str) -> Result<TableName, NameRefused> {
    let ns = Name::new(alloc, ns)?;
    let table = Name::new(alloc, table)?;
    Ok(TableName { ns, table })
}

pub fn key_of(alloc: Global, place: Place) -> Result<Key, NameRefused> {
    let table = table_of(alloc, place.ns, place.table)?;
    let partition = values_of(alloc, place.partition)?;
    let clustering = values_of(alloc, place.clustering)?;
    Ok(Key {
        table,
        partition,
        clustering,
    })
}

fn number(alloc: Global, number: i32) -> Result<Values, NameRefused> {
    let mut values = Values::new(alloc);
    values.push(Value::Int(number))?;
    Ok(values)
}

/// The key of the account with this number.
pub fn account(alloc: Global, id: i32) -> Result<Key, NameRefused> {
    let table = table_of(alloc, "bank", "account")?;
    let partition = number(alloc, id)?;
    Ok(Key {
        table,
        partition,
        clustering: Values::new(alloc),
    })
}

/// The number of an account, by its key.
pub fn number_of(key: &Key) -> Option<i32> {
    match key.partition.at(0) {
        Some(Value::Int(number)) => Some(*number),
        _ => None,
    }
}

fn partition_of(
    alloc: Global,
    partition: Option<&'static [Cell]>,
) -> Result<Option<Values>, NameRefused> {
    match partition {
        Some(cells) => Ok(Some(values_of(alloc, cells)?)),
        None => Ok(None),
    }
}

/// The span of a table, or of one of its partitions.
pub fn span_of(
    alloc: Global,
    ns: &str,
    table: &str,
    partition: Option<&'static [Cell]>,
) -> Result<Span, NameRefused> {
    let table = table_of(alloc, ns, table)?;
    let partition = partition_of(alloc, partition)?;
    Ok(Span { table, partition })
}
