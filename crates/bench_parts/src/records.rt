//! Committed records of the table `shop.item`, which the benches share.
use sdb_types::{Columns, Duplicate, Key, Name, Span, TableName, TxId, Value, Values};
use std::alloc::Global;

/// The transaction that left all records.
pub const ID: TxId = TxId(0x1_0000_0000_0000_0001);

pub fn table(alloc: Global) -> Option<TableName> {
    let ns = Name::new(alloc, "shop").ok()?;
    let table = Name::new(alloc, "item").ok()?;
    Some(TableName { ns, table })
}

fn values(alloc: Global, number: i64) -> Option<Values> {
    let mut values = Values::new(alloc);
    values.push(Value::BigInt(number)).ok()?;
    Some(values)
}

/// The key of a row of a partition. It shares the names of its table, as the keys of statements do.
pub fn key_of(alloc: Global, table: &TableName, partition: i64, row: i64) -> Option<Key> {
    let table = table.copy().ok()?;
    let partition = values(alloc, partition)?;
    let clustering = values(alloc, row)?;
    Some(Key {
        table,
        partition,
        clustering,
    })
}

/// The span of a partition.
pub fn span_of(alloc: Global, table: &TableName, partition: i64) -> Option<Span> {
    let table = table.copy().ok()?;
    let partition = values(alloc, partition)?;
    Some(Span {
        table,
        partition: Some(partition),
    })
}

fn set(alloc: Global, columns: &mut Columns, name: &str, value: Value) -> Option<()> {
    let name = Name::new(alloc, name).ok()?;
    columns.set(name, value).ok()
}

fn set_id(alloc: Global, columns: &mut Columns) -> Option<()> {
    let id = ID.text(alloc).ok()?;
    set(alloc, columns, "tx_id", Value::Text(id))
}

fn set_numbers(alloc: Global, columns: &mut Columns) -> Option<()> {
    for (name, number) in [("qty", 1), ("tx_state", 3), ("tx_version", 1)] {
        set(alloc, columns, name, Value::Int(number))?;
    }
    Some(())
}

fn set_moments(alloc: Global, columns: &mut Columns) -> Option<()> {
    for name in ["tx_prepared_at", "tx_committed_at"] {
        set(alloc, columns, name, Value::BigInt(0))?;
    }
    Some(())
}

/// The columns of a committed record.
pub fn columns_of(alloc: Global) -> Option<Columns> {
    let mut columns = Columns::new(alloc);
    set_id(alloc, &mut columns)?;
    set_numbers(alloc, &mut columns)?;
    set_moments(alloc, &mut columns)?;
    Some(columns)
}
