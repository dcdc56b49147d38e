//! Schemas that are accepted, each with the catalog that it describes.
use sdb_loader::catalog_of;
use sdb_schema::{Catalog, Column, Direction, Kind, Order, Table};
use sdb_types::{Name, TableName};
use std::alloc::{AllocError, Global};
use std::test::Fail;
use test_builders::{Case, all_cases};

fn kind_text(kind: Kind) -> &'static str {
    match kind {
        Kind::Boolean => ":BOOLEAN",
        Kind::Int => ":INT",
        Kind::BigInt => ":BIGINT",
        Kind::Text => ":TEXT",
        Kind::Blob => ":BLOB",
    }
}

fn put_names(out: &mut String, names: &[Name], before: &str) -> Result<(), AllocError> {
    for name in names {
        out.push_str(before)?;
        out.push_str(name.as_str())?;
    }
    Ok(())
}

fn mark(direction: Direction) -> &'static str {
    match direction {
        Direction::Asc => " +",
        Direction::Desc => " -",
    }
}

fn put_orders(out: &mut String, orders: &[Order]) -> Result<(), AllocError> {
    for order in orders {
        out.push_str(mark(order.direction))?;
        out.push_str(order.name.as_str())?;
    }
    Ok(())
}

fn put_column(out: &mut String, column: &Column) -> Result<(), AllocError> {
    out.push_str(" ")?;
    out.push_str(column.name.as_str())?;
    out.push_str(kind_text(column.kind))
}

fn put_columns(out: &mut String, columns: &[Column]) -> Result<(), AllocError> {
    for column in columns {
        put_column(out, column)?;
    }
    Ok(())
}

fn put_name(out: &mut String, name: &TableName) -> Result<(), AllocError> {
    out.push_str(name.ns.as_str())?;
    out.push_str(".")?;
    out.push_str(name.table.as_str())
}

fn put_key(out: &mut String, table: &Table) -> Result<(), AllocError> {
    put_name(out, &table.name)?;
    put_names(out, table.partition.as_slice(), " ")?;
    put_orders(out, table.clustering.as_slice())
}

// A table: its name, its key, its columns with their kinds, and the columns that are indexed.
fn put_table(out: &mut String, table: &Table) -> Result<(), AllocError> {
    put_key(out, table)?;
    out.push_str(" |")?;
    put_columns(out, table.columns.as_slice())?;
    put_names(out, table.indexed.as_slice(), " index:")
}

fn put_catalog(out: &mut String, catalog: &Catalog) -> Result<(), AllocError> {
    for i in 0..catalog.len() {
        if let Some(table) = catalog.at(i) {
            put_table(out, table)?;
            out.push_str(";")?;
        }
    }
    Ok(())
}

// The catalog that a text describes.
fn catalog_text(alloc: Global, json: &str) -> Result<String, Fail> {
    let catalog = catalog_of(alloc, json.as_bytes())?;
    let mut out = String::new(alloc);
    put_catalog(&mut out, &catalog)?;
    Ok(out)
}

// A text, and the catalog that it describes.
#[derive(Clone, Copy)]
struct Taken(&'static str, &'static str);

impl Case for Taken {
    fn holds(self, alloc: Global) -> Result<bool, Fail> {
        Ok(catalog_text(alloc, self.0)?.as_str() == self.1)
    }
}

static TAKEN: [Taken; 6] = [
    Taken(
        "{\"bank.account\":{\"partition-key\":[\"id\"],\"columns\":{\"id\":\"INT\",\"balance\":\"INT\"}}}",
        "bank.account id | balance:INT id:INT;",
    ),
    Taken(
        "{\"bank.account\":{\"transaction\":true,\"partition-key\":[\"id\"],\"clustering-key\":[],\"columns\":{\"id\":\"INT\",\"balance\":\"INT\"},\"compaction-strategy\":\"LCS\"},\"shop.orders\":{\"transaction\":true,\"partition-key\":[\"customer\"],\"clustering-key\":[\"placed DESC\"],\"columns\":{\"customer\":\"INT\",\"placed\":\"BIGINT\",\"note\":\"TEXT\"},\"secondary-index\":[\"note\"]}}",
        "bank.account id | balance:INT id:INT;shop.orders customer -placed | customer:INT note:TEXT placed:BIGINT index:note;",
    ),
    Taken(
        "{\"b.a\":{\"columns\":{\"k\":\"boolean\",\"l\":\"Blob\"},\"partition-key\":[\"k\"],\"clustering-key\":[\"l asc\"]},\"a.b\":{\"columns\":{\"k\":\"text\"},\"partition-key\":[\"k\"]}}",
        "a.b k | k:TEXT;b.a k +l | k:BOOLEAN l:BLOB;",
    ),
    Taken(
        "{\"a.b\":{\"columns\":{\"k\":\"FLOAT\"},\"columns\":{\"k\":\"FLOAT\",\"k\":\"INT\"},\"partition-key\":[\"k\"]}}",
        "a.b k | k:INT;",
    ),
    Taken(
        "{\"a.b\":1,\"a.b\":{\"columns\":{\"k\":\"INT\"},\"partition-key\":[\"k\"]}}",
        "a.b k | k:INT;",
    ),
    Taken("{}", ""),
];

#[test]
fn schemas_describe_their_catalogs(rt: HostRuntime) -> Result<(), Fail> {
    all_cases(rt.alloc(), "taken", TAKEN.as_slice())
}
