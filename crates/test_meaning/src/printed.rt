//! Statements that are printed.
use sdb_model::{Comparison, Delete, Insert, Statement, Test, Tests};
use sdb_sqltext::print_statement;
use sdb_types::{Name, NameRefused, Value};
use std::alloc::Global;
use std::test::Fail;
use test_builders::{Cell, hold, names_of, table_of, values_of};

// Both names of the table are keywords.
fn insert(alloc: Global) -> Result<Insert, NameRefused> {
    let table = table_of(alloc, "SELECT", "from")?;
    let columns = names_of(alloc, ["id", "v"].as_slice())?;
    let values = values_of(alloc, [Cell::BigInt(-1), Cell::Null].as_slice())?;
    Ok(Insert {
        table,
        columns,
        values,
    })
}

fn tests(alloc: Global) -> Result<Tests, NameRefused> {
    let a = Name::new(alloc, "a")?;
    let b = Name::new(alloc, "b")?;
    let mut tests = Tests::new(alloc);
    tests.push(Test::Compare(a, Comparison::Le, Value::Bool(true)))?;
    tests.push(Test::NotNull(b))?;
    Ok(tests)
}

fn delete(alloc: Global) -> Result<Delete, NameRefused> {
    let table = table_of(alloc, "SELECT", "from")?;
    let tests = tests(alloc)?;
    Ok(Delete { table, tests })
}

fn is_printed(alloc: Global, statement: &Statement, text: &str) -> Result<bool, Fail> {
    Ok(print_statement(alloc, statement)?.as_str() == text)
}

fn prints_upsert(alloc: Global) -> Result<bool, Fail> {
    let statement = Statement::Upsert(insert(alloc)?);
    is_printed(
        alloc,
        &statement,
        "UPSERT INTO \"SELECT\".\"from\" (id, v) VALUES (-1, NULL)",
    )
}

fn prints_delete(alloc: Global) -> Result<bool, Fail> {
    let statement = Statement::Delete(delete(alloc)?);
    is_printed(
        alloc,
        &statement,
        "DELETE FROM \"SELECT\".\"from\" WHERE a <= TRUE AND b IS NOT NULL",
    )
}

#[test]
fn statements_are_printed(rt: HostRuntime) -> Result<(), Fail> {
    hold(prints_upsert(rt.alloc()))?;
    hold(prints_delete(rt.alloc()))
}
