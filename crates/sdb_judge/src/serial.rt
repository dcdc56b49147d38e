//! The recorded transactions run whole, one after the other.
use check_answers::statement_in;
use check_tables::{
    Answers, PlainTables, catalog_after, client_of, exec, inside_of, is_effective, ordinal_of,
    prefix, run_body,
};
use sdb_contents::{Executed, statements_by};
use sdb_model::{Answer, Event, Outcome, Point, Rows, Select, Statement, TableDump, TableRows};
use sdb_schema::{Catalog, Table};
use sdb_types::{Duplicate, NoMemory, Seq};
use std::alloc::Global;

/// A transaction's statements, with what they were answered.
#[derive(Drop)]
struct Run {
    body: Seq<Statement>,
    answers: Answers,
}

// Adds an effective statement that was answered. Whether it is one.
fn add_statement(alloc: Global, run: &mut Run, executed: &Executed) -> Result<bool, NoMemory> {
    let Some(statement) = statement_in(alloc, &executed.text)? else {
        return Ok(false);
    };
    let Some(answer) = &executed.answer else {
        return Ok(false);
    };
    run.body.push(statement)?;
    run.answers.push(answer.copy()?)?;
    Ok(true)
}

fn run_of(alloc: Global, inside: &[Executed]) -> Result<Option<Run>, NoMemory> {
    let mut run = Run {
        body: Seq::new(alloc),
        answers: Seq::new(alloc),
    };
    for executed in inside {
        if is_effective(executed) && !add_statement(alloc, &mut run, executed)? {
            return Ok(None);
        }
    }
    Ok(Some(run))
}

fn run_at(alloc: Global, events: &[Event], point: &Point) -> Result<Option<Run>, NoMemory> {
    let executed = statements_by(alloc, client_of(point.id), events)?;
    let inside = inside_of(alloc, executed.as_slice(), ordinal_of(point.id))?;
    run_of(alloc, inside)
}

// The tables after a transaction run whole, or none where it gives other answers.
fn tables_after(
    alloc: Global,
    catalog: &Catalog,
    run: &Run,
    tables: PlainTables,
) -> Result<Option<PlainTables>, NoMemory> {
    let (answers, after) = run_body(alloc, catalog, run.body.as_slice(), tables)?;
    if answers == run.answers {
        Ok(Some(after))
    } else {
        Ok(None)
    }
}

// The tables after the transactions of an order, each under the catalog of its point, or none where one of them gives other answers.
fn tables_left(
    alloc: Global,
    catalog: &Catalog,
    events: &[Event],
    order: &[Point],
    tables: PlainTables,
) -> Result<Option<PlainTables>, NoMemory> {
    let Some((first, rest)) = order.split_first() else {
        return Ok(Some(tables));
    };
    let Some(run) = run_at(alloc, events, first)? else {
        return Ok(None);
    };
    let then = catalog_after(catalog, prefix(events, first.event))?;
    match tables_after(alloc, &then, &run, tables)? {
        Some(after) => tables_left(alloc, catalog, events, rest, after),
        None => Ok(None),
    }
}

fn whole_table(alloc: Global, table: &Table) -> Result<Statement, NoMemory> {
    Ok(Statement::Select(Select {
        table: table.name.copy()?,
        columns: None,
        tests: Seq::new(alloc),
        limit: None,
    }))
}

fn rows_of(alloc: Global, answer: &Answer) -> Result<Rows, NoMemory> {
    match answer {
        Answer::Rows(rows) => rows.copy(),
        _ => Ok(Rows::new(alloc)),
    }
}

fn dump_of(
    alloc: Global,
    catalog: &Catalog,
    table: &Table,
    tables: PlainTables,
) -> Result<(TableDump, PlainTables), NoMemory> {
    let statement = whole_table(alloc, table)?;
    let (answer, after) = exec(alloc, catalog, &statement, tables)?;
    let dump = TableDump {
        name: table.name.copy()?,
        rows: rows_of(alloc, &answer)?,
    };
    Ok((dump, after))
}

// The rows of each table, by the order of the tables' names.
fn dumps(alloc: Global, catalog: &Catalog, tables: PlainTables) -> Result<TableRows, NoMemory> {
    let mut dumps = TableRows::new(alloc);
    let mut tables = tables;
    for i in 0..catalog.len() {
        let Some(table) = catalog.at(i) else {
            break;
        };
        let (dump, after) = dump_of(alloc, catalog, table, tables)?;
        dumps.push(dump)?;
        tables = after;
    }
    Ok(dumps)
}

/// Whether the bodies of the transactions of an outcome's order, run whole one after the other from empty tables, with each column added in its
/// place among them, give their answers and the rows that are left.
pub fn is_serial(alloc: Global, catalog: &Catalog, outcome: &Outcome) -> Result<bool, NoMemory> {
    let tables = PlainTables::new(alloc);
    let events = outcome.events.as_slice();
    let Some(left) = tables_left(alloc, catalog, events, outcome.order.as_slice(), tables)? else {
        return Ok(false);
    };
    let last = catalog_after(catalog, events)?;
    Ok(dumps(alloc, &last, left)? == outcome.tables)
}
