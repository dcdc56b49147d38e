//! A statement planned on the rows of one partition again and again.

ghost use Rattle.std.specs.Prelude.{◌≡◌, ◌++◌, ◌∷◌, [], true, IfSome, OnSome};
ghost use Rattle.sdb_schema.specs.Table.{are_short, is_table};

use crate::records::table as table_name;
use crate::words::number;
use sdb_exec::{Plan, PlanStep};
use sdb_model::{Answer, Statement};
use sdb_record::{Image, Images};
use sdb_schema::{Catalog, Column, ColumnList, Direction, Kind, Order, Orders, Table};
use sdb_sqltext::parse_statement;
use sdb_types::{Columns, Duplicate, Key, Name, Names, TableName, Value, Values};
use std::alloc::Global;
use std::env::Args;

/// The statement, the number of rows, and how often it is planned.
#[derive(Drop)]
struct Load {
    statement: Statement,
    rows: i32,
    turns: i64,
}

fn name(alloc: Global, text: &str) -> Option<Name>
    ensures { IfSome result (λ name. name ≡ text.now) }
{
    Name::new(alloc, text).ok()
}

/// Adds a column.
pub fn add_column(alloc: Global, columns: &mut ColumnList, text: &str, kind: Kind) -> Option<()>
    ensures { OnSome result (columns.new ≡ columns.old ++ record { name = text.now; kind = kind } ∷ []) }
{
    let name = name(alloc, text)?;
    columns.push(Column { name, kind }).ok()
}

fn add_columns(alloc: Global, columns: &mut ColumnList) -> Option<()>
    requires { columns.old ≡ [] }
    ensures { OnSome result (are_short columns.new ≡ true) }
{
    add_column(alloc, columns, "cat", Kind::Int)?;
    add_column(alloc, columns, "n", Kind::Int)?;
    add_column(alloc, columns, "qty", Kind::Int)
}

fn columns(alloc: Global) -> Option<ColumnList>
    ensures { IfSome result (λ columns. are_short columns ≡ true) }
{
    let mut columns = ColumnList::new(alloc);
    add_columns(alloc, &mut columns)?;
    Some(columns)
}

/// The partition key `cat`.
pub fn partition_of(alloc: Global) -> Option<Names> {
    let name = name(alloc, "cat")?;
    let mut partition = Names::new(alloc);
    partition.push(name).ok()?;
    Some(partition)
}

fn clustering_of(alloc: Global) -> Option<Orders> {
    let name = name(alloc, "n")?;
    let direction = Direction::Desc;
    let mut clustering = Orders::new(alloc);
    clustering.push(Order { name, direction }).ok()?;
    Some(clustering)
}

/// A table of these columns, whose rows are in descending order of `n`.
pub fn table_of(
    alloc: Global,
    name: TableName,
    columns: ColumnList,
    partition: Names,
) -> Option<Table>
    requires { are_short columns ≡ true }
    ensures { IfSome result (λ table. is_table table ≡ true) }
{
    let clustering = clustering_of(alloc)?;
    let indexed = Names::new(alloc);
    Table::new(alloc, name, columns, partition, clustering, indexed).ok()
}

fn table(alloc: Global) -> Option<Table>
    ensures { IfSome result (λ table. is_table table ≡ true) }
{
    let name = table_name(alloc)?;
    let partition = partition_of(alloc)?;
    table_of(alloc, name, columns(alloc)?, partition)
}

fn add_table(alloc: Global, catalog: &mut Catalog) -> Option<()> {
    catalog.add(table(alloc)?).ok()
}

fn values(alloc: Global, number: i32) -> Option<Values> {
    let mut values = Values::new(alloc);
    values.push(Value::Int(number)).ok()?;
    Some(values)
}

fn key_of(alloc: Global, number: i32) -> Option<Key> {
    let table = table_name(alloc)?;
    let partition = values(alloc, 1)?;
    let clustering = values(alloc, number)?;
    Some(Key {
        table,
        partition,
        clustering,
    })
}

fn columns_of(alloc: Global, number: i32) -> Option<Columns> {
    let name = name(alloc, "qty")?;
    let mut columns = Columns::new(alloc);
    columns.set(name, Value::Int(number)).ok()?;
    Some(columns)
}

fn row(alloc: Global, number: i32) -> Option<Image> {
    let key = key_of(alloc, number)?;
    let columns = columns_of(alloc, number)?;
    Some(Image { key, columns })
}

fn add_rows(alloc: Global, rows: &mut Images, count: i32) -> Option<()> {
    for number in 0..count {
        rows.push(row(alloc, number)?).ok()?;
    }
    Some(())
}

// How many rows an answer counts or shows.
fn counted(answer: &Answer) -> Option<usize> {
    match answer {
        Answer::Rows(rows) => Some(rows.len()),
        Answer::Count(count) => Some(*count as usize),
        _ => None,
    }
}

fn finished(step: &PlanStep) -> Option<usize> {
    match step {
        PlanStep::Finished(answer, _) => counted(answer),
        PlanStep::Read(_) => None,
    }
}

// One step of a plan: none of its own where it asks for rows.
fn step(plan: &mut Plan, rows: Images) -> Option<usize> {
    finished(&plan.next(rows).ok()?)
}

// The first step of a plan, and the second on a copy of the rows.
fn steps(alloc: Global, plan: &mut Plan, rows: &Images) -> Option<usize> {
    let copy = rows.copy().ok()?;
    let _asked = step(plan, Images::new(alloc));
    step(plan, copy)
}

fn planned(
    alloc: Global,
    catalog: &Catalog,
    statement: &Statement,
    rows: &Images,
) -> Option<usize> {
    let mut plan = Plan::new(alloc, catalog, statement.copy().ok()?).ok()?;
    steps(alloc, &mut plan, rows)
}

fn play_turns(alloc: Global, catalog: &Catalog, load: &Load, rows: &Images) -> Option<usize> {
    let mut last = rows.len();
    for _ in 0..load.turns {
        last = planned(alloc, catalog, &load.statement, rows)?;
    }
    Some(last)
}

fn play_on(alloc: Global, catalog: &Catalog, load: &Load) -> Option<usize> {
    let mut rows = Images::new(alloc);
    add_rows(alloc, &mut rows, load.rows)?;
    play_turns(alloc, catalog, load, &rows)
}

fn play_load(alloc: Global, load: &Load) -> Option<usize> {
    let mut catalog = Catalog::new(alloc);
    add_table(alloc, &mut catalog)?;
    play_on(alloc, &catalog, load)
}

fn statement_of(alloc: Global, word: Option<String>) -> Option<Statement> {
    parse_statement(alloc, word?.as_str()).ok()
}

fn load_of(statement: Statement, words: &mut Args) -> Option<Load> {
    let rows = i32::try_from(number(words)?).ok()?;
    let turns = number(words)?;
    Some(Load {
        statement,
        rows,
        turns,
    })
}

/// Plays the load of the words: the statement, the rows, and the turns.
pub fn play(alloc: Global, words: &mut Args) -> Option<usize> {
    let statement = statement_of(alloc, words.next())?;
    let load = load_of(statement, words)?;
    play_load(alloc, &load)
}
