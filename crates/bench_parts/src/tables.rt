//! A table of many rows written as CSV and read again, as often as the words say.
ghost use Rattle.std.specs.Prelude.{◌≡◌, [], true, IfSome, OnSome};
ghost use Rattle.sdb_schema.specs.Table.{are_short};

use crate::plans::{add_column, partition_of, table_of};
use crate::records::table as table_name;
use crate::words::number;
use sdb_data::{Mode, print_table, read_table};
use sdb_model::Rows;
use sdb_schema::{ColumnList, Kind, Table};
use sdb_types::{Octets, Txt, Value, Values};
use std::alloc::Global;
use std::env::Args;

// The text of each row, which is put in quotes.
const NOTE: &str = "a note, of thirty-two bytes each";

/// How many rows there are, and how often they are written and read.
#[derive(Clone, Copy)]
struct Load {
    rows: i32,
    prints: i64,
    reads: i64,
}

fn add_columns(alloc: Global, columns: &mut ColumnList) -> Option<()>
    requires { columns.old ≡ [] }
    ensures { OnSome result (are_short columns.new ≡ true) }
{
    add_column(alloc, columns, "cat", Kind::Int)?;
    add_column(alloc, columns, "n", Kind::Int)?;
    add_column(alloc, columns, "note", Kind::Text)
}

fn columns(alloc: Global) -> Option<ColumnList>
    ensures { IfSome result (λ columns. are_short columns ≡ true) }
{
    let mut columns = ColumnList::new(alloc);
    add_columns(alloc, &mut columns)?;
    Some(columns)
}

fn table(alloc: Global) -> Option<Table> {
    let name = table_name(alloc)?;
    let partition = partition_of(alloc)?;
    table_of(alloc, name, columns(alloc)?, partition)
}

fn note(alloc: Global) -> Option<Value> {
    Some(Value::Text(Txt::new(alloc, NOTE).ok()?))
}

fn row(alloc: Global, number: i32) -> Option<Values> {
    let mut values = Values::new(alloc);
    values.push(Value::Int(1)).ok()?;
    values.push(Value::Int(number)).ok()?;
    values.push(note(alloc)?).ok()?;
    Some(values)
}

fn rows_of(alloc: Global, count: i32) -> Option<Rows> {
    let mut rows = Rows::new(alloc);
    for number in 0..count {
        rows.push(row(alloc, number)?).ok()?;
    }
    Some(rows)
}

fn printed(alloc: Global, table: &Table, rows: &Rows) -> Option<Octets> {
    print_table(alloc, table, rows).ok()
}

// Writes the rows once, and returns how many bytes there are.
fn print_once(alloc: Global, table: &Table, rows: &Rows) -> Option<usize> {
    Some(printed(alloc, table, rows)?.len())
}

fn print_turns(alloc: Global, table: &Table, rows: &Rows, turns: i64) -> Option<usize> {
    let mut last = rows.len();
    for _ in 0..turns {
        last = print_once(alloc, table, rows)?;
    }
    Some(last)
}

// Reads the rows once, and returns how many there are, the header being one.
fn read_once(alloc: Global, table: &Table, text: &[u8]) -> Option<usize> {
    Some(read_table(alloc, table, Mode::Insert, text).ok()?.len())
}

fn read_turns(alloc: Global, table: &Table, text: &[u8], turns: i64) -> Option<usize> {
    let mut last = text.len();
    for _ in 0..turns {
        last = read_once(alloc, table, text)?;
    }
    Some(last)
}

// Writes the rows once more, to read them.
fn read_rows(alloc: Global, table: &Table, rows: &Rows, turns: i64) -> Option<usize> {
    let text = printed(alloc, table, rows)?;
    read_turns(alloc, table, text.as_slice(), turns)
}

fn play_rows(alloc: Global, table: &Table, rows: &Rows, load: Load) -> Option<usize> {
    let bytes = print_turns(alloc, table, rows, load.prints)?;
    if load.reads == 0 {
        return Some(bytes);
    }
    read_rows(alloc, table, rows, load.reads)
}

fn play_load(alloc: Global, table: &Table, load: Load) -> Option<usize> {
    let rows = rows_of(alloc, load.rows)?;
    play_rows(alloc, table, &rows, load)
}

fn load_of(words: &mut Args) -> Option<Load> {
    let rows = i32::try_from(number(words)?).ok()?;
    let prints = number(words)?;
    let reads = number(words)?;
    Some(Load {
        rows,
        prints,
        reads,
    })
}

/// Plays the load of the words: the rows, and how often they are written and read.
pub fn play(alloc: Global, words: &mut Args) -> Option<usize> {
    let load = load_of(words)?;
    let table = table(alloc)?;
    play_load(alloc, &table, load)
}
