//! Rows, loaded into a table.
ghost use Rattle.std.specs.Prelude.{◌≡◌, ◌<◌, ◌≤◌, ◌++◌, length, IfErr, IfOk, OnOk, string_bytes};
ghost use Rattle.std.specs.List.{list_any};
ghost use Rattle.sdb_contents.specs.Board.{GoOn};
ghost use Rattle.sdb_shell.specs.Ends.{ends};
ghost use Rattle.sdb_shell.specs.Loads.{IsLoad, IsLoadOf, IsLoadOutOfMemory, IsLoadOfOutOfMemory, line_of};
ghost use Rattle.sdb_shell.specs.Statements as spec;

use crate::account::Session;
use crate::group::{Ending, take_group};
use crate::load::Load;
use sdb_data::Mode;
use sdb_model::{put_answer, put_number};
use sdb_schema::{Catalog, Column, Table};
use sdb_stores::Registry;
use sdb_types::{Clock, Duplicate, Ids, Name, Names, NoMemory, Seq, Txt, Value, Values};
use std::alloc::Global;

// ---- what is loaded

fn is_text(value: &Value, name: &Name) -> bool
    ensures { result ≡ spec.is_text name.now value.now }
{
    match value {
        Value::Text(text) => text.as_str().cmp(name.as_str()).is_eq(),
        _ => false,
    }
}

fn lists(first: &[Value], name: &Name) -> bool
    ensures { result ≡ list_any (spec.is_text name.now) first.now }
{
    first.iter().any(|value| is_text(value, name))
}

// The names of the columns that a row lists.
fn names_in(alloc: Global, columns: &[Column], first: &[Value]) -> Result<Names, NoMemory>
    ensures { IfOk result (λ names. names ≡ spec.names_listed first.now columns.now) }
{
    let mut names = Names::new(alloc);
    for column in columns {
        if lists(first, &column.name) {
            names.push(column.name.copy()?)?;
        }
    }
    Ok(names)
}

fn first_row(rows: &[Values]) -> &[Value]
    ensures { result.now ≡ spec.first_row rows.now }
{
    match rows.split_first() {
        Some((first, _)) => first.as_slice(),
        None => &[],
    }
}

fn rows_after(rows: &[Values]) -> &[Values]
    ensures { result.now ≡ spec.rows_after rows.now }
{
    match rows.split_first() {
        Some((_, rest)) => rest,
        None => &[],
    }
}

fn load_of(alloc: Global, table: &Table, mode: Mode, rows: &[Values]) -> Result<Load, NoMemory>
    ensures { IfOk result (λ load. load ≡ spec.load_of table.now mode rows.now) }
{
    Ok(Load {
        mode,
        table: table.copy()?,
        names: names_in(alloc, table.columns.as_slice(), first_row(rows))?,
    })
}

// ---- groups

// The line of the group of a number, which has so many rows.
fn put_line(out: &mut String, k: u64, rows: usize, ending: &Ending) -> Result<(), NoMemory>
    ensures { OnOk result (string_bytes out.new ≡ string_bytes out.old ++ line_of k rows ending.now.written ending.now.answer) }
{
    put_number(out, k)?;
    out.push_str(" rows ")?;
    put_number(out, rows as u64)?;
    out.push_str(" written ")?;
    put_number(out, ending.written as u64)?;
    out.push_str(" ")?;
    put_answer(out, &ending.answer)?;
    out.push_str("\n")?;
    Ok(())
}

// Loads all rows, and returns the line of each group.
fn load_groups<S: Registry, C: Clock, I: Ids>(
    alloc: Global,
    load: &Load,
    rows: &[Values],
    size: usize,
    catalog: &Catalog,
    stores: &mut S,
    clock: &mut C,
    ids: &mut I,
) -> Result<String, NoMemory>
    requires some { 0 < length (S.state stores.old).views }
    requires size { 1 ≤ size }
    ensures loaded { IfOk result (λ out. IsLoad catalog.now load.now rows.now size
        (ends S.state C.answered I.answered stores.old stores.new clock.old clock.new ids.old ids.new) (string_bytes out)) }
    ensures out_of_memory { IfErr result (λ _. IsLoadOutOfMemory catalog.now load.now rows.now size
        (ends S.state C.answered I.answered stores.old stores.new clock.old clock.new ids.old ids.new)) }
    ensures goes { GoOn (S.state stores.old) (S.state stores.new) }
{
    let mut session = Session::new(alloc, ids);
    let mut out = String::new(alloc);
    let mut rest = rows;
    let mut k: u64 = 0;
    while !rest.is_empty() {
        let (group, after) = rest.split_at(size.min(rest.len()));
        let ending = take_group(
            alloc,
            &mut session,
            load,
            group,
            catalog,
            stores,
            clock,
            ids,
        )?;
        k += 1;
        put_line(&mut out, k, group.len(), &ending)?;
        rest = after;
    }
    Ok(out)
}

/// Loads rows that `read_table` gave for a table of the catalog and a mode, `group` of them in a transaction, and returns a line for each
/// group: `k rows R written W ANSWER`. A group that isn't committed doesn't stop the next.
pub fn load_rows<S: Registry, C: Clock, I: Ids>(
    alloc: Global,
    catalog: &Catalog,
    table: &Table,
    mode: Mode,
    rows: &Seq<Values>,
    group: u32,
    stores: &mut S,
    clock: &mut C,
    ids: &mut I,
) -> Result<Txt, NoMemory>
    requires some { 0 < length (S.state stores.old).views }
    requires size { 1 ≤ group }
    ensures loaded { IfOk result (IsLoadOf catalog.now table.now mode rows.now group
        (ends S.state C.answered I.answered stores.old stores.new clock.old clock.new ids.old ids.new)) }
    ensures out_of_memory { IfErr result (λ _. IsLoadOfOutOfMemory catalog.now table.now mode rows.now group
        (ends S.state C.answered I.answered stores.old stores.new clock.old clock.new ids.old ids.new)) }
    ensures goes { GoOn (S.state stores.old) (S.state stores.new) }
{
    let load = load_of(alloc, table, mode, rows.as_slice())?;
    let lines = load_groups(
        alloc,
        &load,
        rows_after(rows.as_slice()),
        group as usize,
        catalog,
        stores,
        clock,
        ids,
    )?;
    Txt::new(alloc, lines.as_str())
}
