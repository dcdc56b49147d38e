//! One statement on plain tables.
ghost use Rattle.std.specs.Prelude.{◌≡◌, IfOk, OnOk, map, filter, take_while, length, not, Some, [], None, is_some, unwrap_or};
ghost use Rattle.std.specs.Option.{option_copied};
ghost use Rattle.std.specs.Ordering.{is_lt};
ghost use Rattle.sdb_schema.specs.Order.{row_key_cmp};
ghost use Rattle.sdb_model.specs.Exec.{passes as passes_lem, updated, placed, sorted as sorted_lem, cut as cut_lem, projected as projected_lem, answer_of, left_by, exec_in, exec as exec_lem, find_table as find_table_lem, not_a_table as not_a_table_lem};
ghost use Rattle.sdb_model.specs.declared.statement.Statement.TheVariants as statement;

use crate::tables::PlainTables;
use sdb_exec::{
    cut, inserted_key, named_columns, passes, passing, projected_all, projected_names, set_columns,
};
use sdb_model::{Answer, Delete, Insert, Refusal, Rows, Select, Statement, Test, Update};
use sdb_record::{Image, Images};
use sdb_schema::{Catalog, Table};
use sdb_types::{Columns, Duplicate, NoMemory, Seq, TableName};
use std::alloc::Global;

type Done = Result<(Answer, PlainTables), NoMemory>;

// The row with the columns set, where it passes.
fn updated_row(table: &Table, update: &Update, row: &Image) -> Result<Image, NoMemory>
    ensures { IfOk result (λ r. r ≡ updated table.now update.now row.now) }
{
    if !passes(table, update.tests.as_slice(), row) {
        return row.copy();
    }
    Ok(Image {
        key: row.key.copy()?,
        columns: set_columns(table, update.sets.as_slice(), row.columns.copy()?)?,
    })
}

fn updated_rows(
    alloc: Global,
    table: &Table,
    update: &Update,
    rows: &[Image],
) -> Result<Images, NoMemory>
    ensures { IfOk result (λ found. found ≡ map (updated table.now update.now) rows.now) }
{
    let mut found = Seq::new(alloc);
    for row in rows {
        found.push(updated_row(table, update, row)?)?;
    }
    Ok(found)
}

// The rows that don't pass.
fn kept(alloc: Global, table: &Table, tests: &[Test], rows: &[Image]) -> Result<Images, NoMemory>
    ensures { IfOk result (λ found. found ≡ filter (λ r. not (passes_lem table.now tests.now r)) rows.now) }
{
    let mut found = Seq::new(alloc);
    for row in rows {
        let stays = !passes(table, tests, row);
        if stays {
            found.push(row.copy()?)?;
        }
    }
    Ok(found)
}

fn place_of(table: &Table, rows: &[Image], row: &Image) -> usize
    ensures { result ≡ length (take_while (λ x. is_lt (row_key_cmp table.now x.key row.now.key)) rows.now) }
{
    rows.iter()
        .take_while(|x| table.compare(&x.key, &row.key).is_lt())
        .count()
}

fn place(table: &Table, rows: &mut Images, row: Image) -> Result<(), NoMemory>
    ensures { OnOk result (rows.new ≡ placed table.now rows.old row) }
{
    let at = place_of(table, rows.as_slice(), &row);
    rows.insert(at, row)
}

fn sorted(alloc: Global, table: &Table, rows: &[Image]) -> Result<Images, NoMemory>
    ensures { IfOk result (λ found. found ≡ sorted_lem table.now rows.now) }
{
    let mut found = Seq::new(alloc);
    for row in rows {
        place(table, &mut found, row.copy()?)?;
    }
    Ok(found)
}

fn selected(alloc: Global, table: &Table, select: &Select, rows: &[Image]) -> Result<Rows, NoMemory>
    ensures { IfOk result (λ found. found ≡ map (projected_lem table.now select.now.columns) (cut_lem select.now.limit (sorted_lem table.now rows.now))) }
{
    let found = sorted(alloc, table, rows)?;
    let names = projected_names(alloc, table, &select.columns)?;
    projected_all(
        alloc,
        table,
        names.as_slice(),
        cut(select.limit, found.as_slice()),
    )
}

fn insert(alloc: Global, table: &Table, insert: &Insert, tables: PlainTables) -> Done
    ensures { IfOk result (λ done. (done.0 ≡ answer_of table.now (statement.Insert insert.now) tables) × (done.1 ≡ left_by table.now (statement.Insert insert.now) tables)) }
{
    let mut tables = tables;
    let key = inserted_key(alloc, table, insert)?;
    if tables.find(&key).is_some() {
        return Ok((Answer::Duplicate(key), tables));
    }
    let columns = named_columns(
        table,
        insert.columns.as_slice(),
        insert.values.as_slice(),
        Columns::new(alloc),
    )?;
    tables.put(key, columns)?;
    Ok((Answer::Count(1), tables))
}

fn columns_or_none(alloc: Global, found: Option<&Columns>) -> Result<Columns, NoMemory>
    ensures { IfOk result (λ columns. columns ≡ unwrap_or (option_copied found.entry) []) }
{
    match found {
        Some(columns) => columns.copy(),
        None => Ok(Columns::new(alloc)),
    }
}

fn upsert(alloc: Global, table: &Table, insert: &Insert, tables: PlainTables) -> Done
    ensures { IfOk result (λ done. (done.0 ≡ answer_of table.now (statement.Upsert insert.now) tables) × (done.1 ≡ left_by table.now (statement.Upsert insert.now) tables)) }
{
    let mut tables = tables;
    let key = inserted_key(alloc, table, insert)?;
    let before = columns_or_none(alloc, tables.find(&key))?;
    let columns = named_columns(
        table,
        insert.columns.as_slice(),
        insert.values.as_slice(),
        before,
    )?;
    tables.put(key, columns)?;
    Ok((Answer::Count(1), tables))
}

fn update(alloc: Global, table: &Table, update: &Update, tables: PlainTables) -> Done
    ensures { IfOk result (λ done. (done.0 ≡ answer_of table.now (statement.Update update.now) tables) × (done.1 ≡ left_by table.now (statement.Update update.now) tables)) }
{
    let rows = tables.all()?;
    let found = passing(table, update.tests.as_slice(), rows.copy()?);
    let after = updated_rows(alloc, table, update, rows.as_slice())?;
    let count = found.len() as u64;
    Ok((
        Answer::Count(count),
        PlainTables::of_rows(alloc, after.as_slice())?,
    ))
}

fn delete(alloc: Global, table: &Table, delete: &Delete, tables: PlainTables) -> Done
    ensures { IfOk result (λ done. (done.0 ≡ answer_of table.now (statement.Delete delete.now) tables) × (done.1 ≡ left_by table.now (statement.Delete delete.now) tables)) }
{
    let rows = tables.all()?;
    let found = passing(table, delete.tests.as_slice(), rows.copy()?);
    let after = kept(alloc, table, delete.tests.as_slice(), rows.as_slice())?;
    let count = found.len() as u64;
    Ok((
        Answer::Count(count),
        PlainTables::of_rows(alloc, after.as_slice())?,
    ))
}

fn select(alloc: Global, table: &Table, select: &Select, tables: PlainTables) -> Done
    ensures { IfOk result (λ done. (done.0 ≡ answer_of table.now (statement.Select select.now) tables) × (done.1 ≡ left_by table.now (statement.Select select.now) tables)) }
{
    let rows = tables.all()?;
    let found = passing(table, select.tests.as_slice(), rows);
    let observed = selected(alloc, table, select, found.as_slice())?;
    Ok((Answer::Rows(observed), tables))
}

// The table that a statement names, as the catalog has it.
fn on_table(
    alloc: Global,
    catalog: &Catalog,
    name: &TableName,
    statement: &Statement,
    tables: PlainTables,
) -> Done
    ensures { IfOk result (λ done. (done.0, done.1) ≡ exec_in (find_table_lem catalog.now name.now) statement.now tables) }
{
    let Some(table) = catalog.find(name) else {
        return Ok((not_a_table(), tables));
    };
    match statement {
        Statement::Insert(s) => insert(alloc, table, s, tables),
        Statement::Upsert(s) => upsert(alloc, table, s, tables),
        Statement::Update(s) => update(alloc, table, s, tables),
        Statement::Delete(s) => delete(alloc, table, s, tables),
        Statement::Select(s) => select(alloc, table, s, tables),
        _ => Ok((not_a_table(), tables)),
    }
}

fn not_a_table() -> Answer
    ensures { result ≡ not_a_table_lem }
{
    Answer::Refused(Refusal { kind: 6, place: 0 })
}

/// One statement on plain tables: its answer, and the tables after it. Takes time quadratic in the number of rows.
pub fn exec(
    alloc: Global,
    catalog: &Catalog,
    statement: &Statement,
    tables: PlainTables,
) -> Result<(Answer, PlainTables), NoMemory>
    ensures { IfOk result (λ done. (done.0, done.1) ≡ exec_lem catalog.now statement.now tables) }
{
    match statement {
        Statement::Insert(s) => on_table(alloc, catalog, &s.table, statement, tables),
        Statement::Upsert(s) => on_table(alloc, catalog, &s.table, statement, tables),
        Statement::Update(s) => on_table(alloc, catalog, &s.table, statement, tables),
        Statement::Delete(s) => on_table(alloc, catalog, &s.table, statement, tables),
        Statement::Select(s) => on_table(alloc, catalog, &s.table, statement, tables),
        _ => Ok((not_a_table(), tables)),
    }
}
