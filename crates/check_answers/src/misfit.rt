//! Statements that meet a row which doesn't fit its table: their transaction has read it by then.
ghost use Rattle.std.specs.Prelude.{◌≡◌, ◌&&◌, false, IfOk, IsTrue, ◌↔◌};
ghost use Rattle.std.specs.Option.{option_and_then, option_copied, option_map_or};
ghost use Rattle.std.specs.List.{list_any};
ghost use Rattle.sdb_types.specs.Order.{same_key};
ghost use Rattle.sdb_record.specs.Rolls.{row_of_image};
ghost use Rattle.sdb_model.specs.ReadSet.{meaning_of as meaning_of_lem};
ghost use Rattle.sdb_model.specs.Causes.{MeetsMisfit, is_misfit as is_misfit_lem, is_well_typed as is_well_typed_lem};
ghost use Rattle.sdb_model.specs.Exec.{named_table as named_table_lem};
ghost use Rattle.sdb_model.specs.Transactions.{id_of as id_of_lem, through_end};
ghost use Rattle.sdb_contents.specs.Commits.{all_executed, executed_of};
ghost use Rattle.check_tables.specs.Values.{all_made, made_of};
ghost use Rattle.check_answers.specs.Tests.{any_upto, has_read_misfit as has_read_misfit_lem, misfit_of as misfit_of_lem, reads_at as reads_at_lem, reads_misfit as reads_misfit_lem};

use crate::commit::is_in;
use crate::plain::before;
use crate::reading::statement_in;
use check_protocol::is_same_key;
use check_tables::{
    Made, calls_of, catalog_after, client_of, from_begin, has_finished, id_of, meaning_of,
    ordinal_of, reads_rows, rest_of,
};
use sdb_contents::{Executed, ends, statements_by};
use sdb_model::{Event, Statement};
use sdb_record::is_coordinator;
use sdb_schema::{Catalog, Table};
use sdb_snapshot::row_of;
use sdb_types::{Columns, Key, NoMemory, Record, Reply, TxId};
use std::alloc::Global;

// The row that a record means to the statement with these calls.
fn row_meant(alloc: Global, calls: &[Made], rec: &Record) -> Result<Option<Columns>, NoMemory>
    ensures { IfOk result (λ row. row ≡ option_and_then row_of_image (meaning_of_lem (all_made calls.now) rec.now)) }
{
    match meaning_of(calls, rec) {
        Some(image) => row_of(alloc, image),
        None => Ok(None),
    }
}

fn is_fit(catalog: &Catalog, key: &Key, columns: &Columns) -> bool
    ensures { result ≡ is_well_typed_lem catalog.now key.now columns.now }
{
    match catalog.find(&key.table) {
        Some(table) => table.fits(key, columns),
        None => true,
    }
}

// Whether the row that a record means doesn't fit its table.
fn is_misfit(
    alloc: Global,
    catalog: &Catalog,
    calls: &[Made],
    rec: &Record,
) -> Result<bool, NoMemory>
    ensures { IfOk result (λ is. is ≡ is_misfit_lem catalog.now (all_made calls.now) rec.now) }
{
    if is_coordinator(&rec.key.table) {
        return Ok(false);
    }
    match row_meant(alloc, calls, rec)? {
        Some(columns) => Ok(!is_fit(catalog, &rec.key, &columns)),
        None => Ok(false),
    }
}

fn is_misfit_at(
    alloc: Global,
    catalog: &Catalog,
    calls: &[Made],
    key: &Key,
    rec: &Record,
) -> Result<bool, NoMemory>
    ensures { IfOk result (λ is. is ≡ (same_key rec.now.key key.now && is_misfit_lem catalog.now (all_made calls.now) rec.now)) }
{
    if is_same_key(&rec.key, key) {
        is_misfit(alloc, catalog, calls, rec)
    } else {
        Ok(false)
    }
}

fn any_misfit_at(
    alloc: Global,
    catalog: &Catalog,
    calls: &[Made],
    key: &Key,
    rows: &[Record],
) -> Result<bool, NoMemory>
    ensures { IfOk result (λ any. any ≡ list_any (λ x. same_key x.key key.now && is_misfit_lem catalog.now (all_made calls.now) x) rows.now) }
{
    for rec in rows {
        if is_misfit_at(alloc, catalog, calls, key, rec)? {
            return Ok(true);
        }
    }
    Ok(false)
}

// Whether a read of the statement with these calls found such a record at the key.
#[tactic(auto, using(crate::proofs::Finds::one_found))]
fn reads_misfit(
    alloc: Global,
    catalog: &Catalog,
    calls: &[Made],
    key: &Key,
    made: &Made,
) -> Result<bool, NoMemory>
    ensures { IfOk result (λ reads. reads ≡ reads_misfit_lem catalog.now (all_made calls.now) key.now (made_of made.now)) }
{
    if !reads_rows(made) {
        return Ok(false);
    }
    match &made.reply {
        Reply::Found(Some(rec)) => is_misfit_at(alloc, catalog, calls, key, rec),
        Reply::Rows(rows) => any_misfit_at(alloc, catalog, calls, key, rows.as_slice()),
        _ => Ok(false),
    }
}

fn any_misfit(
    alloc: Global,
    catalog: &Catalog,
    calls: &[Made],
    key: &Key,
    some: &[Made],
) -> Result<bool, NoMemory>
    ensures { IfOk result (λ any. any ≡ list_any (reads_misfit_lem catalog.now (all_made calls.now) key.now) (all_made some.now)) }
{
    let Some((first, rest)) = some.split_first() else {
        return Ok(false);
    };
    if reads_misfit(alloc, catalog, calls, key, first)? {
        return Ok(true);
    }
    any_misfit(alloc, catalog, calls, key, rest)
}

// Whether a statement was accepted by then, its read has finished, and it found such a record.
fn has_read_misfit(
    alloc: Global,
    catalog: &Catalog,
    events: &[Event],
    client: u64,
    accepted: u64,
    key: &Key,
    executed: &Executed,
) -> Result<bool, NoMemory>
    ensures { IfOk result (λ has. has ≡ has_read_misfit_lem catalog.now events.now client accepted key.now (executed_of executed.now)) }
{
    if executed.accepted > accepted {
        return Ok(false);
    }
    let calls = calls_of(alloc, events, client, executed)?;
    let all = calls.as_slice();
    if !has_finished(alloc, all, executed) {
        return Ok(false);
    }
    any_misfit(alloc, catalog, all, key, all)
}

// Whether it holds of one of these statements, up to the one that ends the transaction.
#[tactic(auto, using(crate::proofs::Finds::one_found))]
fn have_read_misfit(
    alloc: Global,
    catalog: &Catalog,
    events: &[Event],
    client: u64,
    accepted: u64,
    key: &Key,
    all: &[Executed],
) -> Result<bool, NoMemory>
    ensures { IfOk result (λ any. any ≡ list_any (has_read_misfit_lem catalog.now events.now client accepted key.now) (through_end (all_executed all.now))) }
{
    let Some((first, rest)) = all.split_first() else {
        return Ok(false);
    };
    if has_read_misfit(alloc, catalog, events, client, accepted, key, first)? {
        return Ok(true);
    }
    if ends(alloc, first)? {
        return Ok(false);
    }
    have_read_misfit(alloc, catalog, events, client, accepted, key, rest)
}

// Whether a statement is one of this transaction, of which a statement by then found such a record.
fn misfit_of(
    alloc: Global,
    catalog: &Catalog,
    events: &[Event],
    client: u64,
    executed: &Executed,
    key: &Key,
    id: TxId,
) -> Result<bool, NoMemory>
    ensures { IfOk result (λ is. is ≡ misfit_of_lem catalog.now events.now client (executed_of executed.now) key.now id) }
{
    let within = is_in(alloc, events, client, executed, id)?;
    if !within {
        return Ok(false);
    }
    let all = statements_by(alloc, client_of(id), events)?;
    let since = from_begin(alloc, ordinal_of(id), all.as_slice())?;
    have_read_misfit(
        alloc,
        catalog,
        events,
        client,
        executed.accepted,
        key,
        rest_of(since),
    )
}

// Whether it holds of one of a client's first transactions.
#[tactic(auto, using(crate::proofs::IdLaws::upto_step))]
fn any_misfit_of(
    alloc: Global,
    catalog: &Catalog,
    events: &[Event],
    client: u64,
    executed: &Executed,
    key: &Key,
    count: u64,
) -> Result<bool, NoMemory>
    ensures { IfOk result (λ any. any ≡ any_upto (λ k. misfit_of_lem catalog.now events.now client (executed_of executed.now) key.now (id_of_lem client k)) count) }
{
    if count == 0 {
        return Ok(false);
    }
    let id = id_of(client, count);
    if misfit_of(alloc, catalog, events, client, executed, key, id)? {
        return Ok(true);
    }
    any_misfit_of(alloc, catalog, events, client, executed, key, count - 1)
}

// The table that a statement names.
fn named_table<'a>(catalog: &'a Catalog, statement: &Statement) -> Option<&'a Table>
    ensures { option_copied result ≡ named_table_lem catalog.now statement.now }
{
    match statement {
        Statement::Insert(s) => catalog.find(&s.table),
        Statement::Upsert(s) => catalog.find(&s.table),
        Statement::Update(s) => catalog.find(&s.table),
        Statement::Delete(s) => catalog.find(&s.table),
        Statement::Select(s) => catalog.find(&s.table),
        _ => None,
    }
}

fn reads_at(
    alloc: Global,
    catalog: &Catalog,
    key: &Key,
    statement: &Option<Statement>,
) -> Result<bool, NoMemory>
    ensures { IfOk result (λ reads. reads ≡ option_map_or (reads_at_lem catalog.now key.now) statement.now false) }
{
    let Some(statement) = statement else {
        return Ok(false);
    };
    match named_table(catalog, statement) {
        Some(table) => check_tables::reads_at(alloc, table, statement, key),
        None => Ok(false),
    }
}

/// Whether a statement on a table reads at a key, and one of its transaction by then, whose read has finished, found a record there whose row
/// doesn't fit its table.
pub fn meets_misfit(
    alloc: Global,
    catalog: &Catalog,
    events: &[Event],
    client: u64,
    executed: &Executed,
    key: &Key,
) -> Result<bool, NoMemory>
    ensures { IfOk result (λ meets. IsTrue meets ↔ MeetsMisfit catalog.now events.now client (executed_of executed.now) key.now) }
{
    let statement = statement_in(alloc, &executed.text)?;
    let then = catalog_after(catalog, before(executed, events))?;
    let reads = reads_at(alloc, &then, key, &statement)?;
    if reads {
        let all = statements_by(alloc, client, events)?;
        let count = all.len() as u64;
        return any_misfit_of(alloc, &then, events, client, executed, key, count);
    }
    Ok(false)
}
