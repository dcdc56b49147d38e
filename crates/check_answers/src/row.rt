//! The row of the committed image at a key, and what a statement makes of a row.
ghost use Rattle.std.specs.Prelude.{◌≡◌, IfOk, false};
ghost use Rattle.std.specs.Option.{option_and_then, option_copied};
ghost use Rattle.sdb_types.specs.declared.record.State.TheVariants.{Committed};
ghost use Rattle.sdb_record.specs.Meta.{is_in};
ghost use Rattle.sdb_record.specs.Parts.{before_record};
ghost use Rattle.sdb_record.specs.Rolls.{forward_record, image_of, row_of_image};
ghost use Rattle.sdb_model.specs.Events.{stored_at as standing_lem};
ghost use Rattle.sdb_model.specs.Images.{decision_at as decision_at_lem, decision_on as decision_on_lem, row_at as row_at_lem};
ghost use Rattle.sdb_model.specs.DirtyReads.{one_row as one_row_lem, row_left as row_left_lem};
ghost use Rattle.check_answers.specs.Values.{all_contents};

use crate::stores::{StoreContents, contents_for};
use check_protocol::{decided, has_no_before, is_committed, writer};
use check_tables::{PlainTables, exec};
use sdb_model::{Place, Statement};
use sdb_record::{Decided, Decision, committed_image, coordinator_key, meta_of, rolled_forward};
use sdb_schema::Catalog;
use sdb_snapshot::row_of;
use sdb_types::{Columns, Duplicate, Key, NoMemory, Record, TxId};
use std::alloc::Global;

/// A copy of the columns that were found.
pub fn copied(found: Option<&Columns>) -> Result<Option<Columns>, NoMemory>
    ensures { IfOk result (λ copy. copy ≡ option_copied found.entry) }
{
    match found {
        Some(columns) => Ok(Some(columns.copy()?)),
        None => Ok(None),
    }
}

fn record_with(key: &Key, columns: &Columns) -> Result<Record, NoMemory>
    ensures { IfOk result (λ rec. rec ≡ record { key = key.now; columns = columns.now }) }
{
    Ok(Record {
        key: key.copy()?,
        columns: columns.copy()?,
    })
}

// The record at a key.
fn stored_at(
    places: &[Place],
    store_contents: &[StoreContents],
    key: &Key,
) -> Result<Option<Record>, NoMemory>
    ensures { IfOk result (λ rec. rec ≡ standing_lem places.now (all_contents store_contents.now) key.now) }
{
    let Some(rows) = contents_for(places, store_contents, &key.table.ns) else {
        return Ok(None);
    };
    match rows.find(key) {
        Some(columns) => Ok(Some(record_with(key, columns)?)),
        None => Ok(None),
    }
}

// The decision on a transaction.
fn decision_at(
    alloc: Global,
    places: &[Place],
    store_contents: &[StoreContents],
    id: TxId,
) -> Result<Option<Decided>, NoMemory>
    ensures { IfOk result (λ d. d ≡ decision_at_lem places.now (all_contents store_contents.now) id) }
{
    let row = coordinator_key(alloc, id)?;
    match stored_at(places, store_contents, &row)? {
        Some(rec) => Ok(decided(alloc, &rec)),
        None => Ok(None),
    }
}

fn decision_on(
    alloc: Global,
    places: &[Place],
    store_contents: &[StoreContents],
    rec: &Record,
) -> Result<Option<Decided>, NoMemory>
    ensures { IfOk result (λ d. d ≡ decision_on_lem places.now (all_contents store_contents.now) rec.now) }
{
    match writer(rec) {
        Some(id) => decision_at(alloc, places, store_contents, id),
        None => Ok(None),
    }
}

// The row of the record that a before image keeps. One that keeps names that no record has counts as one out of memory.
#[tactic(auto, using(check_protocol::proofs::Public::keeps_none_is))]
fn row_before(alloc: Global, rec: &Record) -> Result<Option<Columns>, NoMemory>
    requires { is_in Committed rec.now.columns ≡ false }
    ensures { IfOk result (λ row. row ≡ option_and_then row_of_image (before_record rec.now)) }
{
    if has_no_before(rec) {
        return Ok(None);
    }
    if meta_of(alloc, rec).is_err() {
        return Err(NoMemory);
    }
    match committed_image(alloc, rec, None)? {
        Some(base) => row_of(alloc, &base),
        None => Ok(None),
    }
}

fn row_forward(alloc: Global, rec: &Record, moment: i64) -> Result<Option<Columns>, NoMemory>
    ensures { IfOk result (λ row. row ≡ row_of_image (forward_record rec.now moment)) }
{
    let forward = rolled_forward(alloc, rec, moment)?;
    row_of(alloc, &forward)
}

// The row of the committed image of a record.
fn row_under(
    alloc: Global,
    rec: &Record,
    decided: Option<Decided>,
) -> Result<Option<Columns>, NoMemory>
    ensures { IfOk result (λ row. row ≡ option_and_then row_of_image (image_of rec.now decided)) }
{
    if is_committed(rec) {
        return row_of(alloc, rec);
    }
    match decided {
        Some(
            Decided {
                decision: Decision::Committed,
                created_at,
            },
        ) => row_forward(alloc, rec, created_at),
        _ => row_before(alloc, rec),
    }
}

/// The row of the committed image at a key.
pub fn row_at(
    alloc: Global,
    places: &[Place],
    store_contents: &[StoreContents],
    key: &Key,
) -> Result<Option<Columns>, NoMemory>
    ensures { IfOk result (λ row. row ≡ row_at_lem places.now (all_contents store_contents.now) key.now) }
{
    match stored_at(places, store_contents, key)? {
        Some(rec) => {
            let decided = decision_on(alloc, places, store_contents, &rec)?;
            row_under(alloc, &rec, decided)
        }
        None => Ok(None),
    }
}

// Tables with one row at most.
fn one_row(alloc: Global, key: &Key, row: Option<Columns>) -> Result<PlainTables, NoMemory>
    ensures { IfOk result (λ tables. tables ≡ one_row_lem key.now row) }
{
    let mut tables = PlainTables::new(alloc);
    if let Some(columns) = row {
        tables.put(key.copy()?, columns)?;
    }
    Ok(tables)
}

/// What a statement makes of the row at a key.
pub fn row_left(
    alloc: Global,
    catalog: &Catalog,
    statement: &Statement,
    key: &Key,
    row: Option<Columns>,
) -> Result<Option<Columns>, NoMemory>
    ensures { IfOk result (λ left. left ≡ row_left_lem catalog.now statement.now key.now row) }
{
    let tables = one_row(alloc, key, row)?;
    let (_, left) = exec(alloc, catalog, statement, tables)?;
    copied(left.find(key))
}
