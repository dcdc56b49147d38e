//! The cause of BadRecord: a record isn't of the form of records, or the row that it means doesn't fit its table.
ghost use Rattle.std.specs.Prelude.{◌≡◌, ◌&&◌, IfOk, IsTrue, ◌↔◌};
ghost use Rattle.std.specs.List.{list_any};
ghost use Rattle.sdb_types.specs.Order.{same_key};
ghost use Rattle.sdb_model.specs.Causes.{FindsBad, IsBadRecord};
ghost use Rattle.sdb_contents.specs.Commits.{executed_of};
ghost use Rattle.check_answers.specs.Tests.{is_bad as is_bad_lem, observes_bad as observes_bad_lem};

use crate::misfit::meets_misfit;
use check_protocol::{decided, is_same_key};
use check_tables::{Made, calls_of};
use sdb_contents::Executed;
use sdb_model::Event;
use sdb_record::{is_coordinator, meta_of};
use sdb_schema::Catalog;
use sdb_types::{Key, NoMemory, Record, Reply};
use std::alloc::Global;

// Whether a record isn't of the form of records.
fn is_bad(alloc: Global, rec: &Record) -> bool
    ensures { result ≡ is_bad_lem rec.now }
{
    if is_coordinator(&rec.key.table) {
        return decided(alloc, rec).is_none();
    }
    match meta_of(alloc, rec) {
        Ok(_) => false,
        Err(_) => true,
    }
}

fn is_bad_at(alloc: Global, key: &Key, rec: &Record) -> bool
    ensures { result ≡ (same_key rec.now.key key.now && is_bad_lem rec.now) }
{
    is_same_key(&rec.key, key) && is_bad(alloc, rec)
}

fn any_bad_at(alloc: Global, key: &Key, rows: &[Record]) -> bool
    ensures { result ≡ list_any (λ x. same_key x.key key.now && is_bad_lem x) rows.now }
{
    for rec in rows {
        if is_bad_at(alloc, key, rec) {
            return true;
        }
    }
    false
}

// Whether a call shows such a record at the key.
#[tactic(auto, using(crate::proofs::Finds::one_found))]
fn observes_bad(alloc: Global, key: &Key, made: &Made) -> bool
    ensures { result ≡ observes_bad_lem key.now made.now }
{
    match &made.reply {
        Reply::Found(Some(rec)) => is_bad_at(alloc, key, rec),
        Reply::NotMet(Some(rec)) => is_bad_at(alloc, key, rec),
        Reply::NotAll(_, Some(rec)) => is_bad_at(alloc, key, rec),
        Reply::Rows(rows) => any_bad_at(alloc, key, rows.as_slice()),
        _ => false,
    }
}

fn any_bad(alloc: Global, key: &Key, calls: &[Made]) -> bool
    ensures { result ≡ list_any (observes_bad_lem key.now) calls.now }
{
    for made in calls {
        if observes_bad(alloc, key, made) {
            return true;
        }
    }
    false
}

// Whether a call of the statement showed a record of the key that isn't of the form of records.
fn finds_bad(
    alloc: Global,
    events: &[Event],
    client: u64,
    executed: &Executed,
    key: &Key,
) -> Result<bool, NoMemory>
    ensures { IfOk result (λ finds. IsTrue finds ↔ FindsBad events.now client (executed_of executed.now) key.now) }
{
    let calls = calls_of(alloc, events, client, executed)?;
    Ok(any_bad(alloc, key, calls.as_slice()))
}

/// Whether a call of the statement showed a record of the key that isn't of the form of records; or the statement reads at the key, and one
/// of its transaction by then, whose read has finished, found a record there whose row doesn't fit its table.
pub fn is_bad_record(
    alloc: Global,
    catalog: &Catalog,
    events: &[Event],
    client: u64,
    executed: &Executed,
    key: &Key,
) -> Result<bool, NoMemory>
    ensures { IfOk result (λ is. IsTrue is ↔ IsBadRecord catalog.now events.now client (executed_of executed.now) key.now) }
{
    let finds = finds_bad(alloc, events, client, executed, key)?;
    if finds {
        return Ok(true);
    }
    meets_misfit(alloc, catalog, events, client, executed, key)
}
