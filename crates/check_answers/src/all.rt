//! Whether it holds of all statements, or of all transactions, of a run.
ghost use Rattle.std.specs.Prelude.{◌≡◌, ◌↔◌, IfOk, IfSome, IsTrue, filter, length, ◌≤◌};
ghost use Rattle.std.specs.List.{AllByRecursion};
ghost use Rattle.sdb_model.specs.Counted.{AreCounted, AreResolved, broken_in as broken_in_lem, is_broken as is_broken_lem};
ghost use Rattle.sdb_model.specs.DirtyReads.{NoDirtyReads};
ghost use Rattle.sdb_contents.specs.Commits.{all_executed};
ghost use Rattle.check_tables.specs.Values.{taker as taker_lem};
ghost use Rattle.check_answers.specs.All.{HaveNoDirtyReadsUpto, HasTransactionNoDirtyReads};
ghost use Rattle.check_answers.specs.Counts.{IsExecutedCounted, IsExecutedResolved};
ghost use Rattle.check_answers.specs.OfClients.{HoldsOfClients, HoldsOfClient};
ghost use Rattle.check_answers.specs.Values.{all_moments, all_contents};

use crate::answer::answers_have_rows;
use crate::counts::is_executed_counted;
use crate::rolls::is_executed_resolved;
use crate::stores::Stores;
use crate::turn::turns_of;
use check_tables::{id_of, taker};
use sdb_contents::{Executed, statements_by};
use sdb_model::{Event, How};
use sdb_schema::Catalog;
use sdb_types::{NoMemory, TxId};
use std::alloc::Global;

/// What is asked of a run: that the calls of each statement are counted, that the records that it was answered from are resolved, or
/// that the rows that it was answered with are those of its transaction, by what the stores contained.
#[derive(Clone, Copy)]
pub enum Law<'a> {
    Counts,
    Rolls,
    Rows(&'a Stores),
}

fn are_counted(
    alloc: Global,
    catalog: &Catalog,
    events: &[Event],
    client: u64,
    executed: &[Executed],
) -> Result<bool, NoMemory>
    ensures { IfOk result (λ are. IsTrue are ↔ AllByRecursion (IsExecutedCounted catalog.now events.now client) (all_executed executed.now)) }
{
    let Some((first, rest)) = executed.split_first() else {
        return Ok(true);
    };
    if !is_executed_counted(alloc, catalog, events, client, first)? {
        return Ok(false);
    }
    are_counted(alloc, catalog, events, client, rest)
}

fn are_resolved(
    alloc: Global,
    events: &[Event],
    client: u64,
    executed: &[Executed],
) -> Result<bool, NoMemory>
    ensures { IfOk result (λ are. IsTrue are ↔ AllByRecursion (IsExecutedResolved events.now client) (all_executed executed.now)) }
{
    let Some((first, rest)) = executed.split_first() else {
        return Ok(true);
    };
    if !is_executed_resolved(alloc, events, client, first)? {
        return Ok(false);
    }
    are_resolved(alloc, events, client, rest)
}

fn is_transaction_observed(
    alloc: Global,
    catalog: &Catalog,
    events: &[Event],
    stores: &Stores,
    id: TxId,
) -> Result<bool, NoMemory>
    ensures { IfOk result (λ is. IsTrue is ↔ HasTransactionNoDirtyReads catalog.now events.now stores.now id) }
{
    let turns = turns_of(alloc, events, id)?;
    let all = turns.as_slice();
    answers_have_rows(alloc, catalog, events, stores, all, all)
}

// Whether it holds of a client's first transactions.
fn are_observed_upto(
    alloc: Global,
    catalog: &Catalog,
    events: &[Event],
    stores: &Stores,
    client: u64,
    count: u64,
) -> Result<bool, NoMemory>
    ensures { IfOk result (λ are. IsTrue are ↔ HaveNoDirtyReadsUpto catalog.now events.now stores.now client count) }
{
    if count == 0 {
        return Ok(true);
    }
    let observed = is_transaction_observed(alloc, catalog, events, stores, id_of(client, count))?;
    if observed {
        return are_observed_upto(alloc, catalog, events, stores, client, count - 1);
    }
    Ok(false)
}

fn is_client_kept(
    alloc: Global,
    law: Law,
    catalog: &Catalog,
    events: &[Event],
    client: u64,
) -> Result<bool, NoMemory>
    ensures { IfOk result (λ is. IsTrue is ↔ HoldsOfClient law.entry catalog.now events.now client) }
{
    let executed = statements_by(alloc, client, events)?;
    match law {
        Law::Counts => are_counted(alloc, catalog, events, client, executed.as_slice()),
        Law::Rolls => are_resolved(alloc, events, client, executed.as_slice()),
        Law::Rows(stores) => {
            are_observed_upto(
                alloc,
                catalog,
                events,
                stores,
                client,
                executed.len() as u64,
            )
        }
    }
}

fn is_taker_kept(
    alloc: Global,
    law: Law,
    catalog: &Catalog,
    events: &[Event],
    event: &Event,
) -> Result<bool, NoMemory>
    ensures { IfOk result (λ is. IsTrue is ↔ IfSome (taker_lem event.now) (HoldsOfClient law.entry catalog.now events.now)) }
{
    match taker(event) {
        Some(client) => is_client_kept(alloc, law, catalog, events, client),
        None => Ok(true),
    }
}

fn are_takers_kept(
    alloc: Global,
    law: Law,
    catalog: &Catalog,
    events: &[Event],
    some: &[Event],
) -> Result<bool, NoMemory>
    ensures { IfOk result (λ are. IsTrue are ↔ HoldsOfClients law.entry catalog.now events.now some.now) }
{
    let Some((first, rest)) = some.split_first() else {
        return Ok(true);
    };
    if !is_taker_kept(alloc, law, catalog, events, first)? {
        return Ok(false);
    }
    are_takers_kept(alloc, law, catalog, events, rest)
}

/// Whether the calls of all statements of a run are counted. Slow.
pub fn calls_are_counted(
    alloc: Global,
    catalog: &Catalog,
    events: &[Event],
) -> Result<bool, NoMemory>
    ensures { IfOk result (λ are. IsTrue are ↔ AreCounted catalog.now events.now) }
{
    are_takers_kept(alloc, Law::Counts, catalog, events, events)
}

/// Whether each statement whose read finished had each unresolved record that was found rolled first. Slow.
pub fn records_are_resolved(
    alloc: Global,
    catalog: &Catalog,
    events: &[Event],
) -> Result<bool, NoMemory>
    ensures { IfOk result (λ are. IsTrue are ↔ AreResolved events.now) }
{
    are_takers_kept(alloc, Law::Rolls, catalog, events, events)
}

/// Whether all rows that answers show are rows that their transaction has: its own, or committed when they were read, by what the
/// stores contained. Slow. A before image with names that no record has counts as one out of memory.
pub fn have_no_dirty_reads(
    alloc: Global,
    catalog: &Catalog,
    events: &[Event],
    stores: &Stores,
) -> Result<bool, NoMemory>
    ensures { IfOk result (λ are. IsTrue are ↔ NoDirtyReads catalog.now stores.now.places events.now (all_contents stores.now.opening) (all_moments stores.now.moments)) }
{
    are_takers_kept(alloc, Law::Rows(stores), catalog, events, events)
}

fn broken(events: &[Event]) -> usize
    ensures count { result ≡ length (filter is_broken_lem events.now) }
    ensures most { result ≤ length events.now }
{
    let Some((first, rest)) = events.split_first() else {
        return 0;
    };
    let more = broken(rest);
    match first {
        Event::Call(_, _, _, How::Broken, _, _) => more + 1,
        Event::Land(_, _, _, How::Broken, _) => more + 1,
        _ => more,
    }
}

/// How many calls and landings the stores themselves failed.
pub fn broken_in(events: &[Event]) -> usize
    ensures { result ≡ broken_in_lem events.now }
{
    broken(events)
}
