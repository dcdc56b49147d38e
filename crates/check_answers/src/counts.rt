//! How many calls single statements make.
ghost use Rattle.std.specs.Prelude.{◌≡◌, ◌↔◌, ◌≤◌, IfOk, IsTrue, count_by, filter, length};
ghost use Rattle.std.specs.List.{list_all, list_any};
ghost use Rattle.sdb_record.specs.Meta.{is_unresolved as is_unresolved_lem};
ghost use Rattle.sdb_model.specs.Calls.{is_removal as is_removal_lem};
ghost use Rattle.sdb_model.specs.Transactions.{id_of as id_of_lem, prepares as prepares_lem, is_committed_answer as is_told_committed_lem};
ghost use Rattle.sdb_contents.specs.Commits.{executed_of};
ghost use Rattle.check_protocol.specs.Values.{item_of};
ghost use Rattle.check_tables.specs.Values.{all_items};
ghost use Rattle.check_answers.specs.Tests.{any_upto};
ghost use Rattle.check_answers.specs.Counts.{IsExecutedCounted, all_seen, commit_counted as commit_counted_lem, covered as covered_lem, is_check as is_check_lem, is_prepared as is_prepared_lem, miscounted, others_counted as others_counted_lem, read_counted as read_counted_lem, unresolved_by, vacuum_counted as vacuum_counted_lem, puts_by as puts_by_lem, is_put_for as is_put_for_lem, at_most as at_most_lem, as_many as as_many_lem};

use crate::puts::{puts_count, puts_key};
use crate::{is_commit_of, is_unresolved};
use check_protocol::ReadItem;
use check_tables::{Made, calls_of, id_of, is_prepare, is_removal, read_set_of, reads_rows};
use sdb_contents::{Executed, is_word, statements_by};
use sdb_model::{Answer, Event, How, Keyword};
use sdb_schema::Catalog;
use sdb_types::{Key, NoMemory, Record, Reply, TxId};
use std::alloc::Global;

fn are_seen(calls: &[Made]) -> bool
    ensures { result ≡ all_seen calls.now }
{
    for made in calls {
        if !matches!(made.how, How::Seen) {
            return false;
        }
    }
    true
}

fn is_prepared(calls: &[Made], id: TxId, key: &Key) -> bool
    ensures { result ≡ is_prepared_lem calls.now id key.now }
{
    for made in calls {
        if is_prepare(&made.request, id) && puts_key(&made.request, key) {
            return true;
        }
    }
    false
}

// Whether a COMMIT checks a read item: a scan, or a get of a key that it doesn't prepare.
fn is_check(calls: &[Made], id: TxId, item: &ReadItem) -> bool
    ensures { result ≡ is_check_lem calls.now id (item_of item.now) }
{
    match item {
        ReadItem::KeyRead(read) => !is_prepared(calls, id, &read.key),
        ReadItem::SpanRead(_) => true,
    }
}

fn prepares(calls: &[Made], id: TxId) -> usize
    ensures { result ≡ count_by (λ m. prepares_lem id m.request) calls.now }
{
    calls
        .iter()
        .filter(|made| is_prepare(&made.request, id))
        .count()
}

#[tactic(auto, using(crate::proofs::Maps::count_mapped))]
fn checks(calls: &[Made], read_set: &[ReadItem], id: TxId) -> usize
    ensures { result ≡ count_by (is_check_lem calls.now id) (all_items read_set.now) }
{
    read_set
        .iter()
        .filter(|item| is_check(calls, id, item))
        .count()
}

// How many records a call puts, if it is a prepare.
fn puts_by(id: TxId, made: &Made) -> usize
    ensures { result ≡ puts_by_lem id made.now }
{
    if is_prepare(&made.request, id) {
        puts_count(&made.request)
    } else {
        0
    }
}

// Whether so many calls are at most one for each record that is prepared.
fn is_put_for(id: TxId, count: u128, calls: &[Made]) -> bool
    ensures { result ≡ is_put_for_lem id count calls.now }
{
    let Some((first, rest)) = calls.split_first() else {
        return count == 0;
    };
    let puts = puts_by(id, first) as u128;
    is_put_for(id, count.saturating_sub(puts), rest)
}

// Whether there are at most one call for each prepare, one for each check, four, and one for each record that is prepared.
fn at_most(calls: &[Made], read_set: &[ReadItem], id: TxId) -> bool
    ensures { result ≡ at_most_lem calls.now (all_items read_set.now) id }
{
    let checks = checks(calls, read_set, id) as u128;
    let free = prepares(calls, id) as u128 + checks + 4;
    let made = calls.len() as u128;
    is_put_for(id, made.saturating_sub(free), calls)
}

// Whether there are two calls for each prepare, one for each check, and one.
fn as_many(calls: &[Made], read_set: &[ReadItem], id: TxId) -> bool
    ensures { result ≡ as_many_lem calls.now (all_items read_set.now) id }
{
    let checks = checks(calls, read_set, id) as u128;
    calls.len() as u128 == 2 * (prepares(calls, id) as u128) + checks + 1
}

fn is_told_committed(executed: &Executed) -> bool
    ensures { result ≡ is_told_committed_lem executed.now.answer }
{
    matches!(executed.answer, Some(Answer::Committed))
}

fn commit_counted(calls: &[Made], read_set: &[ReadItem], id: TxId, executed: &Executed) -> bool
    ensures { result ≡ commit_counted_lem calls.now (all_items read_set.now) id (executed_of executed.now) }
{
    at_most(calls, read_set, id)
        && (!(is_told_committed(executed) && are_seen(calls)) || as_many(calls, read_set, id))
}

// Whether a statement is the COMMIT of a transaction, and its calls are not counted.
fn is_miscounted(
    alloc: Global,
    events: &[Event],
    client: u64,
    executed: &Executed,
    calls: &[Made],
    id: TxId,
) -> Result<bool, NoMemory>
    ensures { IfOk result (λ is. is ≡ miscounted events.now client (executed_of executed.now) calls.now id) }
{
    let commits = is_commit_of(alloc, events, client, executed, id)?;
    if !commits {
        return Ok(false);
    }
    let read_set = read_set_of(alloc, events, id)?;
    Ok(!commit_counted(calls, read_set.as_slice(), id, executed))
}

// Whether it holds of one of a client's first transactions.
fn any_miscounted(
    alloc: Global,
    events: &[Event],
    client: u64,
    executed: &Executed,
    calls: &[Made],
    count: u64,
) -> Result<bool, NoMemory>
    ensures { IfOk result (λ is. is ≡ any_upto (λ k. miscounted events.now client (executed_of executed.now) calls.now (id_of_lem client k)) count) }
{
    if count == 0 {
        return Ok(false);
    }
    let wrong = is_miscounted(alloc, events, client, executed, calls, id_of(client, count))?;
    if wrong {
        return Ok(true);
    }
    any_miscounted(alloc, events, client, executed, calls, count - 1)
}

fn unresolved_among(alloc: Global, rows: &[Record]) -> usize
    ensures { result ≡ count_by is_unresolved_lem rows.now }
{
    rows.iter().filter(|rec| is_unresolved(alloc, rec)).count()
}

// How many unresolved records a read found.
fn unresolved_in(alloc: Global, made: &Made) -> usize
    ensures { result ≡ unresolved_by made.now }
{
    if !reads_rows(made) {
        return 0;
    }
    match &made.reply {
        Reply::Found(Some(rec)) => { if is_unresolved(alloc, rec) { 1 } else { 0 } }
        Reply::Rows(rows) => unresolved_among(alloc, rows.as_slice()),
        _ => 0,
    }
}

// Whether so many calls are at most so many for each unresolved record that was found.
fn covered(alloc: Global, each: u128, count: u128, calls: &[Made]) -> bool
    requires { each ≤ 5 }
    ensures { result ≡ covered_lem each count calls.now }
{
    let Some((first, rest)) = calls.split_first() else {
        return count == 0;
    };
    let found = unresolved_in(alloc, first) as u128;
    covered(alloc, each, count.saturating_sub(each * found), rest)
}

fn removals(calls: &[Made]) -> usize
    ensures count { result ≡ length (filter (λ m. is_removal_lem m.request) calls.now) }
    ensures most { result ≤ length calls.now }
{
    let Some((first, rest)) = calls.split_first() else {
        return 0;
    };
    let more = removals(rest);
    if is_removal(&first.request) {
        more + 1
    } else {
        more
    }
}

fn vacuum_counted(alloc: Global, catalog: &Catalog, calls: &[Made]) -> bool
    ensures { result ≡ vacuum_counted_lem catalog.now calls.now }
{
    let free = catalog.len() as u128 + removals(calls) as u128;
    let made = calls.len() as u128;
    covered(alloc, 5, made.saturating_sub(free), calls)
}

fn read_counted(alloc: Global, calls: &[Made]) -> bool
    ensures { result ≡ read_counted_lem calls.now }
{
    let made = calls.len() as u128;
    covered(alloc, 4, made.saturating_sub(1), calls)
}

fn others_counted(
    alloc: Global,
    catalog: &Catalog,
    executed: &Executed,
    calls: &[Made],
) -> Result<bool, NoMemory>
    ensures { IfOk result (λ is. is ≡ others_counted_lem catalog.now (executed_of executed.now) calls.now) }
{
    let vacuums = is_word(alloc, executed, Keyword::Vacuum)?;
    if vacuums {
        return Ok(vacuum_counted(alloc, catalog, calls));
    }
    let commits = is_word(alloc, executed, Keyword::Commit)?;
    Ok(commits || read_counted(alloc, calls))
}

/// Whether the calls of a statement are counted.
pub fn is_executed_counted(
    alloc: Global,
    catalog: &Catalog,
    events: &[Event],
    client: u64,
    executed: &Executed,
) -> Result<bool, NoMemory>
    ensures { IfOk result (λ is. IsTrue is ↔ IsExecutedCounted catalog.now events.now client (executed_of executed.now)) }
{
    let all = statements_by(alloc, client, events)?;
    let calls = calls_of(alloc, events, client, executed)?;
    let made = calls.as_slice();
    let miscounted = any_miscounted(alloc, events, client, executed, made, all.len() as u64)?;
    if miscounted {
        return Ok(false);
    }
    others_counted(alloc, catalog, executed, made)
}
