//! The cause of the refusal of too many keys: by what a transaction's statements counted and found, it may write more than it may.
ghost use Rattle.std.specs.Prelude.{◌≡◌, ◌-◌, ◌==◌, false, IfOk, IsTrue, ◌↔◌, length};
ghost use Rattle.std.specs.Option.{option_map_or};
ghost use Rattle.sdb_model.specs.Calls.{records_read};
ghost use Rattle.sdb_model.specs.Causes.{MayPassMost, rows_counted as rows_counted_lem, counted_by};
ghost use Rattle.sdb_model.specs.ReadSet.{has_read};
ghost use Rattle.sdb_model.specs.Transactions.{id_of as id_of_lem, is_effective as is_effective_lem};
ghost use Rattle.sdb_contents.specs.Commits.{executed_of, all_executed};
ghost use Rattle.check_answers.specs.Tests.{any_upto, before_only, found_among, found_by, found_left as found_left_lem, is_before as is_before_lem, passes_left as passes_left_lem, passes_most as passes_most_lem, read_by as read_by_lem, total_before, written_left as written_left_lem};

use crate::commit::is_in;
use crate::reading::statement_in;
use check_tables::{
    Made, calls_of, has_finished, id_of, inside_of, is_effective, ordinal_of, reads_rows,
};
use sdb_contents::{Executed, statements_by};
use sdb_model::{Answer, Event, Statement};
use sdb_types::{NoMemory, Reply, TxId};
use std::alloc::Global;

fn rows_counted(answer: &Option<Answer>) -> u64
    ensures { result ≡ rows_counted_lem answer.now }
{
    match answer {
        Some(Answer::Count(count)) => *count,
        _ => 0,
    }
}

fn is_before(executed: &Executed, accepted: u64) -> bool
    ensures { result ≡ is_before_lem is_effective_lem accepted (executed_of executed.now) }
{
    is_effective(executed) && executed.accepted < accepted
}

// What is left of a number without the rows that a statement counted, where it was accepted before.
fn without_counted(executed: &Executed, accepted: u64, left: u64) -> u64
    ensures { result ≡ left - before_only is_effective_lem counted_by accepted (executed_of executed.now) }
{
    if is_before(executed, accepted) {
        left.saturating_sub(rows_counted(&executed.answer))
    } else {
        left
    }
}

fn without_all_counted(inside: &[Executed], accepted: u64, left: u64) -> u64
    ensures { result ≡ left - total_before is_effective_lem counted_by accepted (all_executed inside.now) }
{
    let Some((first, rest)) = inside.split_first() else {
        return left;
    };
    without_all_counted(rest, accepted, without_counted(first, accepted, left))
}

fn count_read(reply: &Reply) -> usize
    ensures { result ≡ length (records_read reply.now) }
{
    match reply {
        Reply::Found(Some(_)) => 1,
        Reply::Rows(rows) => rows.len(),
        _ => 0,
    }
}

fn without_read(made: &Made, left: u64) -> u64
    ensures { result ≡ left - read_by_lem made.now }
{
    if reads_rows(made) {
        left.saturating_sub(count_read(&made.reply) as u64)
    } else {
        left
    }
}

fn without_found(calls: &[Made], left: u64) -> u64
    ensures { result ≡ left - found_among calls.now }
{
    let Some((first, rest)) = calls.split_first() else {
        return left;
    };
    without_found(rest, without_read(first, left))
}

// What is left of a number without the records that a statement's reads found.
#[tactic(auto, using(crate::proofs::FullLaws::found_is))]
fn without_found_by(
    alloc: Global,
    events: &[Event],
    client: u64,
    executed: &Executed,
    left: u64,
) -> Result<u64, NoMemory>
    ensures { IfOk result (λ n. n ≡ left - found_by events.now client (executed_of executed.now)) }
{
    let calls = calls_of(alloc, events, client, executed)?;
    Ok(without_found(calls.as_slice(), left))
}

#[tactic(auto, using(crate::proofs::FullLaws::found_is))]
fn without_found_before(
    alloc: Global,
    events: &[Event],
    client: u64,
    executed: &Executed,
    accepted: u64,
    left: u64,
) -> Result<u64, NoMemory>
    ensures { IfOk result (λ n. n ≡ left - before_only (has_read events.now client) (found_by events.now client) accepted (executed_of executed.now)) }
{
    if executed.accepted >= accepted {
        return Ok(left);
    }
    let calls = calls_of(alloc, events, client, executed)?;
    if has_finished(alloc, calls.as_slice(), executed) {
        Ok(without_found(calls.as_slice(), left))
    } else {
        Ok(left)
    }
}

fn without_all_found(
    alloc: Global,
    events: &[Event],
    client: u64,
    inside: &[Executed],
    accepted: u64,
    left: u64,
) -> Result<u64, NoMemory>
    ensures { IfOk result (λ n. n ≡ left - total_before (has_read events.now client) (found_by events.now client) accepted (all_executed inside.now)) }
{
    let Some((first, rest)) = inside.split_first() else {
        return Ok(left);
    };
    let left = without_found_before(alloc, events, client, first, accepted, left)?;
    without_all_found(alloc, events, client, rest, accepted, left)
}

// What is left of one more than the most keys, after the rows that were counted and the records that were found.
fn both_left(
    alloc: Global,
    events: &[Event],
    client: u64,
    executed: &Executed,
    id: TxId,
) -> Result<(u64, u64), NoMemory>
    ensures { IfOk result (λ left. left ≡ (written_left_lem events.now id executed.now.accepted, found_left_lem events.now client id (executed_of executed.now))) }
{
    let all = statements_by(alloc, check_tables::client_of(id), events)?;
    let inside = inside_of(alloc, all.as_slice(), ordinal_of(id))?;
    let written = without_all_counted(inside, executed.accepted, 4097);
    let before = without_all_found(alloc, events, client, inside, executed.accepted, written)?;
    let found = without_found_by(alloc, events, client, executed, before)?;
    Ok((written, found))
}

fn passes_left(statement: &Option<Statement>, written: u64, found: u64) -> bool
    ensures { result ≡ option_map_or (passes_left_lem written found) statement.now false }
{
    match statement {
        Some(Statement::Insert(_) | Statement::Upsert(_)) => written <= 1,
        Some(Statement::Update(_) | Statement::Delete(_)) => found == 0,
        _ => false,
    }
}

fn passes_most(
    alloc: Global,
    events: &[Event],
    client: u64,
    executed: &Executed,
    statement: &Option<Statement>,
    id: TxId,
) -> Result<bool, NoMemory>
    ensures { IfOk result (λ passes. passes ≡ passes_most_lem events.now client (executed_of executed.now) statement.now id) }
{
    let within = is_in(alloc, events, client, executed, id)?;
    if within {
        let (written, found) = both_left(alloc, events, client, executed, id)?;
        return Ok(passes_left(statement, written, found));
    }
    Ok(false)
}

// Whether it holds of one of a client's first transactions.
#[tactic(auto, using(crate::proofs::IdLaws::upto_step))]
fn any_passes(
    alloc: Global,
    events: &[Event],
    client: u64,
    executed: &Executed,
    statement: &Option<Statement>,
    count: u64,
) -> Result<bool, NoMemory>
    ensures { IfOk result (λ any. any ≡ any_upto (λ k. passes_most_lem events.now client (executed_of executed.now) statement.now (id_of_lem client k)) count) }
{
    if count == 0 {
        return Ok(false);
    }
    let passes = passes_most(
        alloc,
        events,
        client,
        executed,
        statement,
        id_of(client, count),
    )?;
    if passes {
        return Ok(true);
    }
    any_passes(alloc, events, client, executed, statement, count - 1)
}

/// Whether a statement writes, and its transaction may write more keys with it than it may.
pub fn may_pass_most(
    alloc: Global,
    events: &[Event],
    client: u64,
    executed: &Executed,
) -> Result<bool, NoMemory>
    ensures { IfOk result (λ may. IsTrue may ↔ MayPassMost events.now client (executed_of executed.now)) }
{
    let statement = statement_in(alloc, &executed.text)?;
    let all = statements_by(alloc, client, events)?;
    let count = all.len() as u64;
    any_passes(alloc, events, client, executed, &statement, count)
}
