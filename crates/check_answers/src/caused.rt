//! Whether answers have their causes.
ghost use Rattle.std.specs.Prelude.{◌≡◌, ◌||◌, IfOk, IfSome, IsTrue, ◌↔◌};
ghost use Rattle.std.specs.List.{AllByRecursion};
ghost use Rattle.sdb_model.specs.declared.answer.Answer.TheVariants as answer;
ghost use Rattle.sdb_model.specs.Catalogs.{catalog_after as catalog_after_lem};
ghost use Rattle.sdb_model.specs.Causes.{AreCaused, IsCaused, IsRejected, MayPassMost, before as before_lem};
ghost use Rattle.sdb_contents.specs.Commits.{all_executed, executed_of};
ghost use Rattle.check_tables.specs.Values.{taker as taker_lem};
ghost use Rattle.check_answers.specs.Tests.{answered_with, same_answer, AreTakersWell, IsAnswerCaused, IsClientWell, IsOfDuplicate, IsTurnedIfDue, IsWellAnswered};
ghost use Rattle.sdb_client.specs.Client.{is_out_of_memory};

use crate::bad::is_bad_record;
use crate::busy::is_busy;
use crate::commit::{is_expired, is_of_commit, is_unknown};
use crate::conflict::is_conflict;
use crate::full::may_pass_most;
use crate::plain::{before, has_fault, is_of_count, is_of_done, is_of_duplicate, is_of_rows};
use crate::same::is_same_answer;
use crate::turned::turned_away;
use check_tables::{catalog_after, taker};
use sdb_contents::{Executed, statements_by};
use sdb_model::{Answer, Event, Refusal};
use sdb_schema::Catalog;
use sdb_types::{Key, NoMemory};
use std::alloc::Global;

// Whether a statement is to be turned away with what it is answered.
fn is_turned_with(
    alloc: Global,
    catalog: &Catalog,
    events: &[Event],
    client: u64,
    executed: &Executed,
    answer: &Answer,
) -> Result<bool, NoMemory>
    ensures { IfOk result (λ is. IsTrue is ↔ IsRejected catalog.now (before_lem (executed_of executed.now) events.now) client executed.now.text answer.now) }
{
    match turned_away(
        alloc,
        catalog,
        before(executed, events),
        client,
        &executed.text,
    )? {
        Some(turned) => Ok(is_same_answer(&turned, answer)),
        None => Ok(false),
    }
}

// Whether it is the refusal of too many keys, and the transaction may write more than it may.
fn is_past_most(
    alloc: Global,
    events: &[Event],
    client: u64,
    executed: &Executed,
    refusal: Refusal,
) -> Result<bool, NoMemory>
    ensures { IfOk result (λ is. IsTrue is ↔ ((refusal.kind ≡ 15) × (refusal.place ≡ 0) × MayPassMost events.now client (executed_of executed.now))) }
{
    if refusal.kind == 15 && refusal.place == 0 {
        return may_pass_most(alloc, events, client, executed);
    }
    Ok(false)
}

// Whether a refusal has its cause.
fn is_refused(
    alloc: Global,
    catalog: &Catalog,
    events: &[Event],
    client: u64,
    executed: &Executed,
    refusal: Refusal,
) -> Result<bool, NoMemory>
    ensures { IfOk result (λ is. IsTrue is ↔ IsCaused catalog.now events.now client (executed_of executed.now) (answer.Refused refusal)) }
{
    let answer = Answer::Refused(refusal);
    let turned = is_turned_with(alloc, catalog, events, client, executed, &answer)?;
    if turned {
        return Ok(true);
    }
    is_past_most(alloc, events, client, executed, refusal)
}

// The cause of Duplicate, under the tables with which the statement was accepted.
fn is_of_duplicate_then(
    alloc: Global,
    catalog: &Catalog,
    events: &[Event],
    executed: &Executed,
    key: &Key,
) -> Result<bool, NoMemory>
    ensures { IfOk result (λ is. IsTrue is ↔ IsOfDuplicate (catalog_after_lem catalog.now (before_lem (executed_of executed.now) events.now)) (executed_of executed.now) key.now) }
{
    let then = catalog_after(catalog, before(executed, events))?;
    is_of_duplicate(alloc, &then, executed, key)
}

/// Whether an answer to a statement of a client has its cause.
pub fn has_cause(
    alloc: Global,
    catalog: &Catalog,
    events: &[Event],
    client: u64,
    executed: &Executed,
    answer: &Answer,
) -> Result<bool, NoMemory>
    ensures { IfOk result (λ has. IsTrue has ↔ IsCaused catalog.now events.now client (executed_of executed.now) answer.now) }
{
    match answer {
        Answer::Rows(_) => is_of_rows(alloc, events, client, executed),
        Answer::Count(count) => is_of_count(alloc, events, client, executed, *count),
        Answer::Done => is_of_done(alloc, executed),
        Answer::Committed => is_of_commit(alloc, events, client, executed),
        Answer::Duplicate(key) => is_of_duplicate_then(alloc, catalog, events, executed, key),
        Answer::Busy(key, id, at) => is_busy(alloc, events, client, executed, key, *id, *at),
        Answer::Conflict(key, found) => is_conflict(alloc, events, client, executed, key, found),
        Answer::Expired(id) => is_expired(alloc, events, client, executed, *id),
        Answer::Faulted => has_fault(alloc, events, client, executed),
        Answer::Unknown(id) => is_unknown(alloc, events, client, executed, *id),
        Answer::BadRecord(key) => is_bad_record(alloc, catalog, events, client, executed, key),
        Answer::Refused(refusal) => is_refused(alloc, catalog, events, client, executed, *refusal),
        Answer::Vacuuming => is_turned_with(alloc, catalog, events, client, executed, answer),
        Answer::OpenTransactions => is_turned_with(
            alloc, catalog, events, client, executed, answer,
        ),
        Answer::NoMemory => Ok(true),
    }
}

fn is_answer_caused(
    alloc: Global,
    catalog: &Catalog,
    events: &[Event],
    client: u64,
    executed: &Executed,
) -> Result<bool, NoMemory>
    ensures { IfOk result (λ is. IsTrue is ↔ IsAnswerCaused catalog.now events.now client (executed_of executed.now)) }
{
    match &executed.answer {
        Some(answer) => has_cause(alloc, catalog, events, client, executed, answer),
        None => Ok(true),
    }
}

fn is_answer(answer: &Answer, turned: &Answer) -> bool
    ensures { result ≡ (is_out_of_memory answer.now || same_answer answer.now turned.now) }
{
    match answer {
        Answer::NoMemory => true,
        _ => is_same_answer(answer, turned),
    }
}

fn is_answered_with(executed: &Executed, turned: &Answer) -> bool
    ensures { result ≡ answered_with (executed_of executed.now) turned.now }
{
    if executed.reached != executed.accepted {
        return false;
    }
    match &executed.answer {
        Some(answer) => is_answer(answer, turned),
        None => false,
    }
}

// Whether a statement that is to be turned away is, unless memory ran out.
fn is_turned_if_due(
    alloc: Global,
    catalog: &Catalog,
    events: &[Event],
    client: u64,
    executed: &Executed,
) -> Result<bool, NoMemory>
    ensures { IfOk result (λ is. IsTrue is ↔ IsTurnedIfDue catalog.now events.now client (executed_of executed.now)) }
{
    match turned_away(
        alloc,
        catalog,
        before(executed, events),
        client,
        &executed.text,
    )? {
        Some(turned) => Ok(is_answered_with(executed, &turned)),
        None => Ok(true),
    }
}

fn is_well_answered(
    alloc: Global,
    catalog: &Catalog,
    events: &[Event],
    client: u64,
    executed: &Executed,
) -> Result<bool, NoMemory>
    ensures { IfOk result (λ is. IsTrue is ↔ IsWellAnswered catalog.now events.now client (executed_of executed.now)) }
{
    let caused = is_answer_caused(alloc, catalog, events, client, executed)?;
    if caused {
        let turned = is_turned_if_due(alloc, catalog, events, client, executed)?;
        return Ok(turned);
    }
    Ok(false)
}

fn are_well_answered(
    alloc: Global,
    catalog: &Catalog,
    events: &[Event],
    client: u64,
    executed: &[Executed],
) -> Result<bool, NoMemory>
    ensures { IfOk result (λ are. IsTrue are ↔ AllByRecursion (IsWellAnswered catalog.now events.now client) (all_executed executed.now)) }
{
    let Some((first, rest)) = executed.split_first() else {
        return Ok(true);
    };
    if !is_well_answered(alloc, catalog, events, client, first)? {
        return Ok(false);
    }
    are_well_answered(alloc, catalog, events, client, rest)
}

fn is_client_well(
    alloc: Global,
    catalog: &Catalog,
    events: &[Event],
    client: u64,
) -> Result<bool, NoMemory>
    ensures { IfOk result (λ is. IsTrue is ↔ IsClientWell catalog.now events.now client) }
{
    let executed = statements_by(alloc, client, events)?;
    are_well_answered(alloc, catalog, events, client, executed.as_slice())
}

fn is_taker_well(
    alloc: Global,
    catalog: &Catalog,
    events: &[Event],
    event: &Event,
) -> Result<bool, NoMemory>
    ensures { IfOk result (λ is. IsTrue is ↔ IfSome (taker_lem event.now) (IsClientWell catalog.now events.now)) }
{
    match taker(event) {
        Some(client) => is_client_well(alloc, catalog, events, client),
        None => Ok(true),
    }
}

fn are_takers_well(
    alloc: Global,
    catalog: &Catalog,
    events: &[Event],
    some: &[Event],
) -> Result<bool, NoMemory>
    ensures { IfOk result (λ are. IsTrue are ↔ AreTakersWell catalog.now events.now some.now) }
{
    let Some((first, rest)) = some.split_first() else {
        return Ok(true);
    };
    if !is_taker_well(alloc, catalog, events, first)? {
        return Ok(false);
    }
    are_takers_well(alloc, catalog, events, rest)
}

/// Whether every answer of a run has its cause, and a statement that is to be turned away is, unless memory ran out. Slow: each
/// statement is looked at once for each statement of its client, and over all events many times.
pub fn answers_have_causes(
    alloc: Global,
    catalog: &Catalog,
    events: &[Event],
) -> Result<bool, NoMemory>
    ensures { IfOk result (λ are. IsTrue are ↔ AreCaused catalog.now events.now) }
{
    are_takers_well(alloc, catalog, events, events)
}
