//! What clients are in after some events.
ghost use Rattle.std.specs.Prelude.{◌≡◌, ◌&&◌, IfOk, is_none, false};
ghost use Rattle.std.specs.Option.{option_map_or};
ghost use Rattle.sdb_model.specs.Sql.{reads_vacuum};
ghost use Rattle.sdb_model.specs.Follows.{has_stopped as has_stopped_lem, is_open as is_open_lem, is_open_after as is_open_after_lem, runs_vacuum as runs_vacuum_lem, stops as stops_lem};
ghost use Rattle.sdb_contents.specs.Commits.{executed_of};
ghost use Rattle.check_tables.specs.Values.{is_doing as is_doing_lem, is_client_doing as is_client_doing_lem, taker as taker_lem, someone_does as someone_does_lem};

use sdb_contents::{Executed, begins, ends, is_word, statements_by};
use sdb_model::{Event, Keyword};
use sdb_types::NoMemory;
use std::alloc::Global;

/// What one client does, and another has to wait for: a transaction that is open, or a VACUUM that has no answer yet.
#[derive(Clone, Copy, Debug, PartialEq, Eq)]
pub enum Work {
    Transaction,
    Vacuum,
}

fn is_open_after(alloc: Global, was: bool, executed: &Executed) -> Result<bool, NoMemory>
    ensures { IfOk result (λ is. is ≡ is_open_after_lem was (executed_of executed.now)) }
{
    if begins(alloc, executed)? {
        return Ok(true);
    }
    if ends(alloc, executed)? && executed.answer.is_some() {
        return Ok(false);
    }
    Ok(was)
}

/// Whether a client has a transaction open after these events.
pub fn is_open(alloc: Global, past: &[Event], client: u64) -> Result<bool, NoMemory>
    ensures { IfOk result (λ is. is ≡ is_open_lem past.now client) }
{
    let executed = statements_by(alloc, client, past)?;
    let mut now = false;
    for s in executed.as_slice() {
        now = is_open_after(alloc, now, s)?;
    }
    Ok(now)
}

fn is_vacuuming(alloc: Global, executed: &Executed) -> Result<bool, NoMemory>
    ensures { IfOk result (λ runs. runs ≡ (reads_vacuum executed.now.text && is_none executed.now.answer)) }
{
    Ok(is_word(alloc, executed, Keyword::Vacuum)? && executed.answer.is_none())
}

/// Whether a client's VACUUM has no answer yet.
pub fn runs_vacuum(alloc: Global, past: &[Event], client: u64) -> Result<bool, NoMemory>
    ensures { IfOk result (λ runs. runs ≡ runs_vacuum_lem past.now client) }
{
    let executed = statements_by(alloc, client, past)?;
    let mut runs = false;
    for s in executed.as_slice() {
        runs = is_vacuuming(alloc, s)?;
    }
    Ok(runs)
}

fn stops(client: u64, event: &Event) -> bool
    ensures { result ≡ stops_lem client event.now }
{
    match event {
        Event::Stop(stopped) => u64::from(*stopped) == client,
        _ => false,
    }
}

/// Whether a client has stopped.
pub fn has_stopped(past: &[Event], client: u64) -> bool
    ensures { result ≡ has_stopped_lem client past.now }
{
    for event in past {
        if stops(client, event) {
            return true;
        }
    }
    false
}

fn is_doing(alloc: Global, work: Work, past: &[Event], client: u64) -> Result<bool, NoMemory>
    ensures { IfOk result (λ does. does ≡ is_doing_lem work past.now client) }
{
    match work {
        Work::Transaction => is_open(alloc, past, client),
        Work::Vacuum => runs_vacuum(alloc, past, client),
    }
}

fn is_client_doing(alloc: Global, work: Work, past: &[Event], client: u64) -> Result<bool, NoMemory>
    ensures { IfOk result (λ does. does ≡ is_client_doing_lem work past.now client) }
{
    if has_stopped(past, client) {
        return Ok(false);
    }
    is_doing(alloc, work, past, client)
}

/// The client that takes a statement by this event.
pub fn taker(event: &Event) -> Option<u64>
    ensures { result ≡ taker_lem event.now }
{
    match event {
        Event::Take(client, _, _) => Some(u64::from(*client)),
        _ => None,
    }
}

fn is_taker_doing(
    alloc: Global,
    work: Work,
    past: &[Event],
    event: &Event,
) -> Result<bool, NoMemory>
    ensures { IfOk result (λ does. does ≡ option_map_or (is_client_doing_lem work past.now) (taker_lem event.now) false) }
{
    match taker(event) {
        Some(client) => is_client_doing(alloc, work, past, client),
        None => Ok(false),
    }
}

/// Whether some client that isn't stopped does this after these events.
pub fn someone_does(alloc: Global, work: Work, past: &[Event]) -> Result<bool, NoMemory>
    ensures { IfOk result (λ does. does ≡ someone_does_lem work past.now) }
{
    for event in past {
        if is_taker_doing(alloc, work, past, event)? {
            return Ok(true);
        }
    }
    Ok(false)
}
