//! The calls of a statement.
ghost use Rattle.std.specs.Prelude.{◌≡◌, ◌++◌, [], IfOk, OnOk, filter};
ghost use Rattle.std.specs.Option.{option_map};
ghost use Rattle.std.specs.List.{cons_option};
ghost use Rattle.sdb_model.specs.Calls.{made_by as made_by_lem, calls_of as calls_of_lem, end_of as end_of_lem};
ghost use Rattle.sdb_contents.specs.Commits.{executed_of};
ghost use Rattle.check_tables.specs.Values.{made_of, all_made, is_within};

use sdb_contents::Executed;
use sdb_model::{Event, How};
use sdb_types::{Duplicate, Name, NoMemory, Reply, Request, Seq};
use std::alloc::Global;

/// A call that a client made, with the number of its event, from 1.
#[derive(Debug)]
pub struct Made {
    pub at: u64,
    pub store: Name,
    pub request: Request,
    pub how: How,
    pub reply: Reply,
}

// By hand: each drop is then one call, where a derived one is written out at each exit, with a call for each field.
impl Drop for Made {
    fn drop(self) {
        let Made {
            at: _,
            store: _,
            request: _,
            how: _,
            reply: _,
        } = self;
    }
}

fn made_by(client: u64, number: u64, event: &Event) -> Result<Option<Made>, NoMemory>
    ensures { IfOk result (λ found. option_map made_of found ≡ made_by_lem client (number, event.now)) }
{
    match event {
        Event::Call(caller, store, request, how, reply, _) => {
            if u64::from(*caller) != client {
                return Ok(None);
            }
            Ok(Some(Made {
                at: number,
                store: store.copy()?,
                request: request.get().copy()?,
                how: *how,
                reply: reply.get().copy()?,
            }))
        }
        _ => Ok(None),
    }
}

/// The number of the event that answered a statement, or of the last event where none did.
pub fn end_of(events: &[Event], executed: &Executed) -> u64
    ensures { result ≡ end_of_lem events.now (executed_of executed.now) }
{
    match executed.answer {
        Some(_) => executed.reached,
        None => events.len() as u64,
    }
}

fn is_made_within(accepted: u64, end: u64, made: &Made) -> bool
    ensures { result ≡ is_within accepted end (made_of made.now) }
{
    accepted < made.at && made.at <= end
}

fn add_call(
    calls: &mut Seq<Made>,
    client: u64,
    accepted: u64,
    end: u64,
    number: u64,
    event: &Event,
) -> Result<(), NoMemory>
    ensures { OnOk result (all_made calls.new ≡ all_made calls.old ++ filter (is_within accepted end) (cons_option (made_by_lem client (number, event.now)) [])) }
{
    match made_by(client, number, event)? {
        Some(made) => {
            if is_made_within(accepted, end, &made) {
                calls.push(made)?;
            }
            Ok(())
        }
        None => Ok(()),
    }
}

/// A statement's calls: its client's after its Take, up to its answer, or to the end where it has none.
pub fn calls_of(
    alloc: Global,
    events: &[Event],
    client: u64,
    executed: &Executed,
) -> Result<Seq<Made>, NoMemory>
    ensures { IfOk result (λ calls. all_made calls ≡ calls_of_lem events.now client (executed_of executed.now)) }
{
    let end = end_of(events, executed);
    let mut calls = Seq::new(alloc);
    let mut i = 0;
    while i < events.len() {
        add_call(
            &mut calls,
            client,
            executed.accepted,
            end,
            i as u64 + 1,
            &events[i],
        )?;
        i += 1;
    }
    Ok(calls)
}
