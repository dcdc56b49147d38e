//! Whether a list of events is lawful, decided.
ghost use Rattle.std.specs.Prelude.{◌≡◌, ◌↔◌, IsTrue, IfOk};
ghost use Rattle.law_protocol.specs.Lawful.{IsLawful};
ghost use Rattle.check_protocol.specs.Values.{plan_in, all_labelled};
ghost use Rattle.check_protocol.specs.Rules.{acts_well, follows_well, obeys_rules, occurs_well};

use crate::late::was_delayed;
use crate::rolls::{answers_truly, may_remove, may_roll};
use crate::rules::{
    is_quiet, may_abort, may_begin, may_check, may_decide, may_prepare, may_stop, may_take,
};
use crate::{Action, Labelled, Plan, observed};
use sdb_model::Event;
use sdb_types::{NoMemory, Record};
use std::alloc::Global;

// Of an event other than a landing.
fn is_enabled(
    alloc: Global,
    found_in: &[Record],
    past: &[Labelled],
    plans: &[Plan],
    event: &Event,
    action: &Action,
) -> Result<bool, NoMemory>
    ensures { IfOk result (λ well. well ≡ acts_well found_in.now past.now plans.now event.now action.now) }
{
    match action {
        Action::Other => Ok(is_quiet(event)),
        Action::Begins(id, client) => may_begin(alloc, past, event, *id, *client),
        Action::Takes(id) => may_take(alloc, found_in, past, plans, event, *id),
        Action::Prepares(id, keys, word) => {
            may_prepare(alloc, past, plans, event, *id, keys.as_slice(), *word)
        }
        Action::Checks(id, i) => Ok(may_check(past, plans, event, *id, *i)),
        Action::Decides(id, word) => may_decide(alloc, past, plans, event, *id, *word),
        Action::Aborts(id, moment, word) => may_abort(alloc, event, *id, *moment, *word),
        Action::Rolls(id, keys, decision) => {
            may_roll(
                alloc,
                found_in,
                past,
                plans,
                event,
                *id,
                keys.as_slice(),
                *decision,
            )
        }
        Action::Removes(key, id) => may_remove(alloc, found_in, past, event, key, *id),
        Action::Ends(_) => Ok(false),
        Action::Stops(client) => Ok(may_stop(event, *client)),
    }
}

fn may_occur(
    alloc: Global,
    found_in: &[Record],
    past: &[Labelled],
    plans: &[Plan],
    event: &Event,
    action: &Action,
) -> Result<bool, NoMemory>
    ensures { IfOk result (λ well. well ≡ occurs_well found_in.now past.now plans.now event.now action.now) }
{
    match event {
        Event::Land(_, _, request, _, _) => Ok(was_delayed(past, request.get(), action)),
        _ => is_enabled(alloc, found_in, past, plans, event, action),
    }
}

fn may_follow(
    alloc: Global,
    plans: &[Plan],
    whole: &[Labelled],
    past: &[Labelled],
    labelled: &Labelled,
) -> Result<bool, NoMemory>
    ensures { IfOk result (λ well. well ≡ follows_well plans.now whole.now past.now labelled.now) }
{
    let before = observed(alloc, past)?;
    if !may_occur(
        alloc,
        before.as_slice(),
        past,
        plans,
        &labelled.event,
        &labelled.action,
    )? {
        return Ok(false);
    }
    let after = observed(alloc, whole)?;
    answers_truly(alloc, after.as_slice(), whole, past, labelled)
}

fn all_follow(alloc: Global, plans: &[Plan], past: &[Labelled]) -> Result<bool, NoMemory>
    ensures { IfOk result (λ well. well ≡ obeys_rules plans.now past.now) }
{
    match past.split_first() {
        None => Ok(true),
        Some((labelled, before)) => {
            if !all_follow(alloc, plans, before)? {
                return Ok(false);
            }
            may_follow(alloc, plans, past, before, labelled)
        }
    }
}

/// Whether a list of events, newest first, obeys the rules of the protocol, where transactions go into their COMMITs with these
/// plans. One that has no plan writes and reads nothing. Slow: each event is tested against all those before it, several times
/// over.
pub fn is_lawful(alloc: Global, plans: &[Plan], past: &[Labelled]) -> Result<bool, NoMemory>
    ensures { IfOk result (λ lawful. IsTrue lawful ↔ IsLawful (plan_in plans.now) (all_labelled past.now)) }
{
    all_follow(alloc, plans, past)
}
