//! Events of whole lines.
ghost use Rattle.std.specs.Prelude.{◌≡◌};
ghost use Rattle.sdb_report.specs.FieldReading as spec;
ghost use Rattle.sdb_report.specs.FieldReading.{Gives};
ghost use Rattle.sdb_report.specs.Lines as form;

use crate::alters::alter_of;
use crate::{
    Unread, after, expect, given_at, integer_at, name_at, next_how_at, next_landed_how_at,
    reply_at, request_at, text_of, u32_at,
};
use itoa::Buffer;
use sdb_model::{Answer, Event, How};
use sdb_types::{Name, Reply, Request};
use std::alloc::Global;

fn next_given_at(alloc: Global, bytes: &[u8]) -> Result<(Option<Answer>, &[u8]), Unread>
    ensures { Gives (λ x. (x.0, x.1.now)) result (form.behind_space form.given_at bytes.now) }
{
    let rest = expect(b" ", bytes)?;
    given_at(alloc, rest)
}

#[tactic(auto, unfolding(crate::specs::Lines::take_of))]
fn take_of(alloc: Global, line: &[u8]) -> Result<Event, Unread>
    ensures { Gives (λ e. e) result (form.take_of line.now) }
{
    let (client, rest) = u32_at(line)?;
    let (given, rest) = next_given_at(alloc, rest)?;
    let rest = expect(b" : ", rest)?;
    let text = text_of(alloc, rest)?;
    Ok(Event::take(alloc, client, text, given)?)
}

fn next_name_at(alloc: Global, bytes: &[u8]) -> Result<(Name, &[u8]), Unread>
    ensures { Gives (λ x. (x.0, x.1.now)) result (form.behind_space spec.name_at bytes.now) }
{
    let rest = expect(b" ", bytes)?;
    name_at(alloc, rest)
}

fn next_request_at(alloc: Global, bytes: &[u8]) -> Result<(Request, &[u8]), Unread>
    ensures { Gives (λ x. (x.0, x.1.now)) result (form.behind_space form.request_at bytes.now) }
{
    let rest = expect(b" ", bytes)?;
    request_at(alloc, rest)
}

fn next_reply_at(alloc: Global, bytes: &[u8]) -> Result<(Reply, &[u8]), Unread>
    ensures { Gives (λ x. (x.0, x.1.now)) result (form.behind_space form.reply_at bytes.now) }
{
    let rest = expect(b" ", bytes)?;
    reply_at(alloc, rest)
}

// Who asked which store for what, or which request landed there: the first half of a call's or a landing's line.
#[tactic(auto, unfolding(crate::specs::Lines::asked_at))]
fn asked_at(alloc: Global, bytes: &[u8]) -> Result<((u32, Name, Request), &[u8]), Unread>
    ensures { Gives (λ x. (x.0, x.1.now)) result (form.asked_at bytes.now) }
{
    let (client, rest) = u32_at(bytes)?;
    let (store, rest) = next_name_at(alloc, rest)?;
    let (request, rest) = next_request_at(alloc, rest)?;
    Ok(((client, store, request), rest))
}

// What became of a call: the second half.
#[tactic(auto, unfolding(crate::specs::Lines::came_at))]
fn came_at(alloc: Global, bytes: &[u8]) -> Result<((How, Reply, Option<Answer>), &[u8]), Unread>
    ensures { Gives (λ x. (x.0, x.1.now)) result (form.came_at bytes.now) }
{
    let (how, rest) = next_how_at(bytes)?;
    let (reply, rest) = next_reply_at(alloc, rest)?;
    let (given, rest) = next_given_at(alloc, rest)?;
    Ok(((how, reply, given), rest))
}

fn whole_came_of(alloc: Global, bytes: &[u8]) -> Result<(How, Reply, Option<Answer>), Unread>
    ensures { Gives (λ x. x) result (form.whole (form.came_at bytes.now)) }
{
    let (came, rest) = came_at(alloc, bytes)?;
    if rest.is_empty() {
        Ok(came)
    } else {
        Err(Unread::Bad)
    }
}

#[tactic(auto, unfolding(crate::specs::Lines::call_of))]
fn call_of(alloc: Global, line: &[u8]) -> Result<Event, Unread>
    ensures { Gives (λ e. e) result (form.call_of line.now) }
{
    let ((client, store, request), rest) = asked_at(alloc, line)?;
    let (how, reply, given) = whole_came_of(alloc, rest)?;
    Ok(Event::call(alloc, client, store, request, how, reply, given)?)
}

// What became of a landing, and the store's reply: the second half.
#[tactic(auto, unfolding(crate::specs::Lines::effect_at))]
fn effect_at(alloc: Global, bytes: &[u8]) -> Result<((How, Reply), &[u8]), Unread>
    ensures { Gives (λ x. (x.0, x.1.now)) result (form.effect_at bytes.now) }
{
    let (how, rest) = next_landed_how_at(bytes)?;
    let (reply, rest) = next_reply_at(alloc, rest)?;
    Ok(((how, reply), rest))
}

fn whole_effect_of(alloc: Global, bytes: &[u8]) -> Result<(How, Reply), Unread>
    ensures { Gives (λ x. x) result (form.whole (form.effect_at bytes.now)) }
{
    let (effect, rest) = effect_at(alloc, bytes)?;
    if rest.is_empty() {
        Ok(effect)
    } else {
        Err(Unread::Bad)
    }
}

#[tactic(auto, unfolding(crate::specs::Lines::land_of))]
fn land_of(alloc: Global, line: &[u8]) -> Result<Event, Unread>
    ensures { Gives (λ e. e) result (form.land_of line.now) }
{
    let ((number, store, request), rest) = asked_at(alloc, line)?;
    let (how, reply) = whole_effect_of(alloc, rest)?;
    Ok(Event::land(alloc, number, store, request, how, reply)?)
}

fn client_of(bytes: &[u8]) -> Result<u32, Unread>
    ensures { Gives (λ n. n) result (form.whole (form.client_at bytes.now)) }
{
    let (client, rest) = u32_at(bytes)?;
    if rest.is_empty() {
        Ok(client)
    } else {
        Err(Unread::Bad)
    }
}

fn moment_of(bytes: &[u8]) -> Result<i64, Unread>
    ensures { Gives (λ n. n) result (form.whole (spec.integer_at bytes.now)) }
{
    let (moment, rest) = integer_at(bytes)?;
    if rest.is_empty() {
        Ok(moment)
    } else {
        Err(Unread::Bad)
    }
}

#[tactic(auto, unfolding(crate::specs::Lines::event_of))]
fn event_of(alloc: Global, line: &[u8]) -> Result<Event, Unread>
    ensures { Gives (λ e. e) result (form.event_of line.now) }
{
    if let Some(rest) = after(b"take ", line) {
        return take_of(alloc, rest);
    }
    if let Some(rest) = after(b"call ", line) {
        return call_of(alloc, rest);
    }
    if let Some(rest) = after(b"stop ", line) {
        return Ok(Event::Stop(client_of(rest)?));
    }
    if let Some(rest) = after(b"clock ", line) {
        return Ok(Event::Clock(moment_of(rest)?));
    }
    if let Some(rest) = after(b"idle ", line) {
        return Ok(Event::Idle(client_of(rest)?));
    }
    if let Some(rest) = after(b"land ", line) {
        return land_of(alloc, rest);
    }
    if let Some(rest) = after(b"alter ", line) {
        return alter_of(alloc, rest);
    }
    Err(Unread::Bad)
}

/// The event of a line that begins with this number.
#[tactic(auto, unfolding(crate::specs::Lines::numbered_event_of))]
pub fn numbered_event_of(alloc: Global, n: u64, line: &[u8]) -> Result<Event, Unread>
    ensures { Gives (λ e. e) result (form.numbered_event_of n line.now) }
{
    let mut digits = Buffer::new();
    let rest = expect(digits.format(n).as_bytes(), line)?;
    let rest = expect(b" ", rest)?;
    event_of(alloc, rest)
}
