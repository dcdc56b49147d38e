//! What is known of the record at a key of a store, after some events.
ghost use Rattle.std.specs.Prelude.{◌≡◌};
ghost use Rattle.std.specs.Option.{option_copied};
ghost use Rattle.sdb_picture.specs.Known as spec;

use crate::effect::{Effect, effect_seen, may_change, put_of_key, writes_at};
use sdb_model::{Event, How};
use sdb_store::holds;
use sdb_types::{Key, Name, Record, Reply, Request};

// The record that a write of a key puts there.
fn put_by<'a>(request: &'a Request, key: &Key) -> Option<&'a Record>
    ensures { option_copied result ≡ spec.put_by key.now request.now }
{
    match request {
        Request::Get(_) => None,
        Request::Scan(_) => None,
        Request::PutIf(rec, _) => Some(rec),
        Request::DeleteIf(_, _) => None,
        Request::PutAll(batch) => put_of_key(batch, key).map(|put| &put.rec),
    }
}

// Whether the condition of a write of a key holds of what is there.
fn is_met(request: &Request, key: &Key, found: Option<&Record>) -> bool
    ensures { result ≡ spec.is_met key.now request.now (option_copied found.entry) }
{
    match request {
        Request::Get(_) => false,
        Request::Scan(_) => false,
        Request::PutIf(_, condition) => holds(condition, found),
        Request::DeleteIf(_, condition) => holds(condition, found),
        Request::PutAll(batch) => match put_of_key(batch, key) {
            Some(put) => holds(&put.condition, found),
            None => false,
        },
    }
}

// Whether a request writes more keys than one.
fn is_of_many(request: &Request) -> bool
    ensures { result ≡ spec.is_of_many request.now }
{
    matches!(request, Request::PutAll(_))
}

fn effect_failed(sure: bool, met: bool) -> Effect
    ensures { result ≡ spec.effect_failed sure met }
{
    if sure && !met {
        Effect::Nothing
    } else {
        Effect::Doubtful
    }
}

fn effect_lost(of_many: bool, sure: bool, met: bool) -> Effect
    ensures { result ≡ spec.effect_lost of_many sure met }
{
    if of_many {
        effect_failed(sure, met)
    } else if !sure {
        Effect::Doubtful
    } else if met {
        Effect::Sure
    } else {
        Effect::Nothing
    }
}

/// Whether a write of a key took effect where this was there.
pub fn effect_in(
    key: &Key,
    sure: bool,
    found: Option<&Record>,
    request: &Request,
    how: How,
    reply: &Reply,
) -> Effect
    ensures { result ≡ spec.effect_in key.now (spec.known sure (option_copied found.entry)) request.now how reply.now }
{
    match how {
        How::Seen => effect_seen(reply),
        How::Lost => effect_lost(is_of_many(request), sure, is_met(request, key, found)),
        How::Discarded => Effect::Nothing,
        How::Delayed => Effect::Nothing,
        How::Broken => effect_failed(sure, is_met(request, key, found)),
    }
}

// What is known after a write of a key that came to this.
fn after<'a>(
    key: &Key,
    sure: bool,
    found: Option<&'a Record>,
    request: &'a Request,
    effect: Effect,
) -> (bool, Option<&'a Record>)
    ensures { spec.known result.0 (option_copied result.1) ≡ spec.after key.now (spec.known sure (option_copied found.entry)) request.now effect }
{
    match effect {
        Effect::Sure => (true, put_by(request, key)),
        Effect::Doubtful => (false, None),
        Effect::Nothing => (sure, found),
    }
}

// The same after a call or a landing on a store, which may write another record.
fn written<'a>(
    sure: bool,
    found: Option<&'a Record>,
    at: &Name,
    request: &'a Request,
    how: How,
    reply: &Reply,
    store: &Name,
    key: &Key,
) -> (bool, Option<&'a Record>)
    ensures { spec.known result.0 (option_copied result.1) ≡ spec.written store.now key.now (spec.known sure (option_copied found.entry)) at.now request.now how reply.now }
{
    if writes_at(at, request, store, key) {
        let effect = effect_in(key, sure, found, request, how, reply);
        after(key, sure, found, request, effect)
    } else {
        (sure, found)
    }
}

fn left_by<'a>(
    sure: bool,
    found: Option<&'a Record>,
    store: &Name,
    key: &Key,
    event: &'a Event,
) -> (bool, Option<&'a Record>)
    ensures { spec.known result.0 (option_copied result.1) ≡ spec.left_by store.now key.now (spec.known sure (option_copied found.entry)) event.now }
{
    match event {
        Event::Take(_, _, _) => (sure, found),
        Event::Call(_, at, request, how, reply, _) => {
            written(
                sure,
                found,
                at,
                request.get(),
                *how,
                reply.get(),
                store,
                key,
            )
        }
        Event::Stop(_) => (sure, found),
        Event::Clock(_) => (sure, found),
        Event::Idle(_) => (sure, found),
        Event::Land(_, at, request, how, reply) => {
            written(
                sure,
                found,
                at,
                request.get(),
                *how,
                reply.get(),
                store,
                key,
            )
        }
        Event::Alter(_, _, _, _) => (sure, found),
    }
}

// What is known of the record at a key of a store after these events: nothing is there before the first.
fn known_after<'a>(events: &'a [Event], store: &Name, key: &Key) -> (bool, Option<&'a Record>)
    ensures { spec.known result.0 (option_copied result.1) ≡ spec.known_after store.now key.now events.now }
{
    let mut sure = true;
    let mut found = None;
    for event in events {
        let left = left_by(sure, found, store, key, event);
        sure = left.0;
        found = left.1;
    }
    (sure, found)
}

fn changes(sure: bool, found: Option<&Record>, store: &Name, key: &Key, event: &Event) -> bool
    ensures { result ≡ spec.changes (spec.known sure (option_copied found.entry)) store.now key.now event.now }
{
    match event {
        Event::Take(_, _, _) => false,
        Event::Call(_, at, request, how, reply, _) => {
            writes_at(at, request.get(), store, key)
                && may_change(effect_in(key, sure, found, request.get(), *how, reply.get()))
        }
        Event::Stop(_) => false,
        Event::Clock(_) => false,
        Event::Idle(_) => false,
        Event::Land(_, at, request, how, reply) => {
            writes_at(at, request.get(), store, key)
                && may_change(effect_in(key, sure, found, request.get(), *how, reply.get()))
        }
        Event::Alter(_, _, _, _) => false,
    }
}

fn next_change(
    sure: bool,
    found: Option<&Record>,
    store: &Name,
    key: &Key,
    rest: &[Event],
) -> Option<usize>
    ensures { result ≡ spec.next_change (spec.known sure (option_copied found.entry)) store.now key.now rest.now }
{
    rest.iter()
        .position(|event| changes(sure, found, store, key, event))
}

fn rows_before_change(
    sure: bool,
    found: Option<&Record>,
    store: &Name,
    key: &Key,
    rest: &[Event],
) -> usize
    ensures { result ≡ spec.rows_before_change (spec.known sure (option_copied found.entry)) store.now key.now rest.now }
{
    match next_change(sure, found, store, key, rest) {
        Some(n) => n,
        None => rest.len(),
    }
}

/// Whether a write of a record took effect, by the events before it.
pub fn effect_at(
    past: &[Event],
    store: &Name,
    key: &Key,
    request: &Request,
    how: How,
    reply: &Reply,
) -> Effect
    ensures { result ≡ spec.effect_at past.now store.now key.now request.now how reply.now }
{
    let (sure, found) = known_after(past, store, key);
    effect_in(key, sure, found, request, how, reply)
}

/// How many of the events after a write that came to this come before the next change of its record.
pub fn rows_after(
    past: &[Event],
    store: &Name,
    key: &Key,
    request: &Request,
    effect: Effect,
    rest: &[Event],
) -> usize
    ensures { result ≡ spec.rows_after past.now store.now key.now request.now effect rest.now }
{
    let (sure, found) = known_after(past, store, key);
    let (sure, found) = after(key, sure, found, request, effect);
    rows_before_change(sure, found, store, key, rest)
}
