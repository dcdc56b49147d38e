//! The marks of one event.
ghost use Rattle.std.specs.Prelude.{◌≡◌, ◌++◌, OnOk, IfOk};
ghost use Rattle.std.specs.List.{flat_map};
ghost use Rattle.std.specs.String.{string_bytes};
ghost use Rattle.sdb_picture.specs.Known.{effect_at as effect_at_lem};
ghost use Rattle.sdb_picture.specs.Marks as spec;
ghost use Rattle.sdb_picture.specs.Svg.{mark_svg};

use crate::drawing::{
    put_answered, put_arrow, put_band, put_decided, put_landing, put_rested, put_statement,
    put_ticked,
};
use crate::fate::came_word;
use crate::titles::{alter_text, asked_text, clock_text, idle_text, landed_text};
use crate::{Effect, Lanes, effect_at, is_decision, may_change, rows_after, stage_of, verdict_of};
use sdb_model::{Altered, Answer, Boxed, Event, How, answer_text};
use sdb_schema::Kind;
use sdb_types::{Batch, Condition, Name, NoMemory, Put, Record, Reply, Request, TableName};
use std::alloc::Global;

fn put_answer_marks(
    out: &mut String,
    lanes: &Lanes,
    row: usize,
    client: usize,
    given: &Option<Boxed<Answer>>,
) -> Result<(), NoMemory>
    ensures { OnOk result (string_bytes out.new ≡ string_bytes out.old ++ flat_map (mark_svg lanes.now) (spec.answer_marks row client given.now)) }
{
    match given {
        Some(answer) => {
            let text = answer_text(*out.allocator(), answer.get())?;
            put_answered(out, row, client, text.as_str())
        }
        None => Ok(()),
    }
}

fn put_take(
    out: &mut String,
    lanes: &Lanes,
    row: usize,
    client: usize,
    text: &str,
    given: &Option<Boxed<Answer>>,
) -> Result<(), NoMemory>
    ensures { OnOk result (string_bytes out.new ≡ string_bytes out.old ++ flat_map (mark_svg lanes.now) (spec.take_marks row client text.now given.now)) }
{
    put_statement(out, row, client, text)?;
    put_answer_marks(out, lanes, row, client, given)
}

fn put_call(
    out: &mut String,
    lanes: &Lanes,
    row: usize,
    client: usize,
    store: &Name,
    request: &Request,
    how: How,
    reply: &Reply,
) -> Result<(), NoMemory>
    ensures { OnOk result (string_bytes out.new ≡ string_bytes out.old ++ flat_map (mark_svg lanes.now) (spec.call_marks lanes.now row client store.now request.now how reply.now)) }
{
    let asked = asked_text(*out.allocator(), request)?;
    let came = came_word(how, reply);
    put_arrow(
        out,
        lanes,
        row,
        client,
        lanes.of_store(store),
        how,
        asked.as_str(),
        came,
    )
}

fn put_landed(
    out: &mut String,
    lanes: &Lanes,
    row: usize,
    number: u32,
    store: &Name,
    request: &Request,
    how: How,
    reply: &Reply,
) -> Result<(), NoMemory>
    ensures { OnOk result (string_bytes out.new ≡ string_bytes out.old ++ flat_map (mark_svg lanes.now) (spec.landing_marks lanes.now row number store.now request.now how reply.now)) }
{
    let asked = landed_text(*out.allocator(), number, request)?;
    let came = came_word(how, reply);
    put_landing(
        out,
        lanes,
        row,
        lanes.of_store(store),
        how,
        asked.as_str(),
        came,
    )
}

fn put_decision(
    out: &mut String,
    lanes: &Lanes,
    row: usize,
    store: &Name,
    rec: &Record,
    effect: Effect,
) -> Result<(), NoMemory>
    ensures { OnOk result (string_bytes out.new ≡ string_bytes out.old ++ flat_map (mark_svg lanes.now) (spec.decision_marks lanes.now row store.now rec.now effect)) }
{
    put_decided(
        out,
        lanes,
        row,
        lanes.of_store(store),
        verdict_of(rec),
        effect,
    )
}

fn put_record_band(
    out: &mut String,
    lanes: &Lanes,
    row: usize,
    store: &Name,
    rec: &Record,
    condition: &Condition,
    effect: Effect,
    rows: usize,
) -> Result<(), NoMemory>
    ensures { OnOk result (string_bytes out.new ≡ string_bytes out.old ++ flat_map (mark_svg lanes.now) (spec.band_marks lanes.now row store.now rec.now condition.now effect rows)) }
{
    let lane = lanes.of_record(store, &rec.key);
    put_band(
        out,
        lanes,
        lane,
        row,
        rows,
        stage_of(rec, condition),
        effect,
    )
}

fn put_put(
    out: &mut String,
    lanes: &Lanes,
    row: usize,
    store: &Name,
    rec: &Record,
    condition: &Condition,
    effect: Effect,
    rows: usize,
) -> Result<(), NoMemory>
    ensures { OnOk result (string_bytes out.new ≡ string_bytes out.old ++ flat_map (mark_svg lanes.now) (spec.put_marks lanes.now row store.now rec.now condition.now effect rows)) }
{
    if !may_change(effect) {
        return Ok(());
    }
    if is_decision(rec) {
        put_decision(out, lanes, row, store, rec, effect)
    } else {
        put_record_band(out, lanes, row, store, rec, condition, effect, rows)
    }
}

fn put_written(
    out: &mut String,
    lanes: &Lanes,
    past: &[Event],
    row: usize,
    store: &Name,
    request: &Request,
    rec: &Record,
    condition: &Condition,
    effect: Effect,
    rest: &[Event],
) -> Result<(), NoMemory>
    ensures { OnOk result (string_bytes out.new ≡ string_bytes out.old ++ flat_map (mark_svg lanes.now) (spec.written_marks lanes.now past.now row store.now request.now rec.now condition.now effect rest.now)) }
{
    let rows = rows_after(past, store, &rec.key, request, effect, rest);
    put_put(out, lanes, row, store, rec, condition, effect, rows)
}

// Adds the marks of one put of a batch.
fn put_of_batch(
    out: &mut String,
    lanes: &Lanes,
    past: &[Event],
    row: usize,
    store: &Name,
    request: &Request,
    put: &Put,
    how: How,
    reply: &Reply,
    rest: &[Event],
) -> Result<(), NoMemory>
    ensures { OnOk result (string_bytes out.new ≡ string_bytes out.old ++ flat_map (mark_svg lanes.now) (spec.written_marks lanes.now past.now row store.now request.now put.now.rec put.now.condition (effect_at_lem past.now store.now put.now.rec.key request.now how reply.now) rest.now)) }
{
    let rec = &put.rec;
    let effect = effect_at(past, store, &rec.key, request, how, reply);
    put_written(
        out,
        lanes,
        past,
        row,
        store,
        request,
        rec,
        &put.condition,
        effect,
        rest,
    )
}

fn put_batch(
    out: &mut String,
    lanes: &Lanes,
    past: &[Event],
    row: usize,
    store: &Name,
    request: &Request,
    batch: &Batch,
    how: How,
    reply: &Reply,
    rest: &[Event],
) -> Result<(), NoMemory>
    ensures { OnOk result (string_bytes out.new ≡ string_bytes out.old ++ flat_map (mark_svg lanes.now) (flat_map (λ p. spec.written_marks lanes.now past.now row store.now request.now p.rec p.condition (effect_at_lem past.now store.now p.rec.key request.now how reply.now) rest.now) batch.now)) }
{
    for put in batch.as_slice() {
        put_of_batch(out, lanes, past, row, store, request, put, how, reply, rest)?;
    }
    Ok(())
}

fn put_effect(
    out: &mut String,
    lanes: &Lanes,
    past: &[Event],
    row: usize,
    store: &Name,
    request: &Request,
    how: How,
    reply: &Reply,
    rest: &[Event],
) -> Result<(), NoMemory>
    ensures { OnOk result (string_bytes out.new ≡ string_bytes out.old ++ flat_map (mark_svg lanes.now) (spec.effect_marks lanes.now past.now row store.now request.now how reply.now rest.now)) }
{
    match request {
        Request::Get(_) => Ok(()),
        Request::Scan(_) => Ok(()),
        Request::PutIf(rec, condition) => {
            let effect = effect_at(past, store, &rec.key, request, how, reply);
            put_written(
                out, lanes, past, row, store, request, rec, condition, effect, rest,
            )
        }
        Request::DeleteIf(_, _) => Ok(()),
        Request::PutAll(batch) => put_batch(
            out, lanes, past, row, store, request, batch, how, reply, rest,
        ),
    }
}

fn put_clock(out: &mut String, lanes: &Lanes, row: usize, moment: i64) -> Result<(), NoMemory>
    ensures { OnOk result (string_bytes out.new ≡ string_bytes out.old ++ flat_map (mark_svg lanes.now) (spec.clock_marks row moment)) }
{
    let text = clock_text(*out.allocator(), moment)?;
    put_ticked(out, row, text.as_str())
}

fn put_altered(
    out: &mut String,
    lanes: &Lanes,
    row: usize,
    table: &TableName,
    column: &Name,
    kind: Kind,
    altered: Altered,
) -> Result<(), NoMemory>
    ensures { OnOk result (string_bytes out.new ≡ string_bytes out.old ++ flat_map (mark_svg lanes.now) (spec.alter_marks row table.now column.now kind altered)) }
{
    let text = alter_text(*out.allocator(), table, column, kind, altered)?;
    put_ticked(out, row, text.as_str())
}

fn put_idle(out: &mut String, lanes: &Lanes, row: usize, client: u32) -> Result<(), NoMemory>
    ensures { OnOk result (string_bytes out.new ≡ string_bytes out.old ++ flat_map (mark_svg lanes.now) (spec.idle_marks lanes.now row client)) }
{
    if client == 0 {
        put_ticked(out, row, idle_text(client))
    } else {
        put_rested(out, row, lanes.of_client(client), idle_text(client))
    }
}

/// Adds the marks of an event, which is in this row. The events before it say whether a put took effect, and those after it how long a
/// band lasts.
pub fn put_marks(
    out: &mut String,
    lanes: &Lanes,
    past: &[Event],
    row: usize,
    event: &Event,
    rest: &[Event],
) -> Result<(), NoMemory>
    ensures { OnOk result (string_bytes out.new ≡ string_bytes out.old ++ flat_map (mark_svg lanes.now) (spec.marks_of lanes.now past.now row event.now rest.now)) }
{
    match event {
        Event::Take(client, text, given) => {
            put_take(
                out,
                lanes,
                row,
                lanes.of_client(*client),
                text.as_str(),
                given,
            )
        }
        Event::Call(client, store, request, how, reply, given) => {
            let client = lanes.of_client(*client);
            put_call(
                out,
                lanes,
                row,
                client,
                store,
                request.get(),
                *how,
                reply.get(),
            )?;
            put_effect(
                out,
                lanes,
                past,
                row,
                store,
                request.get(),
                *how,
                reply.get(),
                rest,
            )?;
            put_answer_marks(out, lanes, row, client, given)
        }
        Event::Stop(client) => put_rested(out, row, lanes.of_client(*client), "stops"),
        Event::Clock(moment) => put_clock(out, lanes, row, *moment),
        Event::Idle(client) => put_idle(out, lanes, row, *client),
        Event::Land(number, store, request, how, reply) => {
            put_landed(
                out,
                lanes,
                row,
                *number,
                store,
                request.get(),
                *how,
                reply.get(),
            )?;
            put_effect(
                out,
                lanes,
                past,
                row,
                store,
                request.get(),
                *how,
                reply.get(),
                rest,
            )
        }
        Event::Alter(table, column, kind, altered) => {
            put_altered(out, lanes, row, table, column, *kind, *altered)
        }
    }
}
