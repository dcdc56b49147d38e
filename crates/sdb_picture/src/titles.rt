//! The texts of events: what is accepted, what a call or a landing asks for, and the answer.
ghost use Rattle.std.specs.Prelude.{◌≡◌, ◌++◌, OnOk, IfOk};
ghost use Rattle.std.specs.String.{string_bytes};
ghost use Rattle.sdb_model.specs.Report.{alter_text_of};
ghost use Rattle.sdb_picture.specs.Marks as spec;

use sdb_model::{
    Altered, Answer, Boxed, Event, put_alter, put_answer, put_key, put_number, put_record,
    put_signed, put_span,
};
use sdb_schema::Kind;
use sdb_types::{Name, NoMemory, Request, TableName};
use std::alloc::Global;
use std::fmt::Write;

fn put_asked(out: &mut String, request: &Request) -> Result<(), NoMemory>
    ensures { OnOk result (string_bytes out.new ≡ string_bytes out.old ++ spec.asked_text request.now) }
{
    match request {
        Request::Get(key) => {
            out.push_str("get ")?;
            put_key(out, key)
        }
        Request::Scan(span) => {
            out.push_str("scan ")?;
            put_span(out, span)
        }
        Request::PutIf(rec, _) => {
            out.push_str("put ")?;
            put_record(out, rec)
        }
        Request::DeleteIf(key, _) => {
            out.push_str("delete ")?;
            put_key(out, key)
        }
        Request::PutAll(batch) => {
            out.push_str("put ")?;
            put_number(out, batch.as_slice().len() as u64)?;
            out.push_str(" records")?;
            Ok(())
        }
    }
}

fn put_clock(out: &mut String, moment: i64) -> Result<(), NoMemory>
    ensures { OnOk result (string_bytes out.new ≡ string_bytes out.old ++ spec.clock_text moment) }
{
    out.push_str("clock ")?;
    put_signed(out, moment)
}

/// What a call asks for.
pub fn asked_text(alloc: Global, request: &Request) -> Result<String, NoMemory>
    ensures { IfOk result (λ text. string_bytes text ≡ spec.asked_text request.now) }
{
    let mut text = String::new(alloc);
    put_asked(&mut text, request)?;
    Ok(text)
}

fn put_landed(out: &mut String, number: u32, request: &Request) -> Result<(), NoMemory>
    ensures { OnOk result (string_bytes out.new ≡ string_bytes out.old ++ spec.landed_text number request.now) }
{
    out.push_str("land ")?;
    put_number(out, u64::from(number))?;
    out.push_str(" ")?;
    put_asked(out, request)
}

/// What a late request asks for, after its number.
pub fn landed_text(alloc: Global, number: u32, request: &Request) -> Result<String, NoMemory>
    ensures { IfOk result (λ text. string_bytes text ≡ spec.landed_text number request.now) }
{
    let mut text = String::new(alloc);
    put_landed(&mut text, number, request)?;
    Ok(text)
}

/// What is idle: a client, or the landing of a request that isn't in flight.
pub fn idle_text(client: u32) -> &'static str
    ensures { result.now ≡ spec.idle_text client }
{
    if client == 0 {
        "nothing lands"
    } else {
        "idles"
    }
}

/// The moment that a clock shows.
pub fn clock_text(alloc: Global, moment: i64) -> Result<String, NoMemory>
    ensures { IfOk result (λ text. string_bytes text ≡ spec.clock_text moment) }
{
    let mut text = String::new(alloc);
    put_clock(&mut text, moment)?;
    Ok(text)
}

/// A column that is to be added to a table, and what became of that.
pub fn alter_text(
    alloc: Global,
    table: &TableName,
    column: &Name,
    kind: Kind,
    altered: Altered,
) -> Result<String, NoMemory>
    ensures { IfOk result (λ text. string_bytes text ≡ alter_text_of table.now column.now kind altered) }
{
    let mut text = String::new(alloc);
    put_alter(&mut text, table, column, kind, altered)?;
    Ok(text)
}

fn put_event_text(out: &mut String, event: &Event) -> Result<(), NoMemory>
    ensures { OnOk result (string_bytes out.new ≡ string_bytes out.old ++ spec.event_text event.now) }
{
    match event {
        Event::Take(_, text, _) => out.push_str(text.as_str())?,
        Event::Call(_, _, request, _, _, _) => put_asked(out, request.get())?,
        Event::Stop(_) => out.push_str("stops")?,
        Event::Clock(moment) => put_clock(out, *moment)?,
        Event::Idle(client) => out.push_str(idle_text(*client))?,
        Event::Land(number, _, request, _, _) => put_landed(out, *number, request.get())?,
        Event::Alter(table, column, kind, altered) => {
            put_alter(out, table, column, *kind, *altered)?
        }
    }
    Ok(())
}

fn put_given(out: &mut String, given: &Option<Boxed<Answer>>) -> Result<(), NoMemory>
    ensures { OnOk result (string_bytes out.new ≡ string_bytes out.old ++ spec.given_text given.now) }
{
    match given {
        Some(answer) => {
            out.push_str(": ")?;
            put_answer(out, answer.get())
        }
        None => Ok(()),
    }
}

fn put_answered_text(out: &mut String, event: &Event) -> Result<(), NoMemory>
    ensures { OnOk result (string_bytes out.new ≡ string_bytes out.old ++ spec.answered_text event.now) }
{
    match event {
        Event::Take(_, _, given) => put_given(out, given),
        Event::Call(_, _, _, _, _, given) => put_given(out, given),
        _ => Ok(()),
    }
}

/// The title of an event in a row: its number, its text in full, and its answer.
pub fn title_of(alloc: Global, row: usize, event: &Event) -> Result<String, NoMemory>
    ensures { IfOk result (λ title. string_bytes title ≡ spec.title_of row event.now) }
{
    let mut title = String::new(alloc);
    let number = row as u128 + 1;
    write!(title, "{number} ")?;
    put_event_text(&mut title, event)?;
    put_answered_text(&mut title, event)?;
    Ok(title)
}
