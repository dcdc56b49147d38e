//! Reports: the outcome of a run, line by line.
ghost use Rattle.std.specs.Prelude.{◌≡◌, ◌++◌, OnOk, IfOk, decimal};
ghost use Rattle.std.specs.List.{flat_map};
ghost use Rattle.std.specs.String.{string_bytes};
ghost use Rattle.sdb_model.specs.Report.{given_text_of, condition_text_of, put_text_of, puts_text_of, request_text_of, how_text_of, found_text_of, records_text_of, reply_text_of, take_text_of, asked_text_of, came_text_of, effect_text_of, landed_text_of, altered_text_of, alter_text_of, event_text_of, event_line, event_lines, point_line, row_line, table_lines, heading, order_text_of, tables_text_of, report_start_of, report_end_of, report_text_of};

use crate::text::{
    put_answer, put_id, put_key, put_number, put_record, put_row, put_signed, put_span, put_table,
};
use crate::{
    Altered, Answer, Boxed, Event, Events, How, Outcome, Point, Points, TableDump, TableRows,
};
use sdb_schema::Kind;
use sdb_types::{Condition, Name, NoMemory, Put, Record, Reply, Request, TableName, Txt, Values};
use std::alloc::Global;

/// Adds an answer's text, or `-` where there is none.
fn put_given(out: &mut String, given: &Option<Boxed<Answer>>) -> Result<(), NoMemory>
    ensures { OnOk result (string_bytes out.new ≡ string_bytes out.old ++ given_text_of given.now) }
{
    match given {
        Some(answer) => put_answer(out, answer.get())?,
        None => out.push_str("-")?,
    }
    Ok(())
}

fn put_condition(out: &mut String, condition: Condition) -> Result<(), NoMemory>
    ensures { OnOk result (string_bytes out.new ≡ string_bytes out.old ++ condition_text_of condition) }
{
    match condition {
        Condition::Absent => out.push_str("absent")?,
        Condition::Version(id, state) => {
            put_id(out, id)?;
            out.push_str(" ")?;
            put_signed(out, i64::from(state.number()))?;
        }
    }
    Ok(())
}

fn put_put(out: &mut String, put: &Put) -> Result<(), NoMemory>
    ensures { OnOk result (string_bytes out.new ≡ string_bytes out.old ++ put_text_of put.now) }
{
    put_record(out, &put.rec)?;
    out.push_str(" if ")?;
    put_condition(out, put.condition)
}

fn put_puts(out: &mut String, puts: &[Put]) -> Result<(), NoMemory>
    ensures { OnOk result (string_bytes out.new ≡ string_bytes out.old ++ puts_text_of puts.now) }
{
    put_number(out, puts.len() as u64)?;
    for put in puts {
        out.push_str(" ")?;
        put_put(out, put)?;
    }
    Ok(())
}

fn put_request(out: &mut String, request: &Request) -> Result<(), NoMemory>
    ensures { OnOk result (string_bytes out.new ≡ string_bytes out.old ++ request_text_of request.now) }
{
    match request {
        Request::Get(key) => {
            out.push_str("get ")?;
            put_key(out, key)
        }
        Request::Scan(span) => {
            out.push_str("scan ")?;
            put_span(out, span)
        }
        Request::PutIf(written, condition) => {
            out.push_str("put ")?;
            put_record(out, written)?;
            out.push_str(" if ")?;
            put_condition(out, *condition)
        }
        Request::DeleteIf(key, condition) => {
            out.push_str("delete ")?;
            put_key(out, key)?;
            out.push_str(" if ")?;
            put_condition(out, *condition)
        }
        Request::PutAll(batch) => {
            out.push_str("putall ")?;
            put_puts(out, batch.as_slice())
        }
    }
}

fn put_how(out: &mut String, how: How) -> Result<(), NoMemory>
    ensures { OnOk result (string_bytes out.new ≡ string_bytes out.old ++ how_text_of how) }
{
    match how {
        How::Seen => out.push_str("seen")?,
        How::Lost => out.push_str("lost")?,
        How::Discarded => out.push_str("dropped")?,
        How::Delayed => out.push_str("delayed")?,
        How::Broken => out.push_str("failed")?,
    }
    Ok(())
}

fn put_found(out: &mut String, found: &Option<Record>) -> Result<(), NoMemory>
    ensures { OnOk result (string_bytes out.new ≡ string_bytes out.old ++ found_text_of found.now) }
{
    match found {
        Some(there) => put_record(out, there)?,
        None => out.push_str("none")?,
    }
    Ok(())
}

fn put_records(out: &mut String, records: &[Record]) -> Result<(), NoMemory>
    ensures { OnOk result (string_bytes out.new ≡ string_bytes out.old ++ records_text_of records.now) }
{
    put_number(out, records.len() as u64)?;
    for there in records {
        out.push_str(" ")?;
        put_record(out, there)?;
    }
    Ok(())
}

fn put_reply(out: &mut String, reply: &Reply) -> Result<(), NoMemory>
    ensures { OnOk result (string_bytes out.new ≡ string_bytes out.old ++ reply_text_of reply.now) }
{
    match reply {
        Reply::Found(found) => {
            out.push_str("found ")?;
            put_found(out, found)?;
        }
        Reply::Rows(rows) => {
            out.push_str("rows ")?;
            put_records(out, rows.as_slice())?;
        }
        Reply::Applied => out.push_str("applied")?,
        Reply::NotMet(found) => {
            out.push_str("notmet ")?;
            put_found(out, found)?;
        }
        Reply::NotAll(place, found) => {
            out.push_str("notall ")?;
            put_number(out, u64::from(*place))?;
            out.push_str(" ")?;
            put_found(out, found)?;
        }
        Reply::Fault => out.push_str("fault")?,
        Reply::NoMemory => out.push_str("nomemory")?,
    }
    Ok(())
}

fn put_take(
    out: &mut String,
    client: u32,
    text: &Txt,
    given: &Option<Boxed<Answer>>,
) -> Result<(), NoMemory>
    ensures { OnOk result (string_bytes out.new ≡ string_bytes out.old ++ take_text_of client text.now given.now) }
{
    out.push_str("take ")?;
    put_number(out, u64::from(client))?;
    out.push_str(" ")?;
    put_given(out, given)?;
    out.push_str(" : ")?;
    out.push_str(text.as_str())?;
    Ok(())
}

// The start of a call's line, up to its request.
fn put_asked(out: &mut String, client: u32, store: &Name, request: &Request) -> Result<(), NoMemory>
    ensures { OnOk result (string_bytes out.new ≡ string_bytes out.old ++ asked_text_of client store.now request.now) }
{
    out.push_str("call ")?;
    put_number(out, u64::from(client))?;
    out.push_str(" ")?;
    out.push_str(store.as_str())?;
    out.push_str(" ")?;
    put_request(out, request)
}

fn put_landed(
    out: &mut String,
    number: u32,
    store: &Name,
    request: &Request,
) -> Result<(), NoMemory>
    ensures { OnOk result (string_bytes out.new ≡ string_bytes out.old ++ landed_text_of number store.now request.now) }
{
    out.push_str("land ")?;
    put_number(out, u64::from(number))?;
    out.push_str(" ")?;
    out.push_str(store.as_str())?;
    out.push_str(" ")?;
    put_request(out, request)
}

// What became of a request, and the store's reply.
fn put_effect(out: &mut String, how: How, reply: &Reply) -> Result<(), NoMemory>
    ensures { OnOk result (string_bytes out.new ≡ string_bytes out.old ++ effect_text_of how reply.now) }
{
    out.push_str(" ")?;
    put_how(out, how)?;
    out.push_str(" ")?;
    put_reply(out, reply)
}

// The rest of a call's line, from what became of it on.
fn put_outcome(
    out: &mut String,
    how: How,
    reply: &Reply,
    given: &Option<Boxed<Answer>>,
) -> Result<(), NoMemory>
    ensures { OnOk result (string_bytes out.new ≡ string_bytes out.old ++ came_text_of how reply.now given.now) }
{
    put_effect(out, how, reply)?;
    out.push_str(" ")?;
    put_given(out, given)
}

fn put_with_client(out: &mut String, word: &str, client: u32) -> Result<(), NoMemory>
    ensures { OnOk result (string_bytes out.new ≡ string_bytes out.old ++ word.now ++ decimal client) }
{
    out.push_str(word)?;
    put_number(out, u64::from(client))
}

fn put_altered(out: &mut String, altered: Altered) -> Result<(), NoMemory>
    ensures { OnOk result (string_bytes out.new ≡ string_bytes out.old ++ altered_text_of altered) }
{
    match altered {
        Altered::Done => out.push_str("done")?,
        Altered::Open => out.push_str("open")?,
        Altered::Refused(number) => {
            out.push_str("refused ")?;
            put_number(out, u64::from(number))?;
        }
    }
    Ok(())
}

/// Adds the line of a column that is to be added to a table, and what became of that.
pub fn put_alter(
    out: &mut String,
    table: &TableName,
    column: &Name,
    kind: Kind,
    altered: Altered,
) -> Result<(), NoMemory>
    ensures { OnOk result (string_bytes out.new ≡ string_bytes out.old ++ alter_text_of table.now column.now kind altered) }
{
    out.push_str("alter ")?;
    put_table(out, table)?;
    out.push_str(" ")?;
    out.push_str(column.as_str())?;
    out.push_str(" ")?;
    out.push_str(kind.as_str())?;
    out.push_str(" ")?;
    put_altered(out, altered)
}

fn put_event(out: &mut String, event: &Event) -> Result<(), NoMemory>
    ensures { OnOk result (string_bytes out.new ≡ string_bytes out.old ++ event_text_of event.now) }
{
    match event {
        Event::Take(client, text, given) => put_take(out, *client, text, given),
        Event::Call(client, store, request, how, reply, given) => {
            put_asked(out, *client, store, request.get())?;
            put_outcome(out, *how, reply.get(), given)
        }
        Event::Stop(client) => put_with_client(out, "stop ", *client),
        Event::Clock(moment) => {
            out.push_str("clock ")?;
            put_signed(out, *moment)
        }
        Event::Idle(client) => put_with_client(out, "idle ", *client),
        Event::Land(number, store, request, how, reply) => {
            put_landed(out, *number, store, request.get())?;
            put_effect(out, *how, reply.get())
        }
        Event::Alter(table, column, kind, altered) => {
            put_alter(out, table, column, *kind, *altered)
        }
    }
}

/// Adds the line of an event, which has this number.
pub fn put_event_line(out: &mut String, number: u64, event: &Event) -> Result<(), NoMemory>
    ensures { OnOk result (string_bytes out.new ≡ string_bytes out.old ++ event_line number event.now) }
{
    put_number(out, number)?;
    out.push_str(" ")?;
    put_event(out, event)?;
    out.push_str("\n")?;
    Ok(())
}

fn put_events(out: &mut String, events: &[Event]) -> Result<(), NoMemory>
    ensures { OnOk result (string_bytes out.new ≡ string_bytes out.old ++ event_lines 1 events.now) }
{
    for (i, event) in events.iter().enumerate() {
        put_event_line(out, i as u64 + 1, event)?;
    }
    Ok(())
}

fn put_point(out: &mut String, point: Point) -> Result<(), NoMemory>
    ensures { OnOk result (string_bytes out.new ≡ string_bytes out.old ++ point_line point) }
{
    put_id(out, point.id)?;
    out.push_str(" ")?;
    put_number(out, point.event)?;
    out.push_str("\n")?;
    Ok(())
}

fn put_points(out: &mut String, points: &[Point]) -> Result<(), NoMemory>
    ensures { OnOk result (string_bytes out.new ≡ string_bytes out.old ++ flat_map point_line points.now) }
{
    for point in points {
        put_point(out, *point)?;
    }
    Ok(())
}

fn put_row_lines(out: &mut String, rows: &[Values]) -> Result<(), NoMemory>
    ensures { OnOk result (string_bytes out.new ≡ string_bytes out.old ++ flat_map row_line rows.now) }
{
    for row in rows {
        put_row(out, row)?;
        out.push_str("\n")?;
    }
    Ok(())
}

fn put_dump(out: &mut String, dump: &TableDump) -> Result<(), NoMemory>
    ensures { OnOk result (string_bytes out.new ≡ string_bytes out.old ++ table_lines dump.now) }
{
    out.push_str("table ")?;
    put_table(out, &dump.name)?;
    out.push_str(" ")?;
    put_number(out, dump.rows.len() as u64)?;
    out.push_str("\n")?;
    put_row_lines(out, dump.rows.as_slice())
}

fn put_dumps(out: &mut String, dumps: &[TableDump]) -> Result<(), NoMemory>
    ensures { OnOk result (string_bytes out.new ≡ string_bytes out.old ++ flat_map table_lines dumps.now) }
{
    for dump in dumps {
        put_dump(out, dump)?;
    }
    Ok(())
}

// The line that says how many lines or tables follow.
fn put_heading(out: &mut String, word: &str, count: usize) -> Result<(), NoMemory>
    ensures { OnOk result (string_bytes out.new ≡ string_bytes out.old ++ heading word.now count) }
{
    out.push_str(word)?;
    out.push_str(" ")?;
    put_number(out, count as u64)?;
    out.push_str("\n")?;
    Ok(())
}

fn put_order_part(out: &mut String, order: &Points) -> Result<(), NoMemory>
    ensures { OnOk result (string_bytes out.new ≡ string_bytes out.old ++ order_text_of order.now) }
{
    put_heading(out, "order", order.len())?;
    put_points(out, order.as_slice())
}

fn put_tables_part(out: &mut String, tables: &TableRows) -> Result<(), NoMemory>
    ensures { OnOk result (string_bytes out.new ≡ string_bytes out.old ++ tables_text_of tables.now) }
{
    put_heading(out, "tables", tables.len())?;
    put_dumps(out, tables.as_slice())
}

/// Adds what a report of these events begins with, before their lines.
pub fn put_report_start(out: &mut String, events: &Events) -> Result<(), NoMemory>
    ensures { OnOk result (string_bytes out.new ≡ string_bytes out.old ++ report_start_of events.now) }
{
    out.push_str("scalardb report 1\n")?;
    put_heading(out, "events", events.len())?;
    Ok(())
}

fn put_lines(out: &mut String, events: &Events) -> Result<(), NoMemory>
    ensures { OnOk result (string_bytes out.new ≡ string_bytes out.old ++ event_lines 1 events.now) }
{
    put_events(out, events.as_slice())
}

/// Adds what the report of an outcome has behind the lines of its events.
pub fn put_report_end(out: &mut String, outcome: &Outcome) -> Result<(), NoMemory>
    ensures { OnOk result (string_bytes out.new ≡ string_bytes out.old ++ report_end_of outcome.now) }
{
    put_order_part(out, &outcome.order)?;
    put_tables_part(out, &outcome.tables)?;
    out.push_str("end\n")?;
    Ok(())
}

/// Adds the text of an outcome's report.
pub fn put_report(out: &mut String, outcome: &Outcome) -> Result<(), NoMemory>
    ensures { OnOk result (string_bytes out.new ≡ string_bytes out.old ++ report_text_of outcome.now) }
{
    put_report_start(out, &outcome.events)?;
    put_lines(out, &outcome.events)?;
    put_report_end(out, outcome)?;
    Ok(())
}

/// The text of an outcome's report.
pub fn report_text(alloc: Global, outcome: &Outcome) -> Result<String, NoMemory>
    ensures { IfOk result (λ text. string_bytes text ≡ report_text_of outcome.now) }
{
    let mut out = String::new(alloc);
    put_report(&mut out, outcome)?;
    Ok(out)
}
