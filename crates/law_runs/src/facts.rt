//! What the types keep of every outcome: a name is one, a number lies in its range, a text is UTF-8. The functions change nothing, and are
//! called in a `prove!` alone, whose condition a build may drop.
ghost use Rattle.std.specs.Prelude.{◌≡◌, true, ◌<◌, ◌^◌, All, IfSome};
ghost use Rattle.std.specs.Str.{IsUtf8};
ghost use Rattle.sdb_types.specs.Fits.{record_fits};
ghost use Rattle.sdb_model.specs.Plain.{IsPlainPoint, altered_is_plain, condition_is_plain, id_is_plain, put_is_plain, refusal_is_plain, reply_is_plain, request_is_plain, span_is_plain, table_is_plain, values_are_plain};
ghost use Rattle.law_runs.specs.Facts.{answer_fits, dump_fits, event_fits, given_fits, outcome_fits};

use sdb_model::{Altered, Answer, Boxed, Event, Outcome, Point, Refusal, TableDump};
use sdb_types::{
    Condition, Put, Record, Reply, Request, Span, TxId, Txt, Values, key_facts, name_facts,
    record_facts, table_facts, values_facts,
};

fn span_facts(span: &Span)
    ensures { span_is_plain span.now }
{
    table_facts(&span.table);
    if let Some(partition) = &span.partition {
        values_facts(partition.as_slice());
    }
}

fn found_facts(found: &Option<Record>)
    ensures { IfSome found.now record_fits }
{
    if let Some(rec) = found {
        record_facts(rec);
    }
}

fn records_facts(records: &[Record])
    ensures { All record_fits records.now }
{
    for rec in records {
        record_facts(rec);
    }
}

fn id_facts(id: TxId)
    ensures { id_is_plain id }
{
    let _number = id.0;
}

fn refusal_facts(refusal: Refusal)
    ensures { refusal_is_plain refusal }
{
    let Refusal { kind: _, place: _ } = refusal;
}

fn condition_facts(condition: Condition)
    ensures { condition_is_plain condition }
{
    match condition {
        Condition::Absent => {}
        Condition::Version(id, _) => id_facts(id),
    }
}

fn put_facts(put: &Put)
    ensures { put_is_plain put.now }
{
    record_facts(&put.rec);
    condition_facts(put.condition);
}

fn puts_facts(puts: &[Put])
    ensures { All put_is_plain puts.now }
{
    for put in puts {
        put_facts(put);
    }
}

fn request_facts(request: &Request)
    ensures { request_is_plain request.now }
{
    match request {
        Request::Get(key) => key_facts(key),
        Request::Scan(span) => span_facts(span),
        Request::PutIf(rec, condition) => {
            record_facts(rec);
            condition_facts(*condition);
        }
        Request::DeleteIf(key, condition) => {
            key_facts(key);
            condition_facts(*condition);
        }
        Request::PutAll(batch) => {
            let _length = batch.len();
            puts_facts(batch.as_slice());
        }
    }
}

fn reply_facts(reply: &Reply)
    ensures { reply_is_plain reply.now }
{
    match reply {
        Reply::Found(found) | Reply::NotMet(found) => found_facts(found),
        Reply::NotAll(place, found) => {
            let _place = *place;
            found_facts(found);
        }
        Reply::Rows(rows) => {
            let _length = rows.len();
            records_facts(rows.as_slice());
        }
        Reply::Applied | Reply::Fault | Reply::NoMemory => {}
    }
}

fn row_facts(row: &Values)
    ensures { values_are_plain row.now }
{
    values_facts(row.as_slice());
}

fn rows_facts(rows: &[Values])
    ensures { All values_are_plain rows.now }
{
    for row in rows {
        row_facts(row);
    }
}

fn answer_facts(answer: &Answer)
    ensures { answer_fits answer.now }
{
    match answer {
        Answer::Rows(rows) => {
            let _length = rows.len();
            rows_facts(rows.as_slice());
        }
        Answer::Count(n) => {
            let _count = *n;
        }
        Answer::Duplicate(key) | Answer::BadRecord(key) => key_facts(key),
        Answer::Busy(key, id, at) => {
            key_facts(key);
            id_facts(*id);
            let _moment = *at;
        }
        Answer::Conflict(key, found) => {
            key_facts(key);
            found_facts(found);
        }
        Answer::Expired(id) | Answer::Unknown(id) => id_facts(*id),
        Answer::Refused(refusal) => refusal_facts(*refusal),
        Answer::Done
        | Answer::Committed
        | Answer::Faulted
        | Answer::Vacuuming
        | Answer::OpenTransactions
        | Answer::NoMemory => {}
    }
}

fn given_facts(given: &Option<Boxed<Answer>>)
    ensures { given_fits given.now }
{
    if let Some(answer) = given {
        answer_facts(answer.get());
    }
}

fn utf8_facts(text: &Txt)
    ensures { IsUtf8 text.now }
{
    let _text = text.as_str();
}

fn altered_facts(altered: Altered)
    ensures { altered_is_plain altered }
{
    match altered {
        Altered::Refused(number) => {
            let _number = number;
        }
        Altered::Done | Altered::Open => {}
    }
}

fn event_facts(event: &Event)
    ensures { event_fits event.now }
{
    match event {
        Event::Take(client, text, given) => {
            let _client = *client;
            utf8_facts(text);
            given_facts(given);
        }
        Event::Call(client, store, request, _, reply, given) => {
            let _client = *client;
            name_facts(store);
            request_facts(request.get());
            reply_facts(reply.get());
            given_facts(given);
        }
        Event::Stop(client) | Event::Idle(client) => {
            let _client = *client;
        }
        Event::Clock(moment) => {
            let _moment = *moment;
        }
        Event::Alter(table, column, _, altered) => {
            table_facts(table);
            name_facts(column);
            altered_facts(*altered);
        }
        Event::Land(number, store, request, _, reply) => {
            let _number = *number;
            name_facts(store);
            request_facts(request.get());
            reply_facts(reply.get());
        }
    }
}

fn events_facts(events: &[Event])
    ensures { All event_fits events.now }
{
    for event in events {
        event_facts(event);
    }
}

fn point_facts(point: &Point)
    ensures { IsPlainPoint point.now }
{
    id_facts(point.id);
    let _event = point.event;
}

fn points_facts(points: &[Point])
    ensures { All IsPlainPoint points.now }
{
    for point in points {
        point_facts(point);
    }
}

fn dump_facts(dump: &TableDump)
    ensures { dump_fits dump.now }
{
    table_facts(&dump.name);
    let _length = dump.rows.len();
    rows_facts(dump.rows.as_slice());
}

fn dumps_facts(dumps: &[TableDump])
    ensures { All dump_fits dumps.now }
{
    for dump in dumps {
        dump_facts(dump);
    }
}

/// What is known of an outcome: a condition that is true of each, for a `prove!`.
pub fn outcome_facts(outcome: &Outcome) -> bool
    ensures always { result ≡ true }
    ensures fits { outcome_fits outcome.now }
{
    let _lengths = (
        outcome.events.len(),
        outcome.order.len(),
        outcome.tables.len(),
    );
    events_facts(outcome.events.as_slice());
    points_facts(outcome.order.as_slice());
    dumps_facts(outcome.tables.as_slice());
    true
}
