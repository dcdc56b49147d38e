//! The parts of a report, each with the count of what it has.
ghost use Rattle.std.specs.Prelude.{◌≡◌, []};
ghost use Rattle.std.specs.Option.{option_copied};
ghost use Rattle.sdb_report.specs.Reading as spec;
ghost use Rattle.sdb_codec.specs.Reading.{Gives};

use crate::lines::{event_at, fixed_at, heading_at, point_at, row_line_at, table_line_at};
use sdb_codec::Stopped;
use sdb_model::{Events, Outcome, Points, Rows, TableDump, TableRows};
use std::alloc::Global;

fn events_on(alloc: Global, count: u64, bytes: &[u8]) -> Result<(Events, &[u8]), Stopped>
    ensures { Gives (λ x. (x.0, x.1.now)) result (spec.lines_at spec.event_at [] count bytes.now) }
{
    let mut events = Events::new(alloc);
    let mut rest = bytes;
    for i in 0..count {
        let (event, more) = event_at(alloc, i + 1, rest)?;
        events.push(event)?;
        rest = more;
    }
    Ok((events, rest))
}

fn points_on(alloc: Global, count: u64, bytes: &[u8]) -> Result<(Points, &[u8]), Stopped>
    ensures { Gives (λ x. (x.0, x.1.now)) result (spec.lines_at spec.point_at [] count bytes.now) }
{
    let mut points = Points::new(alloc);
    let mut rest = bytes;
    for _ in 0..count {
        let (point, more) = point_at(alloc, rest)?;
        points.push(point)?;
        rest = more;
    }
    Ok((points, rest))
}

fn rows_on(alloc: Global, count: u64, bytes: &[u8]) -> Result<(Rows, &[u8]), Stopped>
    ensures { Gives (λ x. (x.0, x.1.now)) result (spec.lines_at spec.row_line_at [] count bytes.now) }
{
    let mut rows = Rows::new(alloc);
    let mut rest = bytes;
    for _ in 0..count {
        let (row, more) = row_line_at(alloc, rest)?;
        rows.push(row)?;
        rest = more;
    }
    Ok((rows, rest))
}

fn dump_at<'a>(
    alloc: Global,
    before: &TableRows,
    bytes: &'a [u8],
) -> Result<(TableDump, &'a [u8]), Stopped>
    ensures { Gives (λ x. (x.0, x.1.now)) result (spec.dump_at before.now bytes.now) }
{
    let ((name, count), rest) = table_line_at(alloc, before.last(), bytes)?;
    let (rows, rest) = rows_on(alloc, count, rest)?;
    Ok((TableDump { name, rows }, rest))
}

fn dumps_on(alloc: Global, count: u64, bytes: &[u8]) -> Result<(TableRows, &[u8]), Stopped>
    ensures { Gives (λ x. (x.0, x.1.now)) result (spec.lines_at spec.dump_at [] count bytes.now) }
{
    let mut dumps = TableRows::new(alloc);
    let mut rest = bytes;
    for _ in 0..count {
        let (dump, more) = dump_at(alloc, &dumps, rest)?;
        dumps.push(dump)?;
        rest = more;
    }
    Ok((dumps, rest))
}

fn events_at(alloc: Global, bytes: &[u8]) -> Result<(Events, &[u8]), Stopped>
    ensures { Gives (λ x. (x.0, x.1.now)) result (spec.events_at bytes.now) }
{
    let (count, rest) = heading_at(b"events ", bytes)?;
    let (events, rest) = events_on(alloc, count, rest)?;
    Ok((events, rest))
}

fn order_at(alloc: Global, bytes: &[u8]) -> Result<(Points, &[u8]), Stopped>
    ensures { Gives (λ x. (x.0, x.1.now)) result (spec.order_at bytes.now) }
{
    let (count, rest) = heading_at(b"order ", bytes)?;
    let (points, rest) = points_on(alloc, count, rest)?;
    Ok((points, rest))
}

fn tables_at(alloc: Global, bytes: &[u8]) -> Result<(TableRows, &[u8]), Stopped>
    ensures { Gives (λ x. (x.0, x.1.now)) result (spec.tables_at bytes.now) }
{
    let (count, rest) = heading_at(b"tables ", bytes)?;
    let (dumps, rest) = dumps_on(alloc, count, rest)?;
    Ok((dumps, rest))
}

fn places_at(alloc: Global, bytes: &[u8]) -> Result<((Points, TableRows), &[u8]), Stopped>
    ensures { Gives (λ x. (x.0, x.1.now)) result (spec.places_at bytes.now) }
{
    let (order, rest) = order_at(alloc, bytes)?;
    let (tables, rest) = tables_at(alloc, rest)?;
    Ok(((order, tables), rest))
}

fn parts_at(alloc: Global, bytes: &[u8]) -> Result<(Outcome, &[u8]), Stopped>
    ensures { Gives (λ x. (x.0, x.1.now)) result (spec.parts_at bytes.now) }
{
    let (events, rest) = events_at(alloc, bytes)?;
    let ((order, tables), rest) = places_at(alloc, rest)?;
    let outcome = Outcome {
        events,
        order,
        tables,
    };
    Ok((outcome, rest))
}

fn body_at(alloc: Global, bytes: &[u8]) -> Result<(Outcome, &[u8]), Stopped>
    ensures { Gives (λ x. (x.0, x.1.now)) result (spec.body_at bytes.now) }
{
    let (outcome, rest) = parts_at(alloc, bytes)?;
    let rest = fixed_at(b"end", rest)?;
    Ok((outcome, rest))
}

fn report_at(alloc: Global, bytes: &[u8]) -> Result<(Outcome, &[u8]), Stopped>
    ensures { Gives (λ x. (x.0, x.1.now)) result (spec.report_at bytes.now) }
{
    let rest = fixed_at(b"scalardb report 1", bytes)?;
    let (outcome, rest) = body_at(alloc, rest)?;
    Ok((outcome, rest))
}

/// The outcome of a whole report.
pub fn whole_report(alloc: Global, bytes: &[u8]) -> Result<Outcome, Stopped>
    ensures { Gives (λ o. o) result (spec.report_in bytes.now) }
{
    let (outcome, rest) = report_at(alloc, bytes)?;
    if !rest.is_empty() {
        return Err(Stopped::Wrong(rest.len()));
    }
    Ok(outcome)
}
