//! The lines of a report, each by itself.
ghost use Rattle.std.specs.Prelude.{◌≡◌, ◌≤◌, length};
ghost use Rattle.std.specs.List.{prefix_len};
ghost use Rattle.std.specs.Option.{option_map, option_copied};
ghost use Rattle.sdb_model.specs.Plain.{is_no_lf};
ghost use Rattle.sdb_report.specs.FieldReading as text;
ghost use Rattle.sdb_report.specs.Lines as form;
ghost use Rattle.sdb_report.specs.Reading as spec;
ghost use Rattle.sdb_codec.specs.Reading.{Gives};

use crate::events::numbered_event_of;
use crate::{Unread, expect, id_at, natural_at, row_at, table_at};
use sdb_codec::Stopped;
use sdb_model::{Event, Point, TableDump};
use sdb_types::{TableName, Values};
use std::alloc::Global;

// How long the line at the start is.
fn line_len(bytes: &[u8]) -> usize
    ensures len { result ≡ prefix_len is_no_lf bytes.now }
    ensures within { result ≤ length bytes.now }
{
    bytes.iter().take_while(|b| **b != b'\n').count()
}

/// The line at the start, which ends with LF, and the bytes after it.
pub fn cut_line(bytes: &[u8]) -> Option<(&[u8], &[u8])>
    ensures { option_map (λ x. (x.0.now, x.1.now)) result ≡ spec.cut_line bytes.now }
{
    let (line, rest) = bytes.split_at(line_len(bytes));
    match rest {
        [_, more @ ..] => Some((line, more)),
        [] => None,
    }
}

fn number_of(bytes: &[u8]) -> Result<u64, Unread>
    ensures { text.Gives (λ n. n) result (form.whole (text.natural_at bytes.now)) }
{
    let (n, rest) = natural_at(bytes)?;
    if rest.is_empty() {
        Ok(n)
    } else {
        Err(Unread::Bad)
    }
}

fn heading_of(word: &[u8], line: &[u8]) -> Result<u64, Unread>
    ensures { text.Gives (λ n. n) result (spec.heading_of word.now line.now) }
{
    let rest = expect(word, line)?;
    number_of(rest)
}

#[tactic(auto, unfolding(crate::specs::Reading::point_of))]
fn point_of(alloc: Global, line: &[u8]) -> Result<Point, Unread>
    ensures { text.Gives (λ p. p) result (spec.point_of line.now) }
{
    let (id, rest) = id_at(alloc, line)?;
    let rest = expect(b" ", rest)?;
    let event = number_of(rest)?;
    Ok(Point { id, event })
}

fn row_of(alloc: Global, line: &[u8]) -> Result<Values, Unread>
    ensures { text.Gives (λ row. row) result (spec.row_of line.now) }
{
    let (row, rest) = row_at(alloc, line)?;
    if rest.is_empty() {
        Ok(row)
    } else {
        Err(Unread::Bad)
    }
}

fn is_after(before: Option<&TableDump>, name: &TableName) -> bool
    ensures { result ≡ spec.is_after (option_copied before.entry) name.now }
{
    match before {
        None => true,
        Some(before) => before.name.cmp(name).is_lt(),
    }
}

fn next_table_of(before: Option<&TableDump>, name: TableName) -> Result<TableName, Unread>
    ensures { text.Gives (λ t. t) result (spec.next_table_of (option_copied before.entry) name) }
{
    if is_after(before, &name) {
        Ok(name)
    } else {
        Err(Unread::Bad)
    }
}

#[tactic(auto, unfolding(crate::specs::Reading::table_of))]
fn table_of(
    alloc: Global,
    before: Option<&TableDump>,
    line: &[u8],
) -> Result<(TableName, u64), Unread>
    ensures { text.Gives (λ x. x) result (spec.table_of (option_copied before.entry) line.now) }
{
    let rest = expect(b"table ", line)?;
    let (name, rest) = table_at(alloc, rest)?;
    let table = next_table_of(before, name)?;
    let rest = expect(b" ", rest)?;
    let count = number_of(rest)?;
    Ok((table, count))
}

/// The bytes after a line that is this word.
pub fn fixed_at<'a>(word: &[u8], bytes: &'a [u8]) -> Result<&'a [u8], Stopped>
    ensures { Gives (λ x. (word.now, x.now)) result (spec.line_at (spec.fixed_of word.now) bytes.now) }
{
    let Some((line, rest)) = cut_line(bytes) else {
        return Err(Stopped::Wrong(bytes.len()));
    };
    if line == word {
        Ok(rest)
    } else {
        Err(Stopped::Wrong(bytes.len()))
    }
}

/// The count in a heading.
pub fn heading_at<'a>(word: &[u8], bytes: &'a [u8]) -> Result<(u64, &'a [u8]), Stopped>
    ensures { Gives (λ x. (x.0, x.1.now)) result (spec.line_at (spec.heading_of word.now) bytes.now) }
{
    let Some((line, rest)) = cut_line(bytes) else {
        return Err(Stopped::Wrong(bytes.len()));
    };
    match heading_of(word, line) {
        Ok(n) => Ok((n, rest)),
        Err(Unread::Bad) => Err(Stopped::Wrong(bytes.len())),
        Err(Unread::NoMemory) => Err(Stopped::NoMemory),
    }
}

/// The event with this number.
pub fn event_at(alloc: Global, number: u64, bytes: &[u8]) -> Result<(Event, &[u8]), Stopped>
    ensures { Gives (λ x. (x.0, x.1.now)) result (spec.line_at (form.numbered_event_of number) bytes.now) }
{
    let Some((line, rest)) = cut_line(bytes) else {
        return Err(Stopped::Wrong(bytes.len()));
    };
    match numbered_event_of(alloc, number, line) {
        Ok(event) => Ok((event, rest)),
        Err(Unread::Bad) => Err(Stopped::Wrong(bytes.len())),
        Err(Unread::NoMemory) => Err(Stopped::NoMemory),
    }
}

/// A recorded transaction.
pub fn point_at(alloc: Global, bytes: &[u8]) -> Result<(Point, &[u8]), Stopped>
    ensures { Gives (λ x. (x.0, x.1.now)) result (spec.line_at spec.point_of bytes.now) }
{
    let Some((line, rest)) = cut_line(bytes) else {
        return Err(Stopped::Wrong(bytes.len()));
    };
    match point_of(alloc, line) {
        Ok(point) => Ok((point, rest)),
        Err(Unread::Bad) => Err(Stopped::Wrong(bytes.len())),
        Err(Unread::NoMemory) => Err(Stopped::NoMemory),
    }
}

/// A row of a table.
pub fn row_line_at(alloc: Global, bytes: &[u8]) -> Result<(Values, &[u8]), Stopped>
    ensures { Gives (λ x. (x.0, x.1.now)) result (spec.line_at spec.row_of bytes.now) }
{
    let Some((line, rest)) = cut_line(bytes) else {
        return Err(Stopped::Wrong(bytes.len()));
    };
    match row_of(alloc, line) {
        Ok(row) => Ok((row, rest)),
        Err(Unread::Bad) => Err(Stopped::Wrong(bytes.len())),
        Err(Unread::NoMemory) => Err(Stopped::NoMemory),
    }
}

/// A table's name, which comes after the one before, and how many rows it has.
pub fn table_line_at<'a>(
    alloc: Global,
    before: Option<&TableDump>,
    bytes: &'a [u8],
) -> Result<((TableName, u64), &'a [u8]), Stopped>
    ensures { Gives (λ x. (x.0, x.1.now)) result (spec.line_at (spec.table_of (option_copied before.entry)) bytes.now) }
{
    let Some((line, rest)) = cut_line(bytes) else {
        return Err(Stopped::Wrong(bytes.len()));
    };
    match table_of(alloc, before, line) {
        Ok(table) => Ok((table, rest)),
        Err(Unread::Bad) => Err(Stopped::Wrong(bytes.len())),
        Err(Unread::NoMemory) => Err(Stopped::NoMemory),
    }
}
