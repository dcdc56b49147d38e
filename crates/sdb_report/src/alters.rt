//! Columns that are to be added to tables.
ghost use Rattle.std.specs.Prelude.{◌≡◌, ◌^◌};
ghost use Rattle.sdb_report.specs.FieldReading as spec;
ghost use Rattle.sdb_report.specs.FieldReading.{Gives};
ghost use Rattle.sdb_report.specs.Lines as form;

use crate::keys::table_at;
use crate::numbers::u8_at;
use crate::unread::Unread;
use crate::words::{after, expect, name_at};
use sdb_model::{Altered, Event};
use sdb_schema::Kind;
use sdb_types::{Name, TableName};
use std::alloc::Global;

#[tactic(auto, unfolding(crate::specs::Lines::kind_at))]
fn kind_at(bytes: &[u8]) -> Result<(Kind, &[u8]), Unread>
    ensures { Gives (λ x. (x.0, x.1.now)) result (form.kind_at bytes.now) }
{
    if let Some(rest) = after(b"BOOLEAN", bytes) {
        return Ok((Kind::Boolean, rest));
    }
    if let Some(rest) = after(b"INT", bytes) {
        return Ok((Kind::Int, rest));
    }
    if let Some(rest) = after(b"BIGINT", bytes) {
        return Ok((Kind::BigInt, rest));
    }
    if let Some(rest) = after(b"TEXT", bytes) {
        return Ok((Kind::Text, rest));
    }
    if let Some(rest) = after(b"BLOB", bytes) {
        return Ok((Kind::Blob, rest));
    }
    Err(Unread::Bad)
}

fn refused_at(bytes: &[u8]) -> Result<(Altered, &[u8]), Unread>
    ensures { Gives (λ x. (x.0, x.1.now)) result (form.refused_at bytes.now) }
{
    let (number, rest) = u8_at(bytes)?;
    Ok((Altered::Refused(number), rest))
}

#[tactic(auto, unfolding(crate::specs::Lines::altered_at))]
fn altered_at(bytes: &[u8]) -> Result<(Altered, &[u8]), Unread>
    ensures { Gives (λ x. (x.0, x.1.now)) result (form.altered_at bytes.now) }
{
    if let Some(rest) = after(b"done", bytes) {
        return Ok((Altered::Done, rest));
    }
    if let Some(rest) = after(b"open", bytes) {
        return Ok((Altered::Open, rest));
    }
    if let Some(rest) = after(b"refused ", bytes) {
        return refused_at(rest);
    }
    Err(Unread::Bad)
}

fn next_name_at(alloc: Global, bytes: &[u8]) -> Result<(Name, &[u8]), Unread>
    ensures { Gives (λ x. (x.0, x.1.now)) result (form.behind_space spec.name_at bytes.now) }
{
    let rest = expect(b" ", bytes)?;
    name_at(alloc, rest)
}

fn next_kind_at(bytes: &[u8]) -> Result<(Kind, &[u8]), Unread>
    ensures { Gives (λ x. (x.0, x.1.now)) result (form.behind_space form.kind_at bytes.now) }
{
    let rest = expect(b" ", bytes)?;
    kind_at(rest)
}

fn next_altered_at(bytes: &[u8]) -> Result<(Altered, &[u8]), Unread>
    ensures { Gives (λ x. (x.0, x.1.now)) result (form.behind_space form.altered_at bytes.now) }
{
    let rest = expect(b" ", bytes)?;
    altered_at(rest)
}

// The table, and the column that is to be added to it: the first half of the line.
#[tactic(auto, unfolding(crate::specs::Lines::column_at))]
fn column_at(alloc: Global, bytes: &[u8]) -> Result<((TableName, Name, Kind), &[u8]), Unread>
    ensures { Gives (λ x. (x.0, x.1.now)) result (form.column_at bytes.now) }
{
    let (table, rest) = table_at(alloc, bytes)?;
    let (column, rest) = next_name_at(alloc, rest)?;
    let (kind, rest) = next_kind_at(rest)?;
    Ok(((table, column, kind), rest))
}

// What became of it: the second half.
fn whole_altered_of(bytes: &[u8]) -> Result<Altered, Unread>
    ensures { Gives (λ x. x) result (form.whole (form.behind_space form.altered_at bytes.now)) }
{
    let (altered, rest) = next_altered_at(bytes)?;
    if rest.is_empty() {
        Ok(altered)
    } else {
        Err(Unread::Bad)
    }
}

/// The event of a line that tells of a column to be added, after its first word.
#[tactic(auto, unfolding(crate::specs::Lines::alter_of))]
pub fn alter_of(alloc: Global, line: &[u8]) -> Result<Event, Unread>
    ensures { Gives (λ e. e) result (form.alter_of line.now) }
{
    let ((table, column, kind), rest) = column_at(alloc, line)?;
    let altered = whole_altered_of(rest)?;
    Ok(Event::Alter(table, column, kind, altered))
}
