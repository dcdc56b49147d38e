//! What a rescan finds, against what it is to find.
ghost use Rattle.std.specs.Prelude.{◌≡◌, slice_get};
ghost use Rattle.std.specs.Option.{option_copied};
ghost use Rattle.sdb_record.specs.Moved.{is_unchanged};
ghost use Rattle.sdb_phases.specs.Checks.{is_granted};
ghost use Rattle.sdb_validate.specs.Merge.{merge, located, verdict_on, verdict_absent, verdict_here};

use sdb_phases::{Expected, Wanted};
use sdb_record::has_version;
use sdb_types::{Record, State, TxId};
use std::cmp::Ordering;

/// Where the first difference is: at a wanted key without a row, or at a row.
#[derive(Clone, Copy)]
pub enum Place {
    Missing(usize),
    Row(usize),
}

/// What is wanted at a key, against the next row.
#[derive(Clone, Copy)]
pub enum Verdict {
    /// There is no such row, and none is wanted.
    Absent,
    /// The row is as is wanted.
    Here,
    /// There is no such row, and one is wanted.
    Missing,
    /// The row is not as is wanted.
    Differs,
}

// A row is still the version that was read.
fn is_version_read(row: Option<&Record>, version: Option<TxId>) -> bool
    ensures { result ≡ is_unchanged (option_copied row.entry) version }
{
    match (row, version) {
        (Some(rec), Some(id)) => has_version(rec, id, State::Committed),
        (None, None) => true,
        _ => false,
    }
}

fn grants(wish: Expected, row: Option<&Record>) -> bool
    ensures { result ≡ is_granted wish (option_copied row.entry) }
{
    match wish {
        Expected::Unchanged(version) => is_version_read(row, version),
        Expected::Based(same) => same,
    }
}

fn judge_absent(wanted: &Wanted) -> Verdict
    ensures { result ≡ verdict_absent wanted.now }
{
    if grants(wanted.wish, None) {
        Verdict::Absent
    } else {
        Verdict::Missing
    }
}

fn judge_here(wanted: &Wanted, row: &Record) -> Verdict
    ensures { result ≡ verdict_here wanted.now row.now }
{
    if grants(wanted.wish, Some(row)) {
        Verdict::Here
    } else {
        Verdict::Differs
    }
}

fn judge(wanted: &Wanted, row: Option<&Record>) -> Verdict
    ensures { result ≡ verdict_on wanted.now (option_copied row.entry) }
{
    match row {
        None => judge_absent(wanted),
        Some(row) => match wanted.key.compare(&row.key) {
            Ordering::Less => judge_absent(wanted),
            Ordering::Equal => judge_here(wanted, row),
            Ordering::Greater => Verdict::Differs,
        },
    }
}

fn row_at(rows: &[Record], i: usize) -> Option<&Record>
    ensures { option_copied result ≡ slice_get rows.now i }
{
    rows.get(i)
}

/// Where the first difference in key order is. Both lists are gone through once. Takes no memory.
pub fn first_place(wants: &[Wanted], rows: &[Record]) -> Option<Place>
    ensures { located wants.now rows.now result ≡ merge wants.now rows.now }
{
    let mut next = 0;
    for (i, wanted) in wants.iter().enumerate() {
        match judge(wanted, row_at(rows, next)) {
            Verdict::Absent => {}
            Verdict::Here => next += 1,
            Verdict::Missing => return Some(Place::Missing(i)),
            Verdict::Differs => return Some(Place::Row(next)),
        }
    }
    if next < rows.len() {
        Some(Place::Row(next))
    } else {
        None
    }
}
