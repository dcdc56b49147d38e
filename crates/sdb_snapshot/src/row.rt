//! The rows that records show.
ghost use Rattle.std.specs.Prelude.{◌≡◌, IfOk};
ghost use Rattle.std.specs.Option.{option_copied};
ghost use Rattle.sdb_record.specs.Parts.{user_columns as user_columns_lem};
ghost use Rattle.sdb_record.specs.Rolls.{row_of_image, row_of_change as row_of_change_lem};
ghost use Rattle.sdb_snapshot.specs.Rows.{row_found};

use sdb_record::{Change, is_tombstone, is_user_name};
use sdb_types::{Columns, Duplicate, NoMemory, Record, SharedSeq};
use std::alloc::Global;

// The user columns. A committed record has five others at least.
fn user_columns(alloc: Global, columns: &Columns) -> Result<Columns, NoMemory>
    ensures { IfOk result (λ user. user ≡ user_columns_lem columns.now) }
{
    let length = columns.len();
    let mut user = SharedSeq::with_room(alloc, length.saturating_sub(5))?;
    for pair in columns.pairs() {
        if is_user_name(pair.name.as_str()) {
            user.push(pair.copy()?)?;
        }
    }
    Ok(Columns::from_pairs(user))
}

/// The row that a committed record shows: its user columns; a tombstone shows none.
pub fn row_of(alloc: Global, rec: &Record) -> Result<Option<Columns>, NoMemory>
    ensures { IfOk result (λ row. row ≡ row_of_image rec.now) }
{
    if is_tombstone(rec) {
        Ok(None)
    } else {
        Ok(Some(user_columns(alloc, &rec.columns)?))
    }
}

// The row of a record that was found.
pub fn row_of_found(alloc: Global, found: &Option<Record>) -> Result<Option<Columns>, NoMemory>
    ensures { IfOk result (λ row. row ≡ row_found found.now) }
{
    match found {
        Some(rec) => row_of(alloc, rec),
        None => Ok(None),
    }
}

// The row that a change leaves.
pub fn row_of_change(change: &Change) -> Result<Option<Columns>, NoMemory>
    ensures { IfOk result (λ row. row ≡ row_of_change_lem change.now) }
{
    match change {
        Change::Row(columns) => Ok(Some(columns.copy()?)),
        Change::Delete => Ok(None),
    }
}
