//! What the rows of a table are, and the first of them that needs a call.
ghost use Rattle.std.specs.Prelude.{◌≡◌, IfOk};
ghost use Rattle.sdb_vacuum.specs.Vacuum.{first_of};
ghost use Rattle.sdb_vacuum.specs.Rows.{IsFound, found_as};

use sdb_record::is_tombstone;
use sdb_txn::{Sort, sorted};
use sdb_types::{Key, NoMemory, Record};
use std::alloc::Global;
use std::collections::VecDeque;

/// The first of some rows that needs a call, or is no record of a transaction.
#[derive(Drop)]
pub enum Found {
    Nothing,
    Tombstone(Record),
    Unresolved(Record),
    Malformed(Key),
}

/// Passes over rows, from the first on, up to one that needs a call or is no record of a transaction.
pub fn first(alloc: Global, left: &mut VecDeque<Record>) -> Result<Found, NoMemory>
    ensures first { IfOk result (λ found. found_as found left.new.items ≡ first_of left.old.items) }
    ensures found { IfOk result IsFound }
{
    while let Some(row) = left.pop_front() {
        match sorted(alloc, &row)? {
            Sort::Firm => {
                if is_tombstone(&row) {
                    return Ok(Found::Tombstone(row));
                }
            }
            Sort::Open => return Ok(Found::Unresolved(row)),
            Sort::Bad => return Ok(Found::Malformed(row.into_key())),
        }
    }
    Ok(Found::Nothing)
}
