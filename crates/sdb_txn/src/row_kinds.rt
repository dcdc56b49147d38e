//! What the rows of a read are, and the records that they come to.
ghost use Rattle.std.specs.Prelude.{◌≡◌, IfOk};
ghost use Rattle.sdb_txn.specs.Read.{kind_of, settle as settle_lem};
ghost use Rattle.sdb_txn.specs.Rows.{IsOpen, settled_stage, sort_of};

use sdb_record::{MetaRefused, meta_of};
use sdb_types::{Key, NoMemory, Record, Records, State};
use std::alloc::Global;
use std::collections::VecDeque;

/// What a row is: a committed record, an unresolved one, or no record of a transaction.
#[derive(Clone, Copy, Debug, PartialEq, Eq)]
pub enum Sort {
    Firm,
    Open,
    Bad,
}

/// What the rows came to: each is an image, the next one is unresolved, or the one at this key is no record of a transaction.
#[derive(Debug, Drop)]
pub enum Settled {
    All,
    Open(Record),
    Bad(Key),
}

/// What a row is.
pub fn sorted(alloc: Global, row: &Record) -> Result<Sort, NoMemory>
    ensures { IfOk result (λ sort. sort ≡ sort_of (kind_of row.now)) }
{
    match meta_of(alloc, row) {
        Ok(meta) => {
            if meta.state == State::Committed {
                Ok(Sort::Firm)
            } else {
                Ok(Sort::Open)
            }
        }
        Err(MetaRefused::BadMeta(_)) => Ok(Sort::Bad),
        Err(MetaRefused::NoMemory) => Err(NoMemory),
    }
}

/// Takes rows for images, from the first on, up to one that is unresolved.
pub fn settle(
    alloc: Global,
    images: &mut Records,
    left: &mut VecDeque<Record>,
) -> Result<Settled, NoMemory>
    ensures open { IfOk result IsOpen }
    ensures settled { IfOk result (λ s. settled_stage s images.new left.new.items ≡ settle_lem images.old left.old.items) }
{
    while let Some(row) = left.pop_front() {
        match sorted(alloc, &row)? {
            Sort::Firm => images.push(row)?,
            Sort::Open => return Ok(Settled::Open(row)),
            Sort::Bad => return Ok(Settled::Bad(row.into_key())),
        }
    }
    Ok(Settled::All)
}
