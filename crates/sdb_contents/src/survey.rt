//! What is read before the first write.
ghost use Rattle.std.specs.Prelude.{◌≡◌, [], IsSome, IfOk, IfErr};
ghost use Rattle.sdb_stores.specs.Views.{index_at, index_in};
ghost use Rattle.sdb_contents.specs.Retired.{IsSurvey, IsUnsurveyed, sides};
ghost use Rattle.sdb_contents.specs.Writes.{GoOn, Hold};

use crate::moving::moving_tables;
use crate::retire_read::read_moving;
use crate::retire_refused::RetireRefused;
use crate::see::see_all;
use crate::seen::Seen;
use sdb_catalog::Entry;
use sdb_stores::Registry;
use sdb_types::{Name, Seq};
use std::alloc::Global;

/// The entries of the catalog, and each moving table in both stores.
pub struct Survey {
    pub entries: Seq<Entry>,
    pub seen: Seq<Seen>,
}

// By hand: each drop is then one call, where a derived one is written out at each exit, with a call for each field.
impl Drop for Survey {
    fn drop(self) {
        let Survey {
            entries: _,
            seen: _,
        } = self;
    }
}

/// Reads the catalog, and each moving table in both stores.
pub fn survey_of<R: Registry>(
    alloc: Global,
    stores: &mut R,
    first: &Name,
    from: &Name,
    to: &Name,
) -> Result<Survey, RetireRefused>
    requires named { index_at (R.state stores.old) first.now ≡ 0 }
    requires first { IsSome (index_in (R.state stores.old) first.now) }
    requires from { IsSome (index_in (R.state stores.old) from.now) }
    requires to { IsSome (index_in (R.state stores.old) to.now) }
    ensures observed { IfOk result (IsSurvey (sides from.now to.now) (R.state stores.old)) }
    ensures held { Hold [] (R.state stores.old) (R.state stores.new) }
    ensures goes { GoOn (R.state stores.old) (R.state stores.new) }
    ensures err { IfErr result (IsUnsurveyed (sides from.now to.now) (R.state stores.old) (R.state stores.new).views) }
{
    let entries = read_moving(alloc, stores, first, from, to)?;
    let tables = moving_tables(alloc, from, entries.as_slice())?;
    let seen = see_all(alloc, stores, from, to, tables.as_slice())?;
    Ok(Survey { entries, seen })
}
