//! What the two stores show of the tables that move.
ghost use Rattle.std.specs.Prelude.{◌≡◌, ◌∷◌, [], IsSome, IfOk, IfErr};
ghost use Rattle.sdb_stores.specs.Views.{index_at, index_in};
ghost use Rattle.sdb_contents.specs.Copying.{IsSeen};
ghost use Rattle.sdb_contents.specs.Read.{AreSeen, IsUnseen};
ghost use Rattle.sdb_contents.specs.Writes.{GoOn, Hold};

use crate::retire_call::scan;
use crate::retire_refused::RetireRefused;
use crate::seen::Seen;
use crate::version::check_free;
use sdb_stores::Registry;
use sdb_types::{Duplicate, Name, Seq, TableName};
use std::alloc::Global;

// What the two stores show of a table, where no record blocks the copy.
fn see_table<R: Registry>(
    stores: &mut R,
    from: &Name,
    to: &Name,
    table: &TableName,
) -> Result<Seen, RetireRefused>
    requires from { IsSome (index_in (R.state stores.old) from.now) }
    requires to { IsSome (index_in (R.state stores.old) to.now) }
    ensures seen { IfOk result (IsSeen (index_at (R.state stores.old) from.now) (index_at (R.state stores.old) to.now) (R.state stores.old)) }
    ensures table { IfOk result (λ seen. seen.table ≡ table.now) }
    ensures held { Hold [] (R.state stores.old) (R.state stores.new) }
    ensures goes { GoOn (R.state stores.old) (R.state stores.new) }
    ensures err { IfErr result (IsUnseen (index_at (R.state stores.old) from.now) (index_at (R.state stores.old) to.now) (table.now ∷ []) (R.state stores.old) (R.state stores.new).views) }
{
    let in_to = scan(stores, to, table)?;
    let in_from = scan(stores, from, table)?;
    check_free(in_to.as_slice(), in_from.as_slice())?;
    Ok(Seen {
        table: table.copy()?,
        in_to,
        in_from,
    })
}

/// What the two stores show of each of these tables, where no record blocks the copy.
pub fn see_all<R: Registry>(
    alloc: Global,
    stores: &mut R,
    from: &Name,
    to: &Name,
    tables: &[TableName],
) -> Result<Seq<Seen>, RetireRefused>
    requires from { IsSome (index_in (R.state stores.old) from.now) }
    requires to { IsSome (index_in (R.state stores.old) to.now) }
    ensures seen { IfOk result (AreSeen (index_at (R.state stores.old) from.now) (index_at (R.state stores.old) to.now) tables.now (R.state stores.old)) }
    ensures held { Hold [] (R.state stores.old) (R.state stores.new) }
    ensures goes { GoOn (R.state stores.old) (R.state stores.new) }
    ensures err { IfErr result (IsUnseen (index_at (R.state stores.old) from.now) (index_at (R.state stores.old) to.now) tables.now (R.state stores.old) (R.state stores.new).views) }
{
    let mut seen = Seq::new(alloc);
    for table in tables {
        seen.push(see_table(stores, from, to, table)?)?;
    }
    Ok(seen)
}
