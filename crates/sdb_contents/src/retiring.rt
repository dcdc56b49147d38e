//! A store retired: moved, and then dropped.
ghost use Rattle.std.specs.Prelude.{◌≡◌, ◌↔◌, Contains, Some, IsTrue, IfOk, IfErr, OnOk, OnErr, slice_get};
ghost use Rattle.sdb_stores.specs.Views.{names_of};
ghost use Rattle.sdb_contents.specs.Dropped.{HoldsStill, IsRetired, MayRetire, OpensTheSame};
ghost use Rattle.sdb_contents.specs.Retired.{AreKnown, IsLeft, IsUnmoved, IsUnmovedKnown, OthersArePreserved, sides};
ghost use Rattle.sdb_contents.specs.Writes.{GoOn};

use crate::retire_refused::RetireRefused;
use crate::retire_whole::move_all;
use sdb_stores::Registry;
use sdb_types::Name;
use std::alloc::Global;

fn is_named(names: &[Name], name: &Name) -> bool
    ensures { IsTrue result ↔ Contains names.now name.now }
{
    names.contains(name)
}

fn is_first(names: &[Name], name: &Name) -> bool
    ensures { IsTrue result ↔ (slice_get names.now 0 ≡ Some name.now) }
{
    match names.first() {
        Some(first) => first == name,
        None => false,
    }
}

/// Whether the store `from` may be given up for the store `to`, among stores of these names.
pub fn can_retire(names: &[Name], from: &Name, to: &Name) -> bool
    ensures { IsTrue result ↔ MayRetire names.now (sides from.now to.now) }
{
    is_named(names, from) && is_named(names, to) && from != to && !is_first(names, from)
}

/// Moves everything of the catalog that is in the store `from` to the store `to`, and drops `from`. The number is that of the records
/// that were copied.
///
/// Once it returned, `from` is attached no more, and each other store is as it was, or as its writes left it (`retired`). Where contents
/// are known, the rows of the catalog open over the stores that are left, and give the same tables (`opens`). After a refusal `from` is
/// attached, and holds what it held (`kept`); where contents are known, only what was read before the first write is refused as a bad row
/// (`known`).
pub fn retire<R: Registry>(
    alloc: Global,
    stores: &mut R,
    from: &Name,
    to: &Name,
) -> Result<u64, RetireRefused>
    requires { MayRetire (names_of (R.state stores.old).views) (sides from.now to.now) }
    ensures retired { IfOk result (λ n. IsRetired (sides from.now to.now) n (R.state stores.old) (R.state stores.new)) }
    ensures opens { OnOk result (AreKnown (sides from.now to.now) (R.state stores.old) → OpensTheSame (sides from.now to.now) (R.state stores.old) (R.state stores.new)) }
    ensures kept { OnErr result (HoldsStill from.now (R.state stores.old) (R.state stores.new)) }
    ensures left { OnErr result (IsLeft (sides from.now to.now) (R.state stores.old) (R.state stores.new)) }
    ensures others { OnErr result (OthersArePreserved (sides from.now to.now) (R.state stores.old) (R.state stores.new)) }
    ensures goes { OnErr result (GoOn (R.state stores.old) (R.state stores.new)) }
    ensures err { IfErr result (IsUnmoved (sides from.now to.now) (R.state stores.old) (R.state stores.new)) }
    ensures known { IfErr result (IsUnmovedKnown (sides from.now to.now) (R.state stores.old) (R.state stores.new)) }
{
    let count = move_all(alloc, stores, from, to)?;
    stores.drop_store(from);
    Ok(count)
}
