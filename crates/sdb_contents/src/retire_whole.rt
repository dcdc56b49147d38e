//! A store retired, from its first call to the last.
ghost use Rattle.std.specs.Prelude.{◌≡◌, ◌<◌, length, true, slice_get, Some, IsSome, IfOk, IfErr, OnOk, OnErr};
ghost use Rattle.std.specs.List.{list_all};
ghost use Rattle.sdb_schema.specs.Table.{rises};
ghost use Rattle.sdb_stores.specs.Views.{index_at, index_in, names_of};
ghost use Rattle.sdb_contents.specs.Copying.{AreMade};
ghost use Rattle.sdb_contents.specs.Retired.{AreAllMoved, IsHalted, IsLeft, IsUnmoved, OthersArePreserved, copies_of, sides, writes_of};
ghost use Rattle.sdb_contents.specs.Writes.{GoOn, Hold, HoldFirst};

use crate::moving::renewals;
use crate::retire_refused::RetireRefused;
use crate::retire_write::{count_puts, requests_of, run};
use crate::survey::{Survey, survey_of};
use sdb_stores::Registry;
use sdb_types::{Duplicate, Name, NoMemory};
use std::alloc::Global;

// The name of the first store.
fn first_store<R: Registry>(stores: &R) -> Result<Name, NoMemory>
    requires { 0 < length (R.state stores.now).views }
    ensures { IfOk result (λ name. slice_get (names_of (R.state stores.now).views) 0 ≡ Some name) }
{
    let names = stores.names()?;
    match names.first() {
        Some(name) => name.copy(),
        None => unreachable!(),
    }
}

// Makes the writes that a survey asks for.
fn write_all<R: Registry>(
    alloc: Global,
    stores: &mut R,
    first: &Name,
    from: &Name,
    to: &Name,
    survey: &Survey,
) -> Result<u64, RetireRefused>
    requires named { index_at (R.state stores.old) first.now ≡ 0 }
    requires first { IsSome (index_in (R.state stores.old) first.now) }
    requires to { IsSome (index_in (R.state stores.old) to.now) }
    requires columns { list_all (λ e. rises e.table.columns) survey.now.entries ≡ true }
    ensures count { IfOk result (λ n. n ≡ copies_of survey.now) }
    ensures held { OnOk result (Hold (writes_of (index_at (R.state stores.old) to.now) (sides from.now to.now) survey.now) (R.state stores.old) (R.state stores.new)) }
    ensures made { OnOk result (AreMade (writes_of (index_at (R.state stores.old) to.now) (sides from.now to.now) survey.now) (R.state stores.old) (R.state stores.new).views) }
    ensures left { OnErr result (HoldFirst (writes_of (index_at (R.state stores.old) to.now) (sides from.now to.now) survey.now) (R.state stores.old) (R.state stores.new)) }
    ensures goes { GoOn (R.state stores.old) (R.state stores.new) }
    ensures err { IfErr result (IsHalted (index_at (R.state stores.old) to.now) (sides from.now to.now) survey.now (R.state stores.old) (R.state stores.new).views) }
{
    let requests = requests_of(alloc, survey.seen.as_slice())?;
    let rows = renewals(alloc, from, to, survey.entries.as_slice())?;
    run(stores, to, requests.as_slice())?;
    run(stores, first, rows.as_slice())?;
    Ok(count_puts(requests.as_slice()))
}

/// Moves everything of the catalog that is in the store `from` to the store `to`: each namespace of which a row of the catalog names
/// `from`. The number is that of the records that were copied. Once it returned, `from` may be detached.
///
/// The catalog's rows are read, and each moving table in both stores. Then each record of `to` in a moving table is deleted, and each
/// record of `from` put; then each row that names `from` is put again, with `to` and the next revision. A row that the catalog may not
/// have, and a record of `to` that can't be deleted and isn't one of `from`, are refused before the first write (`BadRow`), and later a
/// record that was put meanwhile. `from` holds what it held (`others`), also after a refusal; what was written then is a prefix of the
/// writes (`left`).
pub fn move_all<R: Registry>(
    alloc: Global,
    stores: &mut R,
    from: &Name,
    to: &Name,
) -> Result<u64, RetireRefused>
    requires some { 0 < length (R.state stores.old).views }
    requires from { IsSome (index_in (R.state stores.old) from.now) }
    requires to { IsSome (index_in (R.state stores.old) to.now) }
    ensures moved { IfOk result (λ n. AreAllMoved (sides from.now to.now) n (R.state stores.old) (R.state stores.new)) }
    ensures left { OnErr result (IsLeft (sides from.now to.now) (R.state stores.old) (R.state stores.new)) }
    ensures others { OthersArePreserved (sides from.now to.now) (R.state stores.old) (R.state stores.new) }
    ensures goes { GoOn (R.state stores.old) (R.state stores.new) }
    ensures err { IfErr result (IsUnmoved (sides from.now to.now) (R.state stores.old) (R.state stores.new)) }
{
    let first = first_store(stores)?;
    let survey = survey_of(alloc, stores, &first, from, to)?;
    write_all(alloc, stores, &first, from, to, &survey)
}
