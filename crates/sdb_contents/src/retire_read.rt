//! The catalog's rows, where some of its namespaces move.
ghost use Rattle.std.specs.Prelude.{◌≡◌, [], true, IsSome, IfOk, IfErr, IfSome, OnOk};
ghost use Rattle.std.specs.List.{list_all};
ghost use Rattle.sdb_schema.specs.Table.{rises};
ghost use Rattle.sdb_stores.specs.Views.{index_at, index_in};
ghost use Rattle.sdb_catalog.specs.declared.entry.Entry.{Entry};
ghost use Rattle.sdb_catalog.specs.Rows.{row_of};
ghost use Rattle.sdb_contents.specs.Moving.{agrees_moving, agrees_with_moving, settled as settled_lem, FollowsMoving, OpensMoving};
ghost use Rattle.sdb_contents.specs.Read.{AreOpened, IsBadAmong, IsUnread};
ghost use Rattle.sdb_contents.specs.Writes.{GoOn, Hold};

use crate::retire_call::scan;
use crate::retire_refused::RetireRefused;
use sdb_catalog::{Entry, count_tables, entry_of, is_coordinators, metadata_table};
use sdb_stores::Registry;
use sdb_types::{Duplicate, Name, NoMemory, Record, Seq};
use std::alloc::Global;

// The store that keeps what was in a store, once all of `from` is in `to`.
fn settled<'a>(from: &Name, to: &'a Name, store: &'a Name) -> &'a Name
    ensures { result.now ≡ settled_lem from.now to.now store.now }
{
    if *store == *from { to } else { store }
}

fn agrees(from: &Name, to: &Name, entry: &Entry, other: &Entry) -> bool
    ensures { result ≡ agrees_moving from.now to.now entry.now other.now }
{
    other.table.name.ns != entry.table.name.ns
        || *settled(from, to, &other.store) == *settled(from, to, &entry.store)
}

fn all_agree(from: &Name, to: &Name, entry: &Entry, passed: &[Entry]) -> bool
    ensures { result ≡ list_all (agrees_moving from.now to.now entry.now) passed.now }
{
    passed.iter().all(|other| agrees(from, to, entry, other))
}

fn fits(from: &Name, to: &Name, passed: &[Entry], entry: &Entry) -> bool
    ensures { result ≡ agrees_with_moving from.now to.now passed.now entry.now }
{
    all_agree(from, to, entry, passed) && (is_coordinators(entry) || count_tables(passed) < 64)
}

// The entry of a row that may follow those before it.
fn next_entry(
    alloc: Global,
    names: &[Name],
    from: &Name,
    to: &Name,
    passed: &[Entry],
    row: &Record,
) -> Result<Option<Entry>, NoMemory>
    ensures some { IfOk result (λ found. IfSome found (λ e. (row_of e ≡ row.now) × FollowsMoving names.now from.now to.now passed.now e)) }
    ensures read { IfOk result (λ found. (e : Entry) → row_of e ≡ row.now → FollowsMoving names.now from.now to.now passed.now e → found ≡ Some e) }
{
    let Some(entry) = entry_of(alloc, names, row)? else {
        return Ok(None);
    };
    if fits(from, to, passed, &entry) {
        Ok(Some(entry))
    } else {
        Ok(None)
    }
}

// The entries that rows open as, or the first row that no entry may have there.
fn entries_of(
    alloc: Global,
    names: &[Name],
    from: &Name,
    to: &Name,
    rows: &[Record],
) -> Result<Seq<Entry>, RetireRefused>
    ensures opens { IfOk result (λ es. OpensMoving names.now from.now to.now rows.now es) }
    ensures err { IfErr result (IsBadAmong names.now from.now to.now rows.now) }
{
    let mut entries = Seq::new(alloc);
    for row in rows {
        match next_entry(alloc, names, from, to, entries.as_slice(), row)? {
            Some(entry) => entries.push(entry)?,
            None => return Err(RetireRefused::BadRow(row.key.copy()?)),
        }
    }
    Ok(entries)
}

/// What the rows of the catalog in the store `first` say, in the order of their keys.
pub fn read_moving<R: Registry>(
    alloc: Global,
    stores: &mut R,
    first: &Name,
    from: &Name,
    to: &Name,
) -> Result<Seq<Entry>, RetireRefused>
    requires attached { IsSome (index_in (R.state stores.old) first.now) }
    ensures opened { IfOk result (AreOpened from.now to.now (index_at (R.state stores.old) first.now) (R.state stores.old)) }
    ensures held { Hold [] (R.state stores.old) (R.state stores.new) }
    ensures goes { GoOn (R.state stores.old) (R.state stores.new) }
    ensures err { IfErr result (IsUnread from.now to.now (index_at (R.state stores.old) first.now) (R.state stores.old) (R.state stores.new).views) }
{
    let table = metadata_table(alloc)?;
    let rows = scan(stores, first, &table)?;
    let names = stores.names()?;
    entries_of(alloc, names.as_slice(), from, to, rows.as_slice())
}
