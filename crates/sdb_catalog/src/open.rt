//! Catalogs opened from their rows.
ghost use Rattle.std.specs.Prelude.{◌≡◌, ◌<◌, ◌≤◌, ◌∷◌, ℕ, List, [], length, map, filter, not, nat_lt, true, IfOk, IfErr, OnOk, OnErr, IfSome};
ghost use Rattle.std.specs.List.{list_all};
ghost use Rattle.sdb_types.specs.declared.record.Record.{Record};
ghost use Rattle.sdb_schema.specs.Catalog.{rises};
ghost use Rattle.sdb_schema.specs.Table.{is_table};
ghost use Rattle.sdb_stores.specs.Views.{names_of, route_of};
ghost use Rattle.sdb_catalog.specs.declared.entry.Entry.{Entry};
ghost use Rattle.sdb_catalog.specs.Calls.{AreRoutedBy, GoOn, IsOpened, IsRead, IsUnread, ContentsAreUnchanged};
ghost use Rattle.sdb_catalog.specs.Stored.{IsAsStored};
ghost use Rattle.sdb_catalog.specs.Known.{IsKnownBad, IsKnownCatalog};
ghost use Rattle.sdb_catalog.specs.Opened.{are_attached, is_attached, Follows, IsBadAmong, Opens, agrees as agrees_lem, fits as fits_lem, is_coordinators as is_coordinators_lem, open_count, store_in, tables_of};
ghost use Rattle.sdb_catalog.specs.Rows.{row_of};

use crate::call::scan;
use crate::entry::Entry;
use crate::read::entry_of;
use crate::refused::CatalogRefused;
use sdb_loader::{SchemaFault, catalog_with};
use sdb_schema::{Catalog, Table};
use sdb_stores::{PlaceRefused, Registry};
use sdb_types::{Duplicate, Name, NoMemory, Record, Seq};
use std::alloc::Global;

/// Whether the table is the coordinator's, which is no table of the catalog.
pub fn is_coordinators(entry: &Entry) -> bool
    ensures { result ≡ is_coordinators_lem entry.now }
{
    entry.table.name.ns.as_str() == "coordinator"
}

// Two tables of one namespace are in one store.
fn agrees(entry: &Entry, other: &Entry) -> bool
    ensures { result ≡ agrees_lem entry.now other.now }
{
    other.table.name.ns != entry.table.name.ns || other.store == entry.store
}

fn all_agree(entry: &Entry, passed: &[Entry]) -> bool
    ensures { result ≡ list_all (agrees_lem entry.now) passed.now }
{
    passed.iter().all(|other| agrees(entry, other))
}

/// How many tables the catalog has.
pub fn count_tables(entries: &[Entry]) -> usize
    ensures { result ≡ open_count entries.now }
{
    let mut count = 0;
    for entry in entries {
        if !is_coordinators(entry) {
            count += 1;
        }
    }
    count
}

fn fits(passed: &[Entry], entry: &Entry) -> bool
    ensures { result ≡ fits_lem passed.now entry.now }
{
    all_agree(entry, passed) && (is_coordinators(entry) || count_tables(passed) < 64)
}

// The entry of a row that may follow those before it.
fn next_entry(
    alloc: Global,
    names: &[Name],
    passed: &[Entry],
    row: &Record,
) -> Result<Option<Entry>, NoMemory>
    ensures some { IfOk result (λ found. IfSome found (λ e. (row_of e ≡ row.now) × Follows names.now passed.now e)) }
    ensures read { IfOk result (λ found. (e : Entry) → row_of e ≡ row.now → Follows names.now passed.now e → found ≡ Some e) }
{
    let Some(entry) = entry_of(alloc, names, row)? else {
        return Ok(None);
    };
    if fits(passed, &entry) {
        Ok(Some(entry))
    } else {
        Ok(None)
    }
}

// The entries that rows open as, or the first row that no entry may have there.
fn entries_of(alloc: Global, names: &[Name], rows: &[Record]) -> Result<Seq<Entry>, CatalogRefused>
    ensures opens { IfOk result (λ es. Opens names.now rows.now es) }
    ensures err { IfErr result (IsBadAmong names.now rows.now) }
{
    let mut entries = Seq::new(alloc);
    for row in rows {
        match next_entry(alloc, names, entries.as_slice(), row)? {
            Some(entry) => entries.push(entry)?,
            None => return Err(CatalogRefused::BadRow(row.key.copy()?)),
        }
    }
    Ok(entries)
}

/// What the rows of the catalog say, in the order of their keys.
pub fn read_entries<R: Registry>(
    alloc: Global,
    stores: &mut R,
) -> Result<Seq<Entry>, CatalogRefused>
    requires some { 0 < length (R.state stores.old).views }
    requires bare { (R.state stores.old).places ≡ [] }
    ensures read { IfOk result (IsRead (R.state stores.old) (R.state stores.new).views) }
    ensures unchanged { ContentsAreUnchanged (R.state stores.old) (R.state stores.new) }
    ensures places { (R.state stores.new).places ≡ (R.state stores.old).places }
    ensures goes { GoOn (R.state stores.old) (R.state stores.new) }
    ensures err { IfErr result (IsUnread (R.state stores.old) (R.state stores.new).views) }
{
    let rows = scan(alloc, stores)?;
    let names = stores.names()?;
    entries_of(alloc, names.as_slice(), rows.as_slice())
}

// Places a namespace on the store that keeps a table of it, where it has no place.
fn place_one<R: Registry>(stores: &mut R, entry: &Entry) -> Result<(), NoMemory>
    requires attached { is_attached (names_of (R.state stores.old).views) entry.now.store ≡ true }
    ensures ok { OnOk result (AreRoutedBy (entry.now ∷ []) (R.state stores.old) (R.state stores.new)) }
    ensures stores { (R.state stores.new).views ≡ (R.state stores.old).views }
    ensures where_known { (i : ℕ) → (R.state stores.old).known i → (R.state stores.new).known i }
{
    match stores.place(entry.table.name.ns.copy()?, &entry.store) {
        Ok(()) => Ok(()),
        Err(PlaceRefused::AlreadyPlaced) => Ok(()),
        Err(PlaceRefused::NoMemory) => Err(NoMemory),
        Err(PlaceRefused::NoStore) => unreachable!(),
    }
}

// Places each namespace on the store that keeps it.
fn place_all<R: Registry>(stores: &mut R, entries: &[Entry]) -> Result<(), NoMemory>
    requires attached { are_attached (names_of (R.state stores.old).views) entries.now ≡ true }
    requires bare { (R.state stores.old).places ≡ [] }
    ensures ok { OnOk result ((ns : List ℕ) → route_of ns (R.state stores.new).places ≡ store_in entries.now ns) }
    ensures stores { (R.state stores.new).views ≡ (R.state stores.old).views }
    ensures where_known { (i : ℕ) → (R.state stores.old).known i → (R.state stores.new).known i }
{
    for entry in entries {
        place_one(stores, entry)?;
    }
    Ok(())
}

// The tables of the catalog.
fn tables_among(alloc: Global, entries: &[Entry]) -> Result<Seq<Table>, NoMemory>
    ensures { IfOk result (λ ts. ts ≡ tables_of entries.now) }
{
    let mut tables = Seq::new(alloc);
    for entry in entries {
        if !is_coordinators(entry) {
            tables.push(entry.table.copy()?)?;
        }
    }
    Ok(tables)
}

// The catalog of these tables.
fn catalog_among(alloc: Global, entries: &[Entry]) -> Result<Catalog, NoMemory>
    requires tables { list_all is_table (tables_of entries.now) ≡ true }
    requires rise { rises (tables_of entries.now) ≡ true }
    requires few { length (tables_of entries.now) ≤ 64 }
    ensures { IfOk result (λ c. c ≡ tables_of entries.now) }
{
    match catalog_with(alloc, tables_among(alloc, entries)?) {
        Ok(catalog) => Ok(catalog),
        Err(SchemaFault::NoMemory) => Err(NoMemory),
        Err(_) => unreachable!(),
    }
}

/// The catalog that the rows of `scalardb.metadata` in the first store make, with each of its namespaces, and the coordinator's,
/// placed on the store that keeps it. No namespace is placed before, and none after a refusal.
///
/// Where the contents of the first store are known, no answer changes them (`unchanged`), the catalog is that of the rows in them
/// (`known`), and a refused row is their first bad one (`bad`). So it returns the catalog that `store_catalog` wrote, where there was no
/// row before it (`kept`).
pub fn open_catalog<R: Registry>(alloc: Global, stores: &mut R) -> Result<Catalog, CatalogRefused>
    requires some { 0 < length (R.state stores.old).views }
    requires bare { (R.state stores.old).places ≡ [] }
    ensures opened { IfOk result (λ c. IsOpened (R.state stores.old) (R.state stores.new) c) }
    ensures known { IfOk result (λ c. IsKnownCatalog (R.state stores.old) (R.state stores.new) c) }
    ensures kept { IfOk result (λ c. (R.state stores.old).known 0 → IsAsStored (R.state stores.old).views c (R.state stores.new).places) }
    ensures unchanged { ContentsAreUnchanged (R.state stores.old) (R.state stores.new) }
    ensures unplaced { OnErr result ((R.state stores.new).places ≡ []) }
    ensures goes { GoOn (R.state stores.old) (R.state stores.new) }
    ensures err { IfErr result (IsUnread (R.state stores.old) (R.state stores.new).views) }
    ensures bad { IfErr result (IsKnownBad (R.state stores.old)) }
{
    let entries = read_entries(alloc, stores)?;
    match placed(alloc, stores, entries.as_slice()) {
        Ok(catalog) => Ok(catalog),
        Err(NoMemory) => {
            stores.clear_places();
            Err(CatalogRefused::NoMemory)
        }
    }
}

// The catalog of entries, with each namespace placed.
fn placed<R: Registry>(
    alloc: Global,
    stores: &mut R,
    entries: &[Entry],
) -> Result<Catalog, NoMemory>
    requires attached { are_attached (names_of (R.state stores.old).views) entries.now ≡ true }
    requires bare { (R.state stores.old).places ≡ [] }
    requires tables { list_all is_table (tables_of entries.now) ≡ true }
    requires rise { rises (tables_of entries.now) ≡ true }
    requires few { length (tables_of entries.now) ≤ 64 }
    ensures catalog { IfOk result (λ c. c ≡ tables_of entries.now) }
    ensures placed { OnOk result ((ns : List ℕ) → route_of ns (R.state stores.new).places ≡ store_in entries.now ns) }
    ensures stores { (R.state stores.new).views ≡ (R.state stores.old).views }
    ensures where_known { (i : ℕ) → (R.state stores.old).known i → (R.state stores.new).known i }
{
    place_all(stores, entries)?;
    catalog_among(alloc, entries)
}
