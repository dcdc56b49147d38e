//! Catalogs written as rows.
ghost use Rattle.std.specs.Prelude.{◌≡◌, ◌≢◌, ◌<◌, ◌↔◌, ◌++◌, ◌∷◌, [], ℕ, List, length, map, take, take_while, nat_lt, true, Some, IfOk, IfErr, IfSome, OnOk, OnErr, IsTrue, slice_get, string_bytes};
ghost use Rattle.std.specs.List.{list_all};
ghost use Rattle.std.specs.Option.{option_copied};
ghost use Rattle.std.specs.Ordering.{is_lt};
ghost use Rattle.sdb_types.specs.Order.{table_cmp};
ghost use Rattle.sdb_schema.specs.Catalog.{is_catalog};
ghost use Rattle.sdb_schema.specs.Table.{rises};
ghost use Rattle.sdb_schema.specs.declared.table.Table.{Table};
ghost use Rattle.sdb_loader.specs.Described.{catalog_in};
ghost use Rattle.sdb_stores.specs.Views.{names_of, route_of};
ghost use Rattle.sdb_catalog.specs.declared.entry.Entry.{Entry};
ghost use Rattle.sdb_catalog.specs.Calls.{GoOn, IsStopped, IsUnread, MayChange};
ghost use Rattle.sdb_catalog.specs.Stored.{IsNowStored};
ghost use Rattle.sdb_catalog.specs.Known.{IsKnownLeft, IsKnownStored, MayWrite, MayWriteFirst};
ghost use Rattle.sdb_catalog.specs.Opened.{store_in as store_in_lem};
ghost use Rattle.sdb_catalog.specs.Rows.{definition_column, text_at as text_at_lem};
ghost use Rattle.sdb_catalog.specs.Written.{HasWritten, IsPut, IsStored, IsWritten, entry_for as entry_for_lem, grown, has_entry as has_entry_lem, is_full as is_full_lem, line_text, put_of, store_for as store_for_lem, word_of_outcome as word_of_outcome_lem, written_tables as written_tables_lem, HasDefinition};

use crate::call::call;
use crate::definition::definition_text;
use crate::entry::Entry;
use crate::open::{count_tables, is_coordinators, read_entries};
use crate::outcome::Outcome;
use crate::read::text_at;
use crate::refused::CatalogRefused;
use crate::rows::{coordinators, row_of, table_text};
use sdb_schema::{Catalog, Table};
use sdb_stores::Registry;
use sdb_types::{
    Condition, Duplicate, Name, NoMemory, Place, Record, Reply, Request, Seq, TableName, TxId, Txt,
    same,
};
use std::alloc::Global;

// The store that keeps a namespace.
fn store_in<'a>(entries: &'a [Entry], ns: &Name) -> Option<&'a Name>
    ensures { option_copied result ≡ store_in_lem entries.now ns.now }
{
    entries
        .iter()
        .find(|entry| entry.table.name.ns == *ns)
        .map(|entry| &entry.store)
}

// The store that a namespace is to be placed on.
fn store_at<'a>(places: &'a [Place], ns: &Name) -> Option<&'a Name>
    ensures { option_copied result ≡ route_of ns.now places.now }
{
    places
        .iter()
        .find(|place| place.ns == *ns)
        .map(|place| &place.store)
}

fn store_for<'a>(known: &'a [Entry], places: &'a [Place], first: &'a Name, ns: &Name) -> &'a Name
    ensures { result.now ≡ store_for_lem known.now places.now first.now ns.now }
{
    match store_in(known, ns) {
        Some(store) => store,
        None => store_at(places, ns).unwrap_or(first),
    }
}

// What the new row of a table says.
fn entry_for(
    known: &[Entry],
    places: &[Place],
    first: &Name,
    table: &Table,
) -> Result<Entry, NoMemory>
    ensures { IfOk result (λ e. e ≡ entry_for_lem known.now places.now first.now table.now) }
{
    Ok(Entry {
        table: table.copy()?,
        store: store_for(known, places, first, &table.name.ns).copy()?,
        revision: TxId(1),
    })
}

fn has_entry(known: &[Entry], name: &TableName) -> bool
    ensures { result ≡ has_entry_lem known.now name.now }
{
    known.iter().any(|entry| entry.table.name.cmp(name).is_eq())
}

fn is_full(known: &[Entry], entry: &Entry) -> bool
    ensures { result ≡ is_full_lem known.now entry.now }
{
    !has_entry(known, &entry.table.name) && !is_coordinators(entry) && !(count_tables(known) < 64)
}

// Whether a row has a definition.
fn has_definition(found: &Record, definition: &Txt) -> bool
    ensures { IsTrue result ↔ (text_at_lem definition_column found.now ≡ Some definition.now) }
{
    match text_at(found, "definition") {
        Some(text) => same(text, definition),
        None => false,
    }
}

// Puts the row of an entry where there is none.
fn put<R: Registry>(alloc: Global, stores: &mut R, entry: &Entry) -> Result<Outcome, CatalogRefused>
    requires some { 0 < length (R.state stores.old).views }
    requires bare { (R.state stores.old).places ≡ [] }
    requires columns { rises entry.now.table.columns ≡ true }
    ensures put { IfOk result (λ o. IsPut entry.now o (R.state stores.old) (R.state stores.new).views) }
    ensures left { MayChange (put_of entry.now) (R.state stores.old) (R.state stores.new) }
    ensures places { (R.state stores.new).places ≡ (R.state stores.old).places }
    ensures goes { GoOn (R.state stores.old) (R.state stores.new) }
    ensures err { IfErr result (IsStopped (R.state stores.old).views (R.state stores.new).views) }
{
    let definition = definition_text(alloc, &entry.table)?;
    let request = Request::PutIf(row_of(alloc, entry)?, Condition::Absent);
    match call(stores, &request)? {
        Reply::Applied => Ok(Outcome::Created),
        Reply::NotMet(Some(found)) => {
            if has_definition(&found, &definition) {
                Ok(Outcome::Exists)
            } else {
                Ok(Outcome::Differs)
            }
        }
        _ => unreachable!(),
    }
}

// Writes a table, and adds it to the list where its row was created.
fn write_table<R: Registry>(
    alloc: Global,
    stores: &mut R,
    known: &mut Seq<Entry>,
    entry: Entry,
) -> Result<Outcome, CatalogRefused>
    requires some { 0 < length (R.state stores.old).views }
    requires bare { (R.state stores.old).places ≡ [] }
    requires columns { rises entry.table.columns ≡ true }
    ensures written { IfOk result (λ o. IsWritten known.old entry o (R.state stores.old) (R.state stores.new).views) }
    ensures known { IfOk result (λ o. known.new ≡ grown known.old entry o) }
    ensures left { OnErr result (MayWrite known.old entry (R.state stores.old) (R.state stores.new)) }
    ensures places { (R.state stores.new).places ≡ (R.state stores.old).places }
    ensures goes { GoOn (R.state stores.old) (R.state stores.new) }
    ensures err { IfErr result (IsStopped (R.state stores.old).views (R.state stores.new).views) }
{
    if is_full(known.as_slice(), &entry) {
        return Ok(Outcome::Full);
    }
    let outcome = put(alloc, stores, &entry)?;
    if let Outcome::Created = outcome {
        known.push(entry)?;
    }
    Ok(outcome)
}

fn word_of(outcome: Outcome) -> &'static str
    ensures { result.now ≡ word_of_outcome_lem outcome }
{
    match outcome {
        Outcome::Created => "created ",
        Outcome::Exists => "exists ",
        Outcome::Differs => "differs ",
        Outcome::Full => "full ",
    }
}

// Adds the line of a table.
fn put_line(
    alloc: Global,
    text: &mut String,
    table: &Table,
    outcome: Outcome,
) -> Result<(), NoMemory>
    ensures { OnOk result (string_bytes text.new ≡ string_bytes text.old ++ line_text (record { table = table.now; outcome = outcome })) }
{
    text.push_str(word_of(outcome))?;
    let name = table_text(alloc, &table.name)?;
    text.push_str(name.as_str())?;
    text.push_str("\n")?;
    Ok(())
}

// Writes tables one after the other, with a line for each.
fn write_all<R: Registry>(
    alloc: Global,
    stores: &mut R,
    known: &mut Seq<Entry>,
    places: &[Place],
    first: &Name,
    tables: &[Table],
) -> Result<String, CatalogRefused>
    requires some { 0 < length (R.state stores.old).views }
    requires bare { (R.state stores.old).places ≡ [] }
    requires columns { list_all (λ t. rises t.columns) tables.now ≡ true }
    ensures left { MayWriteFirst places.now first.now known.old tables.now (R.state stores.old) (R.state stores.new) }
    ensures written { IfOk result (λ text. HasWritten places.now first.now known.old tables.now (string_bytes text) (R.state stores.old) (R.state stores.new).views) }
    ensures places { (R.state stores.new).places ≡ (R.state stores.old).places }
    ensures goes { GoOn (R.state stores.old) (R.state stores.new) }
    ensures err { IfErr result (IsStopped (R.state stores.old).views (R.state stores.new).views) }
{
    let mut text = String::new(alloc);
    for table in tables {
        let entry = entry_for(known.as_slice(), places, first, table)?;
        let outcome = write_table(alloc, stores, known, entry)?;
        put_line(alloc, &mut text, table, outcome)?;
    }
    Ok(text)
}

// The i-th table of a catalog.
fn table_at(catalog: &Catalog, i: usize) -> &Table
    requires { i < length catalog.now }
    ensures { slice_get catalog.now i ≡ Some result.now }
{
    match catalog.at(i) {
        Some(table) => table,
        None => unreachable!(),
    }
}

fn tables_of(alloc: Global, catalog: &Catalog) -> Result<Seq<Table>, NoMemory>
    ensures tables { IfOk result (λ ts. ts ≡ catalog.now) }
    ensures catalog { OnOk result (is_catalog catalog.now ≡ true) }
{
    let mut tables = Seq::new(alloc);
    for i in 0..catalog.len() {
        tables.push(table_at(catalog, i).copy()?)?;
    }
    Ok(tables)
}

// How many tables are below another.
fn count_below(tables: &[Table], other: &Table) -> usize
    ensures { result ≡ length (take_while (λ t. is_lt (table_cmp t.name other.now.name)) tables.now) }
{
    tables
        .iter()
        .take_while(|table| table.name.cmp(&other.name).is_lt())
        .count()
}

// The tables that are given a row.
fn written_tables(alloc: Global, catalog: &Catalog) -> Result<Seq<Table>, NoMemory>
    ensures tables { IfOk result (λ ts. ts ≡ written_tables_lem catalog.now) }
    ensures columns { IfOk result (λ ts. list_all (λ t. rises t.columns) ts ≡ true) }
    ensures catalog { OnOk result (is_catalog catalog.now ≡ true) }
{
    let mut tables = tables_of(alloc, catalog)?;
    let own = coordinators(alloc)?;
    let place = count_below(tables.as_slice(), &own);
    tables.insert(place, own)?;
    Ok(tables)
}

// The name of the first store.
fn first_store<R: Registry>(stores: &R) -> Result<Name, NoMemory>
    requires { 0 < length (R.state stores.now).views }
    ensures { IfOk result (λ name. slice_get (names_of (R.state stores.now).views) 0 ≡ Some name) }
{
    let names = stores.names()?;
    match names.first() {
        Some(name) => name.copy(),
        None => unreachable!(),
    }
}

/// Writes the rows of a catalog's tables, and that of the coordinator's table, in the order of their names, each where there is
/// none. The answer has a line for each: `created NS.T`, `exists NS.T` where the row that is there has the same definition,
/// `differs NS.T` where it has another, and `full NS.T` where the catalog has 64 tables and lacks this one, so that nothing was put.
///
/// The catalog that is there is read first. A namespace that it has keeps its store; another is kept in the store of its place
/// among `places`, else in the first. No namespace is placed before or after.
///
/// Where the contents of the first store are known, the lines are those of its records, and it then holds what it held and the row of
/// each table that was created (`known`). A refusal leaves what it held and the rows that the first tables of this catalog create, as
/// many as were written by then (`left`). A bad row is refused before a row is put. Where the store had no row of a catalog before, it
/// then holds the rows of this one, and `open_catalog` returns this catalog (`kept`).
pub fn store_catalog<R: Registry>(
    alloc: Global,
    stores: &mut R,
    catalog: &Catalog,
    places: &[Place],
) -> Result<Txt, CatalogRefused>
    requires some { 0 < length (R.state stores.old).views }
    requires bare { (R.state stores.old).places ≡ [] }
    ensures stored { IfOk result (λ text. IsStored places.now catalog.now text (R.state stores.old) (R.state stores.new).views) }
    ensures known { IfOk result (λ text. IsKnownStored (R.state stores.old) (R.state stores.new) places.now catalog.now text) }
    ensures kept { OnOk result (IsNowStored (R.state stores.old) (R.state stores.new) places.now catalog.now) }
    ensures left { IfErr result (IsKnownLeft (R.state stores.old) (R.state stores.new) places.now catalog.now) }
    ensures places { (R.state stores.new).places ≡ (R.state stores.old).places }
    ensures goes { GoOn (R.state stores.old) (R.state stores.new) }
    ensures err { IfErr result (IsUnread (R.state stores.old) (R.state stores.new).views) }
{
    let tables = written_tables(alloc, catalog)?;
    let first = first_store(stores)?;
    let mut known = read_entries(alloc, stores)?;
    let text = write_all(alloc, stores, &mut known, places, &first, tables.as_slice())?;
    Ok(Txt::new(alloc, text.as_str())?)
}
