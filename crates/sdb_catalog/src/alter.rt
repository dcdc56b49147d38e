//! A column added to a table of the catalog.
ghost use Rattle.std.specs.Prelude.{◌≡◌, ◌<◌, [], length, true, nat_le, None, IfOk, IfErr, OnOk, string_bytes};
ghost use Rattle.std.specs.Option.{option_copied};
ghost use Rattle.sdb_schema.specs.Added.{column_refused_by, number_of};
ghost use Rattle.sdb_schema.specs.Table.{is_table, rises};
ghost use Rattle.sdb_catalog.specs.Altered.{CameOf, IsAltered, IsKnownAltered, IsKnownUnaltered, IsUnaltered, MayAlter, WasPut, about_of, alteration_text as alteration_text_lem, altered as altered_lem, entry_named as entry_named_lem, put_over, word_of_alteration};
ghost use Rattle.sdb_catalog.specs.Calls.{GoOn, IsStopped, MayChange};

use crate::alteration::Alteration;
use crate::call::call;
use crate::entry::{Entry, next_revision};
use crate::open::{is_coordinators, read_entries};
use crate::refused::{AlterRefused, CatalogRefused};
use crate::rows::{row_of, table_text};
use sdb_schema::{Column, ColumnRefused};
use sdb_stores::Registry;
use sdb_types::{Condition, Duplicate, NoMemory, Reply, Request, State, TableName, Txt};
use std::alloc::Global;

// The entry of the table of that name.
fn entry_named<'a>(entries: &'a [Entry], name: &TableName) -> Option<&'a Entry>
    ensures { option_copied result ≡ entry_named_lem entries.now name.now }
{
    entries.iter().find(|entry| !is_coordinators(entry) && entry.table.name.cmp(name).is_eq())
}

// What the row of a table says once the table has a column more.
fn altered(entry: &Entry, column: &Column) -> Result<Entry, ColumnRefused>
    requires short { nat_le (length column.now.name) 64 ≡ true }
    ensures ok { IfOk result (λ e. e ≡ altered_lem column.now entry.now) }
    ensures allowed { OnOk result (column_refused_by entry.now.table column.now ≡ None) }
    ensures table { IfOk result (λ e. is_table entry.now.table ≡ true → is_table e.table ≡ true) }
    ensures refused { IfErr result (λ e. number_of e ≡ column_refused_by entry.now.table column.now) }
{
    Ok(Entry {
        table: entry.table.with_column(column)?,
        store: entry.store.copy()?,
        revision: next_revision(entry.revision),
    })
}

// Puts the altered row of an entry, on condition of its old revision.
fn put<R: Registry>(
    alloc: Global,
    stores: &mut R,
    entry: &Entry,
    renewed: &Entry,
) -> Result<Alteration, CatalogRefused>
    requires some { 0 < length (R.state stores.old).views }
    requires bare { (R.state stores.old).places ≡ [] }
    requires columns { rises renewed.now.table.columns ≡ true }
    ensures put { IfOk result (λ o. WasPut (put_over renewed.now entry.now) o (R.state stores.old) (R.state stores.new).views) }
    ensures left { MayChange (put_over renewed.now entry.now) (R.state stores.old) (R.state stores.new) }
    ensures places { (R.state stores.new).places ≡ (R.state stores.old).places }
    ensures goes { GoOn (R.state stores.old) (R.state stores.new) }
    ensures err { IfErr result (IsStopped (R.state stores.old).views (R.state stores.new).views) }
{
    let version = Condition::Version(entry.revision, State::Committed);
    let request = Request::PutIf(row_of(alloc, renewed)?, version);
    match call(stores, &request)? {
        Reply::Applied => Ok(Alteration::Altered),
        Reply::NotMet(_) => Ok(Alteration::Differs),
        _ => unreachable!(),
    }
}

// Adds a column to the table of an entry.
fn alter<R: Registry>(
    alloc: Global,
    stores: &mut R,
    entry: &Entry,
    column: &Column,
) -> Result<Alteration, CatalogRefused>
    requires some { 0 < length (R.state stores.old).views }
    requires bare { (R.state stores.old).places ≡ [] }
    requires short { nat_le (length column.now.name) 64 ≡ true }
    requires table { is_table entry.now.table ≡ true }
    ensures came { IfOk result (λ o. CameOf column.now entry.now o (R.state stores.old) (R.state stores.new).views) }
    ensures left { IfErr result (λ e. MayAlter column.now entry.now (R.state stores.old) (R.state stores.new)) }
    ensures places { (R.state stores.new).places ≡ (R.state stores.old).places }
    ensures goes { GoOn (R.state stores.old) (R.state stores.new) }
    ensures err { IfErr result (IsStopped (R.state stores.old).views (R.state stores.new).views) }
{
    match altered(entry, column) {
        Ok(renewed) => put(alloc, stores, entry, &renewed),
        Err(refused) => match refused.number() {
            Some(number) => Ok(Alteration::Refused(number)),
            None => Err(CatalogRefused::NoMemory),
        },
    }
}

fn word_of(outcome: Alteration) -> &'static str
    ensures { result.now ≡ word_of_alteration outcome }
{
    match outcome {
        Alteration::Altered => "altered ",
        Alteration::Refused(_) => "refused ",
        Alteration::Differs => "differs ",
    }
}

// The table or the number.
fn about(alloc: Global, outcome: Alteration, table: &TableName) -> Result<String, NoMemory>
    ensures { IfOk result (λ text. string_bytes text ≡ about_of table.now outcome) }
{
    match outcome {
        Alteration::Refused(number) => Ok(number.to_string(alloc)?),
        _ => table_text(alloc, table),
    }
}

// The line of the answer.
fn alteration_text(alloc: Global, outcome: Alteration, table: &TableName) -> Result<Txt, NoMemory>
    ensures { IfOk result (λ text. text ≡ alteration_text_lem table.now outcome) }
{
    let mut text = String::from_str(alloc, word_of(outcome))?;
    text.push_str(about(alloc, outcome, table)?.as_str())?;
    text.push_str("\n")?;
    Txt::new(alloc, text.as_str())
}

/// Adds a column to a table of the catalog: its row is put with the new definition and the next revision, on condition of the revision that
/// was read. The column's name has at most 64 bytes. The answer is one line: `altered NS.T`; `refused K` where `Catalog::add_column`
/// refuses the column for the cause of this number, and no call is made; and `differs NS.T` where another row is there by then, and stays.
///
/// The catalog that is there is read first. No namespace is placed before or after.
///
/// Where the contents of the first store are known, the answer is that of its records, and never `differs`; what `open_catalog` returns
/// then is the catalog of before with the column, and no other record has changed (`known`). A refusal leaves what the store held, but a
/// call that failed may have put the row, as had one whose line found no memory (`left`).
pub fn alter_table<R: Registry>(
    alloc: Global,
    stores: &mut R,
    table: &TableName,
    column: &Column,
) -> Result<Txt, AlterRefused>
    requires some { 0 < length (R.state stores.old).views }
    requires bare { (R.state stores.old).places ≡ [] }
    requires short { nat_le (length column.now.name) 64 ≡ true }
    ensures altered { IfOk result (λ text. IsAltered table.now column.now text (R.state stores.old) (R.state stores.new).views) }
    ensures known { IfOk result (λ text. IsKnownAltered table.now column.now (R.state stores.old) (R.state stores.new) text) }
    ensures left { IfErr result (IsKnownUnaltered table.now column.now (R.state stores.old) (R.state stores.new)) }
    ensures places { (R.state stores.new).places ≡ (R.state stores.old).places }
    ensures goes { GoOn (R.state stores.old) (R.state stores.new) }
    ensures err { IfErr result (IsUnaltered table.now (R.state stores.old) (R.state stores.new).views) }
{
    let _name = column.name.as_str();
    let entries = read_entries(alloc, stores)?;
    let Some(entry) = entry_named(entries.as_slice(), table) else {
        return Err(AlterRefused::NoTable);
    };
    let outcome = alter(alloc, stores, entry, column)?;
    Ok(alteration_text(alloc, outcome, table)?)
}
