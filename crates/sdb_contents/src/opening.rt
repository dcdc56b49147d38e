//! Scans of whole tables, and whether the tables of a run are empty.
ghost use Rattle.std.specs.Prelude.{◌≡◌, ◌<◌, true, None, length, IfOk, IfErr, IfSome};
ghost use Rattle.sdb_types.specs.Contents.{are_rows_of};
ghost use Rattle.sdb_contents.specs.Board.{AreUsable, AreUsableFor, GoOn, HoldTheSame, KnownAreUnchanged, Refuses};
ghost use Rattle.sdb_contents.specs.Opening.{HoldNothing, IsFirstKey, first_key as first_key_lem, opening_in, records_in, run_tables as run_tables_lem, whole};

use crate::calls::call;
use crate::refused::CallRefused;
use crate::tables::run_tables;
use sdb_schema::Catalog;
use sdb_stores::Registry;
use sdb_types::{Duplicate, Key, NoMemory, Records, Reply, Request, Span, TableName};
use std::alloc::Global;

/// The records of a table, by one scan.
pub fn scan<R: Registry>(stores: &mut R, table: &TableName) -> Result<Records, CallRefused>
    requires some { 0 < length (R.state stores.old).views }
    ensures rows { IfOk result (λ rows. AreUsableFor table.now (R.state stores.old) → rows ≡ records_in (R.state stores.old) table.now) }
    ensures of { IfOk result (λ rows. are_rows_of (whole table.now) rows ≡ true) }
    ensures still { AreUsableFor table.now (R.state stores.old) → HoldTheSame (R.state stores.old) (R.state stores.new) }
    ensures known { KnownAreUnchanged (R.state stores.old) (R.state stores.new) }
    ensures goes { GoOn (R.state stores.old) (R.state stores.new) }
    ensures err { IfErr result (Refuses (R.state stores.old).views (R.state stores.new).views) }
{
    let name = table.copy()?;
    let request = Request::Scan(Span {
        table: name,
        partition: None,
    });
    match call(stores, &request) {
        Reply::Rows(rows) => Ok(rows),
        Reply::Fault => Err(CallRefused::StoreFault),
        Reply::NoMemory => Err(CallRefused::NoMemory),
        _ => unreachable!(),
    }
}

// The key of the first record.
fn first_key(rows: &Records) -> Result<Option<Key>, NoMemory>
    ensures { IfOk result (λ first. first ≡ first_key_lem rows.now) }
{
    match rows.as_slice() {
        [first, ..] => Ok(Some(first.key.copy()?)),
        [] => Ok(None),
    }
}

/// The first record of a run's tables: they are scanned one after the other, in the order of their names, up to the first that
/// holds a record.
pub fn first_record<R: Registry>(
    alloc: Global,
    stores: &mut R,
    catalog: &Catalog,
) -> Result<Option<Key>, CallRefused>
    requires some { 0 < length (R.state stores.old).views }
    ensures first { IfOk result (λ first. AreUsable catalog.now (R.state stores.old) → first ≡ first_key_lem (opening_in catalog.now (R.state stores.old))) }
    ensures found { IfOk result (λ first. IfSome first (IsFirstKey (run_tables_lem catalog.now) (R.state stores.old))) }
    ensures none { IfOk result (λ first. first ≡ None → HoldNothing (run_tables_lem catalog.now) (R.state stores.old)) }
    ensures still { AreUsable catalog.now (R.state stores.old) → HoldTheSame (R.state stores.old) (R.state stores.new) }
    ensures known { KnownAreUnchanged (R.state stores.old) (R.state stores.new) }
    ensures goes { GoOn (R.state stores.old) (R.state stores.new) }
    ensures err { IfErr result (Refuses (R.state stores.old).views (R.state stores.new).views) }
{
    let tables = run_tables(alloc, catalog)?;
    for table in tables.as_slice() {
        let rows = scan(stores, table)?;
        if let Some(key) = first_key(&rows)? {
            return Ok(Some(key));
        }
    }
    Ok(None)
}
