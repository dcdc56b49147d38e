//! The closing dump: one scan of the coordinator's table, then one of each table of a catalog.
ghost use Rattle.std.specs.Prelude.{◌≡◌, ◌≢◌, ◌<◌, ◌^◌, AllPairs, Contains, length, map, IfOk, IfErr, OnOk, None};
ghost use Rattle.sdb_types.specs.declared.txid.TxId.{TxId as Id};
ghost use Rattle.sdb_record.specs.Coordinator.{coordinator_table as coordinator_table_lem};
ghost use Rattle.sdb_contents.specs.Board.{AreUsable, AreUsableFor, GoOn, HoldTheSame, KnownAreUnchanged, known_before};
ghost use Rattle.sdb_contents.specs.Opening.{table_names};
ghost use Rattle.sdb_contents.specs.Decided.{decided};
ghost use Rattle.sdb_contents.specs.Held.{AreDumps, AreDumpsUnder, AreDumpsWhereKnown, AreRecorded, AreWellFormedUnder, AreWellFormedWhereKnown, IsFirstOdd, IsIllFormed, IsIllFormedAmong, IsOddIn, dump_in, first_ill_formed_in};
ghost use Rattle.sdb_contents.specs.Refused.{RefusesOn};

use crate::decisions::{Decisions, TxIds, decisions_of};
use crate::dump_refused::ClosingRefused;
use crate::rows::dump_of;
use crate::{scan, table_at};
use sdb_model::{TableDump, TableRows};
use sdb_record::coordinator_table;
use sdb_schema::{Catalog, Table};
use sdb_stores::Registry;
use std::alloc::Global;

/// What the stores hold in the end.
#[derive(Drop)]
pub struct Closing {
    /// The transactions that are recorded.
    pub recorded: TxIds,
    /// The committed rows of each table of a catalog, in the order of the tables' names.
    pub tables: TableRows,
}

// The committed rows of a table.
fn dump<R: Registry>(
    alloc: Global,
    stores: &mut R,
    table: &Table,
    decisions: &Decisions,
) -> Result<TableDump, ClosingRefused>
    requires some { 0 < length (R.state stores.old).views }
    ensures dump { IfOk result (λ dump. AreUsableFor table.now.name (R.state stores.old) → dump ≡ dump_in (decided decisions.now) (R.state stores.old) table.now) }
    ensures named { IfOk result (λ dump. dump.name ≡ table.now.name) }
    ensures well_formed { OnOk result (AreUsableFor table.now.name (R.state stores.old) → first_ill_formed_in (decided decisions.now) (R.state stores.old) table.now ≡ None) }
    ensures still { AreUsableFor table.now.name (R.state stores.old) → HoldTheSame (R.state stores.old) (R.state stores.new) }
    ensures known { KnownAreUnchanged (R.state stores.old) (R.state stores.new) }
    ensures goes { GoOn (R.state stores.old) (R.state stores.new) }
    ensures err { IfErr result (RefusesOn (R.state stores.old) (R.state stores.new) (IsIllFormed (decided decisions.now) table.now (R.state stores.old))) }
{
    let records = scan(stores, &table.name)?;
    dump_of(alloc, table, decisions, records.as_slice())
}

// The committed rows of each table of a catalog.
fn dumps<R: Registry>(
    alloc: Global,
    stores: &mut R,
    catalog: &Catalog,
    decisions: &Decisions,
) -> Result<TableRows, ClosingRefused>
    requires some { 0 < length (R.state stores.old).views }
    ensures named { IfOk result (λ tables. map (λ d. d.name) tables ≡ table_names catalog.now) }
    ensures tables { IfOk result (AreDumpsUnder (decided decisions.now) catalog.now (R.state stores.old)) }
    ensures well_formed { OnOk result (AreWellFormedUnder (decided decisions.now) catalog.now (R.state stores.old)) }
    ensures still { AreUsable catalog.now (R.state stores.old) → HoldTheSame (R.state stores.old) (R.state stores.new) }
    ensures known { KnownAreUnchanged (R.state stores.old) (R.state stores.new) }
    ensures goes { GoOn (R.state stores.old) (R.state stores.new) }
    ensures err { IfErr result (RefusesOn (R.state stores.old) (R.state stores.new) (IsIllFormedAmong (decided decisions.now) catalog.now (R.state stores.old))) }
{
    let mut tables = TableRows::new(alloc);
    for i in 0..catalog.len() {
        let table = table_at(catalog, i);
        let rows = dump(alloc, stores, table, decisions)?;
        tables.push(rows)?;
    }
    Ok(tables)
}

/// The transactions that are recorded, each once, and the rows of the committed images of what the stores hold, table by table; or the key of
/// the first record that isn't well formed: a row of the coordinator's table, or a record that fails the checks of its metadata, or whose
/// committed image doesn't fit its table. The stores are scanned, and hold what they held.
pub fn closing_dump<R: Registry>(
    alloc: Global,
    stores: &mut R,
    catalog: &Catalog,
) -> Result<Closing, ClosingRefused>
    requires some { 0 < length (R.state stores.old).views }
    ensures tables { IfOk result (λ closing. AreUsable catalog.now (R.state stores.old) → AreDumps catalog.now (R.state stores.old) closing.tables) }
    ensures dumped { IfOk result (λ closing. AreDumpsWhereKnown catalog.now (known_before (R.state stores.old) (R.state stores.new)) closing.tables) }
    ensures well_formed { OnOk result (AreWellFormedWhereKnown catalog.now (known_before (R.state stores.old) (R.state stores.new))) }
    ensures recorded { IfOk result (λ closing. AreUsableFor coordinator_table_lem (R.state stores.old) → AreRecorded closing.recorded (R.state stores.old)) }
    ensures small { IfOk result (λ closing. (id : Id) → Contains closing.recorded id → id.0 < 2 ^ 128) }
    ensures once { IfOk result (λ closing. AllPairs (λ a b. a ≢ b) closing.recorded) }
    ensures still { AreUsable catalog.now (R.state stores.old) → HoldTheSame (R.state stores.old) (R.state stores.new) }
    ensures known { KnownAreUnchanged (R.state stores.old) (R.state stores.new) }
    ensures goes { GoOn (R.state stores.old) (R.state stores.new) }
    ensures first { IfErr result (RefusesOn (R.state stores.old) (R.state stores.new) (IsFirstOdd catalog.now (R.state stores.old))) }
    ensures err { IfErr result (RefusesOn (R.state stores.old) (R.state stores.new) (IsOddIn catalog.now (known_before (R.state stores.old) (R.state stores.new)))) }
{
    let table = coordinator_table();
    let rows = scan(stores, &table)?;
    let decisions = decisions_of(alloc, rows.as_slice())?;
    let tables = dumps(alloc, stores, catalog, &decisions)?;
    Ok(Closing {
        recorded: decisions.recorded,
        tables,
    })
}
