//! The command `load`: the rows of a text of CSV, written to a table in transactions of so many rows.
ghost use Rattle.std.specs.Prelude.{◌≡◌, ◌<◌, ◌≤◌, [], length, IfOk, IfErr};
ghost use Rattle.sdb_words.specs.Commands.{IsWithin, most_rows};
ghost use Rattle.sdb_app.specs.Ends.{AreKept, draws, stream, work_of};
ghost use Rattle.sdb_app.specs.Load.{AreRowsRead, AreRowsUnread, IsLoaded, StopsLoad};

use crate::input::read_bytes;
use crate::schema::{catalog_status, text_of};
use crate::status::{InputFault, Status};
use sdb_catalog::open_catalog;
use sdb_data::{CsvRefused, Mode, read_table};
use sdb_model::Which;
use sdb_schema::Table;
use sdb_script::{MOST_SCRIPT_BYTES, last_line};
use sdb_shell::load_rows;
use sdb_stores::Registry;
use sdb_types::{Clock, Ids, Octets, Seq, Source, TableName, Values};
use std::alloc::Global;

// The rows of a table that the input has.
fn read_rows<R: Source>(
    alloc: Global,
    input: &mut R,
    table: &Table,
    mode: Mode,
) -> Result<Seq<Values>, Status>
    ensures read { IfOk result (AreRowsRead (stream R.remaining R.faults input.old) (stream R.remaining R.faults input.new) table.now mode) }
    ensures err { IfErr result (AreRowsUnread (stream R.remaining R.faults input.old) (stream R.remaining R.faults input.new) table.now mode) }
    ensures counted { R.faults input.old ≤ R.faults input.new }
{
    let bytes = match read_bytes(alloc, input) {
        Ok(bytes) => bytes,
        Err(status) => return Err(status),
    };
    if bytes.len() > MOST_SCRIPT_BYTES {
        return Err(Status::Limit(last_line(&bytes), Which::InputBytes));
    }
    match read_table(alloc, table, mode, &bytes) {
        Ok(rows) => Ok(rows),
        Err(CsvRefused::BadCsv(n, fault)) => Err(Status::BadInput(n, InputFault::Csv(fault))),
        Err(CsvRefused::NoMemory) => Err(Status::NoMemory),
    }
}

/// Opens the catalog of the first store, reads the rows of the table of a name, and loads them, so many in a transaction. Returns one
/// line for each transaction.
pub fn load<S: Registry, R: Source, C: Clock, I: Ids>(
    alloc: Global,
    stores: &mut S,
    input: &mut R,
    clock: &mut C,
    ids: &mut I,
    name: &TableName,
    mode: Mode,
    size: u32,
) -> Result<Octets, Status>
    requires some { 0 < length (S.state stores.old).views }
    requires unplaced { (S.state stores.old).places ≡ [] }
    requires size { IsWithin most_rows size }
    ensures answered { IfOk result (λ text. IsLoaded name.now mode size (work_of S.state (stream R.remaining R.faults) stores.old stores.new input.old input.new)
        (draws C.answered I.answered clock.old clock.new ids.old ids.new) text) }
    ensures err { IfErr result (StopsLoad name.now mode size (work_of S.state (stream R.remaining R.faults) stores.old stores.new input.old input.new)
        (draws C.answered I.answered clock.old clock.new ids.old ids.new)) }
    ensures kept { AreKept (S.state stores.old) (S.state stores.new) }
    ensures counted { R.faults input.old ≤ R.faults input.new }
{
    let catalog = match open_catalog(alloc, stores) {
        Ok(catalog) => catalog,
        Err(refused) => return Err(catalog_status(refused)),
    };
    let Some(table) = catalog.find(name) else {
        return Err(Status::NoTable);
    };
    let rows = match read_rows(alloc, input, table, mode) {
        Ok(rows) => rows,
        Err(status) => return Err(status),
    };
    match load_rows(
        alloc, &catalog, table, mode, &rows, size, stores, clock, ids,
    ) {
        Ok(text) => text_of(alloc, &text),
        Err(_) => Err(Status::NoMemory),
    }
}
