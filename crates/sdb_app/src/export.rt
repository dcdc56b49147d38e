//! The command `export`: the rows of a table, read in one transaction, as CSV.
ghost use Rattle.std.specs.Prelude.{◌≡◌, ◌<◌, [], length, IfOk, IfErr};
ghost use Rattle.sdb_app.specs.Ends.{AreKept, Stream, draws, work_on};
ghost use Rattle.sdb_app.specs.Export.{IsExported, StopsExport, status_of_export};

use crate::schema::catalog_status;
use crate::status::Status;
use sdb_catalog::open_catalog;
use sdb_shell::{ExportRefused, export_table};
use sdb_stores::Registry;
use sdb_types::{Clock, Ids, Octets, TableName};
use std::alloc::Global;

// How the program ends where a table was not exported.
fn export_status(refused: ExportRefused) -> Status
    ensures { result ≡ status_of_export refused }
{
    match refused {
        ExportRefused::NotCommitted(answer) => Status::NotCommitted(answer),
        ExportRefused::NoMemory => Status::NoMemory,
    }
}

/// Opens the catalog of the first store, and returns the rows of the table of a name as CSV, read in one transaction that is committed.
/// It reads nothing of the input.
pub fn export<S: Registry, C: Clock, I: Ids>(
    alloc: Global,
    stores: &mut S,
    clock: &mut C,
    ids: &mut I,
    name: &TableName,
) -> Result<Octets, Status>
    requires some { 0 < length (S.state stores.old).views }
    requires unplaced { (S.state stores.old).places ≡ [] }
    ensures answered { IfOk result (λ text. (input : Stream) → IsExported name.now (work_on (S.state stores.old) (S.state stores.new) input)
        (draws C.answered I.answered clock.old clock.new ids.old ids.new) text) }
    ensures err { IfErr result (λ s. (input : Stream) → StopsExport name.now (work_on (S.state stores.old) (S.state stores.new) input)
        (draws C.answered I.answered clock.old clock.new ids.old ids.new) s) }
    ensures kept { AreKept (S.state stores.old) (S.state stores.new) }
{
    let catalog = match open_catalog(alloc, stores) {
        Ok(catalog) => catalog,
        Err(refused) => return Err(catalog_status(refused)),
    };
    let Some(table) = catalog.find(name) else {
        return Err(Status::NoTable);
    };
    match export_table(alloc, &catalog, table, stores, clock, ids) {
        Ok(text) => Ok(text),
        Err(refused) => Err(export_status(refused)),
    }
}
