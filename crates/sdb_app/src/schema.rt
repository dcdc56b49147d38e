//! The command `schema`: a schema that is read, and its catalog written to the first store.
ghost use Rattle.std.specs.Prelude.{◌≡◌, ◌<◌, ◌≤◌, [], length, IfOk, IfErr};
ghost use Rattle.sdb_app.specs.Ends.{AreKept, stream, work_of};
ghost use Rattle.sdb_app.specs.Schema.{IsSchemaKept, IsSchemaRead, IsSchemaUnread, StopsSchema, status_of_catalog};

use crate::input::read_bytes;
use crate::status::{InputFault, Status};
use sdb_catalog::{CatalogRefused, store_catalog};
use sdb_loader::{SchemaFault, catalog_of};
use sdb_model::Which;
use sdb_schema::Catalog;
use sdb_script::{MOST_SCRIPT_BYTES, last_line};
use sdb_stores::Registry;
use sdb_types::{Octets, Place, Source, Txt};
use std::alloc::Global;

// The catalog that the input describes.
fn read_schema<R: Source>(alloc: Global, input: &mut R) -> Result<Catalog, Status>
    ensures read { IfOk result (IsSchemaRead (stream R.remaining R.faults input.old) (stream R.remaining R.faults input.new)) }
    ensures err { IfErr result (IsSchemaUnread (stream R.remaining R.faults input.old) (stream R.remaining R.faults input.new)) }
    ensures counted { R.faults input.old ≤ R.faults input.new }
{
    let bytes = match read_bytes(alloc, input) {
        Ok(bytes) => bytes,
        Err(status) => return Err(status),
    };
    if bytes.len() > MOST_SCRIPT_BYTES {
        return Err(Status::Limit(last_line(&bytes), Which::InputBytes));
    }
    match catalog_of(alloc, &bytes) {
        Ok(catalog) => Ok(catalog),
        Err(SchemaFault::NoMemory) => Err(Status::NoMemory),
        Err(fault) => Err(Status::BadInput(1, InputFault::Json(fault))),
    }
}

/// How the program ends where a catalog was not written or opened.
pub fn catalog_status(refused: CatalogRefused) -> Status
    ensures { result ≡ status_of_catalog refused }
{
    match refused {
        CatalogRefused::StoreFault => Status::StoreFault,
        CatalogRefused::BadRow(key) => Status::BadStore(key),
        CatalogRefused::NoMemory => Status::NoMemory,
    }
}

/// The bytes of an answer.
pub fn text_of(alloc: Global, answer: &Txt) -> Result<Octets, Status>
    ensures ok { IfOk result (λ text. text ≡ answer.now) }
    ensures err { IfErr result (λ s. s ≡ Status.NoMemory) }
{
    match Octets::from_slice(alloc, answer.as_str().as_bytes()) {
        Ok(text) => Ok(text),
        Err(_) => Err(Status::NoMemory),
    }
}

/// Reads a schema, and writes the rows of its catalog to the first store, where its namespaces are placed so. Returns one line for each
/// table.
pub fn schema<S: Registry, R: Source>(
    alloc: Global,
    stores: &mut S,
    input: &mut R,
    places: &[Place],
) -> Result<Octets, Status>
    requires some { 0 < length (S.state stores.old).views }
    requires unplaced { (S.state stores.old).places ≡ [] }
    ensures answered { IfOk result (λ text. IsSchemaKept places.now (work_of S.state (stream R.remaining R.faults) stores.old stores.new input.old input.new) text) }
    ensures err { IfErr result (StopsSchema places.now (work_of S.state (stream R.remaining R.faults) stores.old stores.new input.old input.new)) }
    ensures kept { AreKept (S.state stores.old) (S.state stores.new) }
    ensures counted { R.faults input.old ≤ R.faults input.new }
{
    let catalog = match read_schema(alloc, input) {
        Ok(catalog) => catalog,
        Err(status) => return Err(status),
    };
    match store_catalog(alloc, stores, &catalog, places) {
        Ok(answer) => text_of(alloc, &answer),
        Err(refused) => Err(catalog_status(refused)),
    }
}
