//! The command `sql`: a session over the catalog of the first store.
ghost use Rattle.std.specs.Prelude.{◌≡◌, ◌<◌, ◌≤◌, [], length};
ghost use Rattle.sdb_app.specs.Ends.{AreKept, ends, stream, views};
ghost use Rattle.sdb_app.specs.Sql.{HasEndedSession, status_of_session};

use crate::schema::catalog_status;
use crate::status::{InputFault, Status};
use sdb_catalog::open_catalog;
use sdb_script::LineFault;
use sdb_shell::{SessionRefused, session};
use sdb_stores::Registry;
use sdb_types::{Clock, Ids, Sink, Source};
use std::alloc::Global;

// How the program ends where a session stopped.
fn session_status(refused: SessionRefused) -> Status
    ensures { result ≡ status_of_session refused }
{
    match refused {
        SessionRefused::ReadFault => Status::ReadFault,
        SessionRefused::WriteFault => Status::WriteFault,
        SessionRefused::BadLine(n) => Status::BadInput(n, InputFault::Line(LineFault::Text)),
        SessionRefused::Limit(n, which) => Status::Limit(n, which),
        SessionRefused::NoMemory => Status::NoMemory,
    }
}

/// Opens the catalog of the first store, takes each line of the input that isn't empty as a statement of one client, and writes its answer
/// before it reads on. A transaction that is open at the end of the input is rolled back.
pub fn sql<S: Registry, R: Source, W: Sink, C: Clock, I: Ids>(
    alloc: Global,
    stores: &mut S,
    input: &mut R,
    output: &mut W,
    clock: &mut C,
    ids: &mut I,
) -> Status
    requires some { 0 < length (S.state stores.old).views }
    requires unplaced { (S.state stores.old).places ≡ [] }
    ensures ended { HasEndedSession (ends (views S.state (stream R.remaining R.faults) (stream W.written W.faults) C.answered I.answered)
        stores.old stores.new input.old input.new output.old output.new clock.old clock.new ids.old ids.new) result }
    ensures kept { AreKept (S.state stores.old) (S.state stores.new) }
    ensures counted { R.faults input.old ≤ R.faults input.new }
    ensures counted_output { W.faults output.old ≤ W.faults output.new }
{
    let catalog = match open_catalog(alloc, stores) {
        Ok(catalog) => catalog,
        Err(refused) => return catalog_status(refused),
    };
    match session(alloc, &catalog, stores, input, output, clock, ids) {
        Ok(()) => Status::Done,
        Err(refused) => session_status(refused),
    }
}
