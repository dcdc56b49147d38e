//! The command `alter`: a column is added to a table of the catalog.
ghost use Rattle.std.specs.Prelude.{◌≡◌, ◌<◌, [], length, nat_le, true, IfOk, IfErr};
ghost use Rattle.sdb_app.specs.Alter.{IsColumnAnswered, StopsAlter, status_of_alter};
ghost use Rattle.sdb_app.specs.Ends.{AreKept, Stream, work_on};

use crate::schema::text_of;
use crate::status::Status;
use sdb_catalog::{AlterRefused, alter_table};
use sdb_schema::{Column, Kind};
use sdb_stores::Registry;
use sdb_types::{Duplicate, Name, NoMemory, Octets, TableName};
use std::alloc::Global;

// How the program ends where there is no answer.
fn alter_status(refused: AlterRefused) -> Status
    ensures { result ≡ status_of_alter refused }
{
    match refused {
        AlterRefused::StoreFault => Status::StoreFault,
        AlterRefused::BadRow(key) => Status::BadStore(key),
        AlterRefused::NoTable => Status::NoTable,
        AlterRefused::NoMemory => Status::NoMemory,
    }
}

fn column_of(name: &Name, kind: Kind) -> Result<Column, NoMemory>
    ensures { IfOk result (λ c. c ≡ record { name = name.now; kind = kind }) }
{
    Ok(Column {
        name: name.copy()?,
        kind,
    })
}

/// Adds a column of this name and kind to the table of a name in the catalog of the first store. The name has at most 64 bytes. Returns one
/// line. It reads nothing of the input.
pub fn alter<S: Registry>(
    alloc: Global,
    stores: &mut S,
    table: &TableName,
    name: &Name,
    kind: Kind,
) -> Result<Octets, Status>
    requires some { 0 < length (S.state stores.old).views }
    requires unplaced { (S.state stores.old).places ≡ [] }
    requires short { nat_le (length name.now) 64 ≡ true }
    ensures answered { IfOk result (λ text. (input : Stream) → IsColumnAnswered table.now (record { name = name.now; kind = kind }) (work_on (S.state stores.old) (S.state stores.new) input) text) }
    ensures err { IfErr result (λ s. (input : Stream) → StopsAlter table.now (record { name = name.now; kind = kind }) (work_on (S.state stores.old) (S.state stores.new) input) s) }
    ensures kept { AreKept (S.state stores.old) (S.state stores.new) }
{
    let Ok(column) = column_of(name, kind) else {
        return Err(Status::NoMemory);
    };
    match alter_table(alloc, stores, table, &column) {
        Ok(answer) => text_of(alloc, &answer),
        Err(refused) => Err(alter_status(refused)),
    }
}
