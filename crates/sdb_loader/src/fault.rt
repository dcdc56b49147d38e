//! Why a text describes no catalog.
ghost use Rattle.std.specs.Prelude.{◌≡◌};
ghost use Rattle.sdb_loader.specs.declared.fault.SchemaFault.TheVariants.{NoMemory as OutOfMemory};

use sdb_schema::TableRefused;
use sdb_types::{Name, NoMemory, TableName, Txt};
use thiserror::Error;

/// Why a text describes no catalog. The first that holds comes, in this order, of the first table in name order that has it.
#[derive(Debug, Drop, Error)]
pub enum SchemaFault {
    /// The text isn't UTF-8, is no JSON, or nests deeper than 127 levels.
    #[error("not JSON")]
    NotJson,
    #[error("not an object")]
    NotAnObject,
    /// A member whose name isn't `ns.table`, or whose namespace is `coordinator` or `scalardb`.
    #[error("bad table name")]
    BadTableName(Txt),
    /// A table whose `transaction` is false.
    #[error("not transactional")]
    NonTransactional(TableName),
    /// A member of a table that isn't of its form, or that is missing; the first in name order.
    #[error("bad field")]
    BadField(TableName, Txt),
    /// The first column in name order whose kind isn't known.
    #[error("unknown type")]
    UnknownType(TableName, Name),
    #[error("bad table")]
    BadTable(TableName, TableRefused),
    /// More than 64 tables.
    #[error("too many tables")]
    TooManyTables,
    #[error("out of memory")]
    NoMemory,
}

impl From<NoMemory> for SchemaFault {
    ghost from_gives = { λ _ e. e ≡ OutOfMemory };

    fn from(_e: NoMemory) -> SchemaFault {
        SchemaFault::NoMemory
    }
}
