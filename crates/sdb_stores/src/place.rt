//! The table of a request, and why a namespace was not placed.
ghost use Rattle.std.specs.Prelude.{◌≡◌};
ghost use Rattle.sdb_types.specs.Contents.{IsWellFormed};
ghost use Rattle.sdb_stores.specs.Views.{table_of as table_of_lem};
ghost use Rattle.sdb_stores.specs.declared.place.PlaceRefused.TheVariants.{NoMemory as OutOfMemory};

use sdb_types::{NoMemory, Request, TableName};
use thiserror::Error;

#[derive(Clone, Copy, Debug, PartialEq, Eq, Error)]
pub enum PlaceRefused {
    #[error("no store has this name")]
    NoStore,
    #[error("the namespace has a place")]
    AlreadyPlaced,
    #[error("out of memory")]
    NoMemory,
}

impl From<NoMemory> for PlaceRefused {
    ghost from_gives = { λ _ e. e ≡ OutOfMemory };

    fn from(_e: NoMemory) -> PlaceRefused {
        PlaceRefused::NoMemory
    }
}

/// The table that a request is about.
pub fn table_of(request: &Request) -> &TableName
    requires { IsWellFormed request.now }
    ensures { result.now ≡ table_of_lem request.now }
{
    match request {
        Request::Get(key) => &key.table,
        Request::Scan(span) => &span.table,
        Request::PutIf(rec, _) => &rec.key.table,
        Request::DeleteIf(key, _) => &key.table,
        Request::PutAll(batch) => &batch.as_slice()[0].rec.key.table,
    }
}
