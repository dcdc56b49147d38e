//! The catalog that a script's schema describes.
ghost use Rattle.std.specs.Prelude.{◌≡◌, IfOk, IfErr};
ghost use Rattle.sdb_loader.specs.Described.{catalog_in as catalog_in_lem};
ghost use Rattle.sdb_script.specs.Refused.{refused_for, Described};

use crate::fault::{LineFault, LineRefused};
use sdb_loader::{SchemaFault, catalog_of};
use sdb_schema::Catalog;
use std::alloc::Global;

impl From<SchemaFault> for LineRefused {
    ghost from_gives = { λ fault refused. refused ≡ refused_for fault };

    fn from(fault: SchemaFault) -> LineRefused {
        match fault {
            SchemaFault::NoMemory => LineRefused::NoMemory,
            other => LineRefused::Bad(LineFault::Schema(other)),
        }
    }
}

/// The catalog that the JSON of a schema describes.
pub fn catalog_in(alloc: Global, json: &[u8]) -> Result<Catalog, LineRefused>
    ensures ok { IfOk result (λ catalog. catalog_in_lem json.now ≡ Ok catalog) }
    ensures bad { IfErr result (Described (catalog_in_lem json.now)) }
{
    Ok(catalog_of(alloc, json)?)
}
