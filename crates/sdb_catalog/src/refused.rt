//! Why the rows of the catalog were not read or written.
use sdb_types::{Key, NoMemory};
use thiserror::Error;

/// Why the rows of the catalog were not read or written.
#[derive(Debug, Drop, Error)]
pub enum CatalogRefused {
    /// A call failed.
    #[error("store fault")]
    StoreFault,
    /// The first row, in the order of keys, that no catalog may have there.
    #[error("bad row")]
    BadRow(Key),
    #[error("out of memory")]
    NoMemory,
}

impl From<NoMemory> for CatalogRefused {
    ghost use Rattle.std.specs.Prelude.{◌≡◌};
    ghost use Rattle.sdb_catalog.specs.declared.refused.CatalogRefused.TheVariants.{NoMemory as OutOfMemory};

    ghost from_gives = { λ _ e. e ≡ OutOfMemory };

    fn from(_e: NoMemory) -> CatalogRefused {
        CatalogRefused::NoMemory
    }
}

/// Why a column was not added to a table of the catalog.
#[derive(Debug, Drop, Error)]
pub enum AlterRefused {
    /// A call failed.
    #[error("store fault")]
    StoreFault,
    /// The first row, in the order of keys, that no catalog may have there.
    #[error("bad row")]
    BadRow(Key),
    /// The catalog has no table of that name.
    #[error("no such table")]
    NoTable,
    #[error("out of memory")]
    NoMemory,
}

impl From<NoMemory> for AlterRefused {
    ghost use Rattle.std.specs.Prelude.{◌≡◌};
    ghost use Rattle.sdb_catalog.specs.declared.refused.AlterRefused.TheVariants.{NoMemory as OutOfMemory};

    ghost from_gives = { λ _ e. e ≡ OutOfMemory };

    fn from(_e: NoMemory) -> AlterRefused {
        AlterRefused::NoMemory
    }
}

impl From<CatalogRefused> for AlterRefused {
    ghost use Rattle.std.specs.Prelude.{◌≡◌};
    ghost use Rattle.sdb_catalog.specs.Altered.{cause_of};

    ghost from_gives = { λ refused e. e ≡ cause_of refused };

    fn from(refused: CatalogRefused) -> AlterRefused {
        match refused {
            CatalogRefused::StoreFault => AlterRefused::StoreFault,
            CatalogRefused::BadRow(key) => AlterRefused::BadRow(key),
            CatalogRefused::NoMemory => AlterRefused::NoMemory,
        }
    }
}
