//! What a row of the catalog says.
ghost use Rattle.std.specs.Prelude.{◌≡◌};
ghost use Rattle.sdb_catalog.specs.Altered.{next_revision as next_revision_lem};

use sdb_schema::Table;
use sdb_types::{Name, TxId};

/// What a row of the catalog says: a table, the store that keeps it, and the row's revision.
#[derive(Debug, PartialEq, Eq)]
pub struct Entry {
    pub table: Table,
    pub store: Name,
    pub revision: TxId,
}

// By hand: each drop is then one call, where a derived one is written out at each exit, with a call for each field.
impl Drop for Entry {
    fn drop(self) {
        let Entry {
            table: _,
            store: _,
            revision: _,
        } = self;
    }
}

/// The revision after another: 1 after the greatest.
pub fn next_revision(id: TxId) -> TxId
    ensures { result ≡ next_revision_lem id }
{
    if id.0 < u128::MAX {
        TxId(id.0 + 1)
    } else {
        TxId(1)
    }
}
