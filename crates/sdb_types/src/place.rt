//! Where a namespace is kept.

use crate::memory::{Duplicate, NoMemory};
use crate::name::Name;

/// A namespace, and the store that it is placed on.
#[derive(Debug, PartialEq, Eq)]
pub struct Place {
    pub ns: Name,
    pub store: Name,
}

// By hand: each drop is then one call, where a derived one is written out at each exit, with a call for each field.
impl Drop for Place {
    fn drop(self) {
        let Place { ns: _, store: _ } = self;
    }
}

impl Duplicate for Place {
    fn copy(&self) -> Result<Place, NoMemory> {
        Ok(Place {
            ns: self.ns.copy()?,
            store: self.store.copy()?,
        })
    }
}
