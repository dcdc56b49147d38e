//! A column with its value.
ghost use Rattle.std.specs.Prelude.{◌≡◌, IfOk};

use crate::memory::{Duplicate, NoMemory};
use crate::name::Name;
use crate::shared::AsList;
use crate::value::Value;

/// A column of a record, or a column that a statement sets.
#[derive(Debug, PartialEq, Eq)]
pub struct Pair {
    pub name: Name,
    pub value: Value,
}

// By hand: each drop is then one call, where a derived one is written out at each exit, with a call for each field.
impl Drop for Pair {
    fn drop(self) {
        let Pair { name: _, value: _ } = self;
    }
}

impl Duplicate for Pair {
    fn copy(&self) -> Result<Pair, NoMemory> {
        Ok(Pair {
            name: self.name.copy()?,
            value: self.value.copy()?,
        })
    }
}

impl AsList for Pair {
    fn as_list(&self) -> &[Pair] {
        std::slice::from_ref(self)
    }
}
