//! A map from keys.
ghost use Rattle.std.specs.Prelude.{◌≡◌, IfOk, OnOk, map as map_list};
ghost use Rattle.std.specs.Option.{option_copied};
ghost use Rattle.std.specs.FinMap as map;
ghost use Rattle.sdb_types.specs.Order.{key_cmp};
ghost use Rattle.std.specs.BTreeMap.{IsOrdered};
ghost use Rattle.sdb_phases.specs.Checks.{wanted_of};

use sdb_phases::{Expectations, Expected, Wanted};
use sdb_types::{Duplicate, Key, NoMemory, Seq};
use std::alloc::Global;
use std::collections::BTreeMap;
use std::marker::Model;

/// What is wished at keys, in key order.
pub struct ExpectedMap {
    alloc: Global,
    wishes: BTreeMap<Key, Expected>,
}

// By hand: each drop is then one call, where a derived one is written out at each exit, with a call for each field.
impl Drop for ExpectedMap {
    fn drop(self) {
        let ExpectedMap {
            alloc: _,
            wishes: _,
        } = self;
    }
}

impl Model for ExpectedMap {
    ghost use Rattle.std.specs.FinMap as map;
    ghost use Rattle.sdb_phases.specs.Checks.{Wishes};
    ghost use Rattle.sdb_validate.specs.WishCode.{coded_wishes};

    ghost Value = { Wishes };

    ghost coded = { coded_wishes };

    ghost view = { λ m. map.from_entries m.wishes.entries };
}

impl ExpectedMap {
    pub fn new(alloc: Global) -> ExpectedMap
        ensures { result ≡ map.empty }
    {
        ExpectedMap {
            alloc,
            wishes: BTreeMap::new(alloc),
        }
    }

    /// What is wished at a key.
    pub fn find(&self, key: &Key) -> Option<&Expected>
        ensures { option_copied result ≡ map.get self.now key.now }
    {
        self.wishes.get(key)
    }

    /// Wishes that at a key, in place of what was wished there.
    pub fn insert(&mut self, key: &Key, wish: Expected) -> Result<(), NoMemory>
        ensures ok { OnOk result (self.new ≡ map.insert self.old key.now wish) }
    {
        self.wishes.insert(key.copy()?, wish)?;
        Ok(())
    }

    /// All that is wished, in key order.
    pub fn list(&self) -> Result<Expectations, NoMemory>
        ensures { IfOk result (λ wants. wants ≡ map_list wanted_of (map.entries self.now)) }
    {
        listed(self.alloc, &self.wishes)
    }
}

fn listed(alloc: Global, wishes: &BTreeMap<Key, Expected>) -> Result<Expectations, NoMemory>
    ensures wants { IfOk result (λ wants. wants ≡ map_list wanted_of wishes.now.entries) }
    ensures ordered { OnOk result (IsOrdered key_cmp wishes.now) }
{
    let mut wants = Seq::new(alloc);
    for (key, wish) in wishes {
        wants.push(Wanted {
            key: key.copy()?,
            wish: *wish,
        })?;
    }
    Ok(wants)
}
