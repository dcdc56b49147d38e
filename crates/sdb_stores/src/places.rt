//! The places of namespaces, found by the namespace.
ghost use Rattle.std.specs.Prelude.{◌≡◌, ◌++◌, ◌∷◌, [], None, not, filter, OnOk, OnErr};
ghost use Rattle.std.specs.BTreeMap.{IsOrdered};
ghost use Rattle.std.specs.Option.{option_copied};
ghost use Rattle.std.specs.Str.{bytes_eq};
ghost use Rattle.sdb_types.specs.Order.{name_cmp};
ghost use Rattle.sdb_stores.specs.Views.{route_of, places_without};

use sdb_types::{Duplicate, Name, NoMemory, Place};
use std::alloc::Global;
use std::collections::BTreeMap;
use std::marker::Model;

/// The places in the order in which they were made, each of a namespace of its own, seen as a list. A tree has the store of each
/// namespace: a search takes time as the logarithm of their number, whatever names are chosen.
pub(crate) struct Places {
    list: Vec<Place>,
    stores: BTreeMap<Name, Name>,
}

// By hand: each drop is then one call, where a derived one is written out at each exit, with a call for each field.
impl Drop for Places {
    fn drop(self) {
        let Places { list: _, stores: _ } = self;
    }
}

impl Model for Places {
    ghost use Rattle.std.specs.Prelude.{List};
    ghost use Rattle.std.specs.BTreeMap.{get};
    ghost use Rattle.sdb_types.specs.Order.{name_cmp};
    ghost use Rattle.sdb_types.specs.declared.place.Place.{Place as OnePlace};
    ghost use Rattle.sdb_stores.specs.Routes.{HasRoutes};

    ghost Value = { List OnePlace };

    ghost view = { λ p. p.list.items };

    ghost invariant = { λ p. HasRoutes p.list.items (get name_cmp p.stores) };
}

// Takes the places on a store out of a list.
fn leave_list(list: &mut Vec<Place>, store: &Name)
    ensures { list.new.items ≡ places_without store.now list.old.items }
{
    list.retain(|place| place.store != *store);
}

// Takes the namespaces that are placed on a store out of a tree.
fn leave_tree(stores: &mut BTreeMap<Name, Name>, store: &Name)
    ensures left { stores.new.entries ≡ filter (λ e. not (bytes_eq e.1 store.now)) stores.old.entries }
    ensures ordered { IsOrdered name_cmp stores.old }
{
    stores.retain(|_, home| *home != *store);
}

/// Takes the places on a store away. Takes no memory.
pub(crate) fn leave(places: &mut Places, store: &Name)
    ensures { places.new ≡ places_without store.now places.old }
{
    leave_list(&mut places.list, store);
    leave_tree(&mut places.stores, store);
}

impl Places {
    /// No places.
    pub(crate) fn new(alloc: Global) -> Places
        ensures { result ≡ [] }
    {
        Places {
            list: Vec::new(alloc),
            stores: BTreeMap::new(alloc),
        }
    }

    /// The name of the store that a namespace is placed on.
    pub(crate) fn store_of(&self, ns: &Name) -> Option<&Name>
        ensures { option_copied result ≡ route_of ns.now self.now }
    {
        self.stores.get(ns)
    }

    /// Places a namespace that has no place.
    pub(crate) fn push(&mut self, place: Place) -> Result<(), NoMemory>
        requires { route_of place.ns self.old ≡ None }
        ensures ok { OnOk result (self.new ≡ self.old ++ place ∷ []) }
        ensures err { OnErr result (self.new ≡ self.old) }
    {
        let ns = place.ns.copy()?;
        let store = place.store.copy()?;
        self.stores.insert(ns, store)?;
        match self.list.push(place) {
            Ok(()) => Ok(()),
            Err(failed) => {
                self.stores.remove(&failed.value.ns);
                Err(NoMemory)
            }
        }
    }

    /// Takes all places away.
    pub(crate) fn clear(&mut self)
        ensures { self.new ≡ [] }
    {
        self.list.clear();
        self.stores.clear();
    }
}
