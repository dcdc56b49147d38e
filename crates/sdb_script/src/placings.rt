//! The places of a script that is being read, found by their namespaces.
ghost use Rattle.std.specs.Prelude.{◌≡◌, false, [], ◌∷◌, ◌++◌, OnOk};
ghost use Rattle.sdb_script.specs.Begun.{is_placed};

use sdb_model::{Place, Places};
use sdb_types::{Duplicate, Name, NoMemory};
use std::alloc::Global;
use std::collections::BTreeSet;
use std::marker::Model;

/// The places in the order in which they were made, seen as a list. A tree has their namespaces: a search takes time as the
/// logarithm of their number, whatever names are chosen.
pub struct Placings {
    places: Places,
    namespaces: BTreeSet<Name>,
}

// By hand: each drop is then one call, where a derived one is written out at each exit, with a call for each field.
impl Drop for Placings {
    fn drop(self) {
        let Placings {
            places: _,
            namespaces: _,
        } = self;
    }
}

impl Model for Placings {
    ghost use Rattle.std.specs.Prelude.{List};
    ghost use Rattle.std.specs.BTreeSet.{contains};
    ghost use Rattle.sdb_types.specs.Order.{name_cmp};
    ghost use Rattle.sdb_types.specs.declared.place.Place.{Place as OnePlace};
    ghost use Rattle.sdb_script.specs.Placings.{HasNamespaces};

    ghost Value = { List OnePlace };

    ghost view = { λ p. p.places };

    ghost invariant = { λ p. HasNamespaces p.places (contains name_cmp p.namespaces) };
}

impl Placings {
    /// No places.
    pub fn new(alloc: Global) -> Placings
        ensures { result ≡ [] }
    {
        Placings {
            places: Places::new(alloc),
            namespaces: BTreeSet::new(alloc),
        }
    }

    /// Whether a namespace was placed.
    pub fn has(&self, ns: &Name) -> bool
        ensures { result ≡ is_placed self.now ns.now }
    {
        self.namespaces.contains(ns)
    }

    /// Places a namespace.
    pub fn push(&mut self, ns: Name, store: Name) -> Result<(), NoMemory>
        requires { is_placed self.old ns ≡ false }
        ensures { OnOk result (self.new ≡ self.old ++ record { ns = ns; store = store } ∷ []) }
    {
        let own = ns.copy()?;
        let last = self.places.len();
        self.places.push(Place { ns, store })?;
        match self.namespaces.insert(own) {
            Ok(_) => Ok(()),
            Err(_) => {
                self.places.remove(last);
                Err(NoMemory)
            }
        }
    }

    /// The places as a list. Takes no memory.
    pub fn into_places(self) -> Places
        ensures { result ≡ self }
    {
        let Placings {
            places,
            namespaces: _,
        } = self;
        places
    }
}
