//! Placing the namespaces of a script.
ghost use Rattle.std.specs.Prelude.{◌≡◌, ◌<◌, ◌++◌, ◌∷◌, [], ℕ, length, Some, None, IsSome, OnOk, slice_get};
ghost use Rattle.sdb_stores.specs.Views.{names_of, place_of, route_of};
ghost use Rattle.sdb_app.specs.Run.{CanBePlaced};

use sdb_model::{Place, Places};
use sdb_stores::{PlaceRefused, Registry};
use sdb_types::{Duplicate, NoMemory};

// The i-th place.
fn place_at(places: &Places, i: usize) -> &Place
    requires { i < length places.now }
    ensures { slice_get places.now i ≡ Some result.now }
{
    match places.at(i) {
        Some(place) => place,
        None => unreachable!(),
    }
}

// Places one namespace, which has none yet, on a store that is attached.
fn place<R: Registry>(stores: &mut R, place: &Place) -> Result<(), NoMemory>
    requires attached { IsSome (place_of place.now.store (names_of (R.state stores.old).views)) }
    requires free { route_of place.now.ns (R.state stores.old).places ≡ None }
    ensures places { OnOk result ((R.state stores.new).places ≡ (R.state stores.old).places ++ place.now ∷ []) }
    ensures stores { (R.state stores.new).views ≡ (R.state stores.old).views }
    ensures where_known { (i : ℕ) → (R.state stores.old).known i → (R.state stores.new).known i }
{
    match stores.place(place.ns.copy()?, &place.store) {
        Ok(()) => Ok(()),
        Err(PlaceRefused::NoMemory) => Err(NoMemory),
        Err(PlaceRefused::NoStore) => unreachable!(),
        Err(PlaceRefused::AlreadyPlaced) => unreachable!(),
    }
}

/// Places the namespaces of a script, where none has a place yet.
pub fn route_all<R: Registry>(stores: &mut R, places: &Places) -> Result<(), NoMemory>
    requires none { (R.state stores.old).places ≡ [] }
    requires fit { CanBePlaced (names_of (R.state stores.old).views) places.now }
    ensures places { OnOk result ((R.state stores.new).places ≡ places.now) }
    ensures stores { (R.state stores.new).views ≡ (R.state stores.old).views }
    ensures where_known { (i : ℕ) → (R.state stores.old).known i → (R.state stores.new).known i }
{
    for i in 0..places.len() {
        place(stores, place_at(places, i))?;
    }
    Ok(())
}
