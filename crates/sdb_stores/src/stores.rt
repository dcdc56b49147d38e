//! Stores in boxes.
ghost use Rattle.std.specs.Prelude.{◌≡◌, ◌↔◌, ◌⊎◌, ◌<◌, ◌++◌, ◌∷◌, [], ℕ, List, length, map, position, Err, None, IsSome, IfOk, IfSome, IfNone, OnOk, OnErr};
ghost use Rattle.std.specs.Str.{bytes_eq};
ghost use Rattle.sdb_types.specs.Contents.{IsWellFormed};
ghost use Rattle.sdb_store.specs.Store.{IsStoreCall};
ghost use Rattle.sdb_stores.specs.Views.{AreDistinct, IsAdded, IsCallAt, IsTakenOut, AreUnchanged, attached_as, home_in, index_in};
ghost use Rattle.sdb_types.specs.declared.place.Place.{Place};

use crate::place::{PlaceRefused, table_of};
use crate::places::{Places, leave};
use crate::registry::Registry;
use sdb_store::{Store, call};
use sdb_types::{Duplicate, Name, Names, NoMemory, Place, Reply, Request, Seq, TableName};
use std::alloc::Global;

/// Why a store was not attached. It is handed back.
#[derive(Drop)]
pub enum AttachRefused {
    NameTaken(Box<dyn Store>),
    NoMemory(Box<dyn Store>),
}

#[derive(Drop)]
struct Slot {
    name: Name,
    store: Box<dyn Store>,
}

/// Stores in boxes, by name.
pub struct Stores {
    slots: Vec<Slot>,
    places: Places,
    ghost distinct: { AreDistinct (map (λ slot. slot.name) slots.items) },
}

// By hand: each drop is then one call, where a derived one is written out at each exit, with a call for each field.
impl Drop for Stores {
    fn drop(self) {
        let Stores {
            slots: _,
            places: _,
        } = self;
    }
}

trait Named {
    ghost name: { Self → List ℕ };

    fn name(&self) -> &Name
        ensures { result.now ≡ name self.now };
}

impl Named for Slot {
    ghost name = { λ slot. slot.name };

    fn name(&self) -> &Name {
        &self.name
    }
}

// Where the item of that name is.
fn place_in<T: Named>(items: &[T], name: &Name) -> Option<usize>
    ensures { result ≡ position (λ item. bytes_eq (T.name item) name.now) items.now }
{
    items.iter().position(|item| *item.name() == *name)
}

// One call on the store of a slot.
fn call_slot(slot: &mut Slot, request: &Request) -> Reply
    requires { IsWellFormed request.now }
    ensures name { slot.new.name ≡ slot.old.name }
    ensures called { IsStoreCall request.now result (state slot.old.store) (state slot.new.store) }
{
    call(&mut slot.store, request)
}

impl Stores {
    /// No stores, and no places.
    pub fn new(alloc: Global) -> Stores
        ensures stores { (⟦<Stores as Registry>⟧.state result).views ≡ [] }
        ensures places { (⟦<Stores as Registry>⟧.state result).places ≡ [] }
    {
        Stores {
            slots: Vec::new(alloc),
            places: Places::new(alloc),
        }
    }

    // Where the store of that name is.
    fn index_of(&self, name: &Name) -> Option<usize>
        ensures { result ≡ index_in (⟦<Stores as Registry>⟧.state self.now) name.now }
    {
        place_in(&self.slots, name)
    }

    // Where the store of a namespace is.
    fn home_of(&self, ns: &Name) -> usize
        ensures { result ≡ home_in (⟦<Stores as Registry>⟧.state self.now) ns.now }
    {
        match self.places.store_of(ns) {
            Some(store) => self.index_of(store).unwrap_or(0),
            None => 0,
        }
    }

    // One call on the store at an index.
    fn perform_on(&mut self, at: usize, request: &Request) -> Reply
        requires at { at < length (⟦<Stores as Registry>⟧.state self.old).views }
        requires formed { IsWellFormed request.now }
        ensures called { IsCallAt at request.now result (⟦<Stores as Registry>⟧.state self.old) (⟦<Stores as Registry>⟧.state self.new) }
        ensures places { (⟦<Stores as Registry>⟧.state self.new).places ≡ (⟦<Stores as Registry>⟧.state self.old).places }
    {
        let slot = &mut self.slots[at];
        call_slot(slot, request)
    }

    /// Adds a store after the others. A store that is refused is handed back.
    pub fn attach(&mut self, name: Name, store: Box<dyn Store>) -> Result<(), AttachRefused>
        ensures ok { OnOk result (IsAdded name (state store) (⟦<Stores as Registry>⟧.state self.old) (⟦<Stores as Registry>⟧.state self.new)) }
        ensures err { OnErr result (AreUnchanged (⟦<Stores as Registry>⟧.state self.old) (⟦<Stores as Registry>⟧.state self.new)) }
        ensures accepted { (result ≡ Err (AttachRefused.NameTaken store)) ↔ IsSome (index_in (⟦<Stores as Registry>⟧.state self.old) name) }
        ensures back { OnErr result ((result ≡ Err (AttachRefused.NameTaken store)) ⊎ (result ≡ Err (AttachRefused.NoMemory store))) }
    {
        if self.index_of(&name).is_some() {
            return Err(AttachRefused::NameTaken(store));
        }
        match self.slots.push(Slot { name, store }) {
            Ok(()) => Ok(()),
            Err(failed) => {
                let Slot { name: _, store } = failed.value;
                Err(AttachRefused::NoMemory(store))
            }
        }
    }

    /// Takes a store out and hands it back as it is, with the places that name it.
    pub fn detach(&mut self, name: &Name) -> Option<Box<dyn Store>>
        ensures none { IfNone result (index_in (⟦<Stores as Registry>⟧.state self.old) name.now ≡ None) }
        ensures unchanged { IfNone result (AreUnchanged (⟦<Stores as Registry>⟧.state self.old) (⟦<Stores as Registry>⟧.state self.new)) }
        ensures some { IfSome result (λ s. IsTakenOut name.now (state s) (⟦<Stores as Registry>⟧.state self.old) (⟦<Stores as Registry>⟧.state self.new)) }
    {
        let i = self.index_of(name)?;
        let Slot { name: _, store } = self.slots.remove(i);
        leave(&mut self.places, name);
        Some(store)
    }
}

impl Registry for Stores {
    ghost state = { λ s. attached_as (λ slot. slot.name) (λ slot. (Store-box slot.store).state slot.store.value) s.places s.slots.items };

    fn len(&self) -> usize {
        self.slots.len()
    }

    fn names(&self) -> Result<Names, NoMemory> {
        names_in(*self.slots.allocator(), &self.slots)
    }

    fn place(&mut self, ns: Name, store: &Name) -> Result<(), PlaceRefused> {
        if self.index_of(store).is_none() {
            return Err(PlaceRefused::NoStore);
        }
        if self.places.store_of(&ns).is_some() {
            return Err(PlaceRefused::AlreadyPlaced);
        }
        let store = store.copy()?;
        self.places.push(Place { ns, store })?;
        Ok(())
    }

    fn clear_places(&mut self) {
        self.places.clear();
    }

    fn store_of(&self, table: &TableName) -> &Name {
        self.slots[self.home_of(&table.ns)].name()
    }

    fn perform(&mut self, request: &Request) -> Reply {
        let at = self.home_of(&table_of(request).ns);
        self.perform_on(at, request)
    }

    fn perform_at(&mut self, store: &Name, request: &Request) -> Reply {
        let at = self.index_of(store).unwrap_or(0);
        self.perform_on(at, request)
    }

    fn drop_store(&mut self, store: &Name) {
        let _dropped = self.detach(store);
    }
}

// The names of items, in order.
fn names_in<T: Named>(alloc: Global, items: &[T]) -> Result<Names, NoMemory>
    ensures { IfOk result (λ names. names ≡ map T.name items.now) }
{
    let mut names = Seq::new(alloc);
    for item in items {
        names.push(item.name().copy()?)?;
    }
    Ok(names)
}
