//! A map whose keys keep the order of their first use.
ghost use Rattle.std.specs.Prelude.{◌≡◌, [], ◌++◌, ◌∷◌, IfOk, OnOk, OnErr, slice_get, slice_set, length, position, take, true, None, Some};
ghost use Rattle.std.specs.BTreeMap.{get, IsOrdered};
ghost use Rattle.std.specs.Option.{option_copied, option_map};
ghost use Rattle.std.specs.Map.{keys_of};
ghost use Rattle.std.specs.Map.Iter.{deref_pair};
ghost use Rattle.sdb_types.specs.Order.{key_cmp, same_key};
ghost use Rattle.sdb_snapshot.specs.Entries.{value_at, with_value};
ghost use Rattle.sdb_snapshot.specs.Places.{is_key_at as is_key_at_lem, keys_among as keys_among_lem, AreKeysIn, HaveIndexes};
ghost use Rattle.sdb_snapshot.specs.Filled.{AreOnce};

use crate::prefix::cut;
use sdb_ordered::least_key;
use sdb_types::{Columns, Duplicate, Key, NoMemory, Record, Records, Seq, Span, find_rising};
use std::alloc::Global;
use std::collections::BTreeMap;
use std::marker::Model;

/// Values by key, seen as the list of keys with their values, in the order in which the keys were first put.
///
/// `get`, `place` and `put` compare the key with as many others as the logarithm of the number of keys, whatever keys are chosen.
///
/// The entries are kept in the order of their first uses, and a tree has the place of each key. It may have places of keys
/// that were cut off, or that memory ran out for: a place counts where the entry there is of its key.
pub struct KeyMap<V> {
    alloc: Global,
    entries: Seq<(Key, V)>,
    places: BTreeMap<Key, usize>,
}

impl<V: Drop> Drop for KeyMap<V> {
    fn drop(self) {
        let KeyMap {
            alloc: _,
            entries: _,
            places: _,
        } = self;
    }
}

impl<V> Model for KeyMap<V> {
    ghost use Rattle.std.specs.Prelude.{List};
    ghost use Rattle.std.specs.BTreeMap.{get};
    ghost use Rattle.std.specs.Map.{keys_of};
    ghost use Rattle.sdb_types.specs.declared.key.Key.{Key as KeyValue};
    ghost use Rattle.sdb_types.specs.Order.{key_cmp};
    ghost use Rattle.sdb_snapshot.specs.Places.{HaveIndexes};

    ghost Value = { List (KeyValue × V) };

    ghost view = { λ m. m.entries };

    ghost invariant = { λ m. HaveIndexes (keys_of m.entries) (get key_cmp m.places) };
}

// The keys of a span among those of a tree, as records without columns: they come together, from the span's least key on.
fn keys_among(
    alloc: Global,
    places: &BTreeMap<Key, usize>,
    span: &Span,
) -> Result<Records, NoMemory>
    ensures keys { IfOk result (λ found. found ≡ keys_among_lem span.now places.now.entries) }
    ensures ordered { OnOk result (IsOrdered key_cmp places.now) }
{
    let start = least_key(alloc, span)?;
    let mut found = Seq::new(alloc);
    for (key, _place) in places.range(start..) {
        if !span.contains(key) {
            break;
        }
        found.push(Record {
            key: key.copy()?,
            columns: Columns::new(alloc),
        })?;
    }
    Ok(found)
}

// What a tree has at a key. Most keys come in their order, and are then looked for again.
fn index_of(places: &BTreeMap<Key, usize>, key: &Key) -> Option<usize>
    ensures { result ≡ get key_cmp places.now key.now }
{
    match find_rising(places, key) {
        Some(i) => Some(*i),
        None => None,
    }
}

// A tree of the places of entries, each of a key of its own.
fn places_of<V>(alloc: Global, entries: &[(Key, V)]) -> Result<BTreeMap<Key, usize>, NoMemory>
    requires { AreOnce (keys_of entries.now) }
    ensures { IfOk result (λ places. HaveIndexes (keys_of entries.now) (get key_cmp places)) }
{
    let mut places = Seq::new(alloc);
    for entry in entries {
        let place = places.len();
        places.push((entry.0.copy()?, place))?;
    }
    Ok(BTreeMap::from_iter(alloc, places.into_vec())?)
}

impl<V> KeyMap<V> {
    /// No keys.
    pub fn new(alloc: Global) -> KeyMap<V>
        ensures { result ≡ [] }
    {
        KeyMap {
            alloc,
            entries: Seq::new(alloc),
            places: BTreeMap::new(alloc),
        }
    }

    /// How many keys there are.
    pub fn len(&self) -> usize
        ensures { result ≡ length self.now }
    {
        self.entries.len()
    }

    /// The key that was the i-th to be put, from 0, with its value.
    pub fn at(&self, i: usize) -> Option<(&Key, &V)>
        ensures { option_map deref_pair result ≡ slice_get self.now i }
    {
        match self.entries.as_slice().get(i) {
            Some(entry) => Some((&entry.0, &entry.1)),
            None => None,
        }
    }

    // Whether the entry at a place is of a key.
    fn is_key_at(&self, i: usize, key: &Key) -> bool
        ensures { result ≡ is_key_at_lem (keys_of self.now) i key.now }
    {
        match self.at(i) {
            Some((own, _)) => key.compare(own).is_eq(),
            None => false,
        }
    }

    // The value of the key that was the i-th to be put.
    fn value_of(&self, i: usize) -> Option<&V>
        ensures { option_copied result ≡ option_map (λ e. e.1) (slice_get self.now i) }
    {
        match self.at(i) {
            Some((_, value)) => Some(value),
            None => None,
        }
    }

    /// The value of a key.
    pub fn get(&self, key: &Key) -> Option<&V>
        ensures { option_copied result ≡ value_at self.now key.now }
    {
        match self.place(key) {
            Some(i) => self.value_of(i),
            None => None,
        }
    }

    /// The place of a key, from 0.
    pub fn place(&self, key: &Key) -> Option<usize>
        ensures { result ≡ position (same_key key.now) (keys_of self.now) }
    {
        let i = index_of(&self.places, key)?;
        if self.is_key_at(i, key) {
            Some(i)
        } else {
            None
        }
    }

    // The place of a key, which is looked for first at another place.
    fn place_near(&self, i: usize, key: &Key) -> Option<usize>
        ensures { result ≡ position (same_key key.now) (keys_of self.now) }
    {
        let _length = self.entries.len();
        if self.is_key_at(i, key) {
            Some(i)
        } else {
            self.place(key)
        }
    }

    /// The value of a key, which is looked for first at the place `next`; `next` is then the place after the key's. So keys
    /// that are asked for in the order of their places take a comparison each.
    pub fn get_next(&self, next: &mut usize, key: &Key) -> Option<&V>
        ensures { option_copied result ≡ value_at self.now key.now }
    {
        match self.place_near(*next, key) {
            Some(i) => {
                *next = i.saturating_add(1);
                self.value_of(i)
            }
            None => None,
        }
    }

    /// The keys of a span, in their order, as records without columns, and perhaps others of the span.
    pub fn keys_in(&self, span: &Span) -> Result<Records, NoMemory>
        ensures { IfOk result (λ keys. AreKeysIn self.now span.now keys) }
    {
        keys_among(self.alloc, &self.places, span)
    }

    /// Keeps the keys that were put first, so many, and drops the others. Takes no memory.
    pub fn truncate(&mut self, len: usize)
    where
        V: Drop,
        ensures { self.new ≡ take len self.old }
    {
        cut(self.alloc, &mut self.entries, len);
    }

    // Puts a value at a key that has this place.
    fn replace(&mut self, i: usize, key: Key, value: V)
    where
        V: Drop,
        requires { position (same_key key) (keys_of self.old) ≡ Some i }
        ensures { self.new ≡ slice_set self.old i (key, value) }
    {
        self.entries.replace(i, (key, value));
    }

    /// Puts a new key last, with its value.
    pub fn push(&mut self, key: Key, value: V) -> Result<(), NoMemory>
    where
        V: Drop,
        requires { position (same_key key) (keys_of self.old) ≡ None }
        ensures ok { OnOk result (self.new ≡ self.old ++ (key, value) ∷ []) }
        ensures err { OnErr result (self.new ≡ self.old) }
    {
        self.places.insert(key.copy()?, self.entries.len())?;
        self.entries.push((key, value))
    }

    /// Puts entries, each of a key of its own, in the place of all others. Their tree is built at once.
    pub fn fill(&mut self, entries: Seq<(Key, V)>) -> Result<(), NoMemory>
    where
        V: Drop,
        requires { AreOnce (keys_of entries) }
        ensures ok { OnOk result (self.new ≡ entries) }
        ensures err { OnErr result (self.new ≡ self.old) }
    {
        self.places = places_of(self.alloc, entries.as_slice())?;
        self.entries = entries;
        Ok(())
    }

    /// Puts a value at a key. A key that is there keeps its place, and a new one goes last.
    pub fn put(&mut self, key: Key, value: V) -> Result<(), NoMemory>
    where
        V: Drop,
        ensures ok { OnOk result (self.new ≡ with_value self.old key value) }
        ensures err { OnErr result (self.new ≡ self.old) }
    {
        match self.place(&key) {
            Some(i) => {
                self.replace(i, key, value);
                Ok(())
            }
            None => self.push(key, value),
        }
    }
}
