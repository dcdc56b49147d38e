//! A list whose copies share their items, and which every contract sees as a list.
ghost use Rattle.std.specs.Prelude.{◌≡◌, ◌<◌, ◌≤◌, ◌-◌, ◌==◌, insert, remove, slice_get, slice_set, [], ◌∷◌, ◌++◌, length, OnOk, OnErr, IfOk};
ghost use Rattle.std.specs.Option.{option_copied};
ghost use Rattle.std.specs.Slice.{IsItemAt, IsGetResult};

use crate::memory::{Duplicate, NoMemory};
use crate::seq::Seq;
use std::alloc::Global;
use std::marker::Model;
use std::rc::Rc;

/// A value that is seen as a list of itself alone.
// A trait, since `std::slice::from_ref` asks for a type whose size is known, as that of a type parameter is not.
pub trait AsList {
    fn as_list(&self) -> &[Self]
        ensures { result.now ≡ self.now ∷ [] };
}

/// A list, seen as its items. A copy takes no memory for them: it holds the same ones, until one of the two is changed.
#[derive(Debug)]
pub struct SharedSeq<T> {
    items: Items<T>,
    alloc: Global,
}

// A list of one item lies in one block, and a longer one in two. Most lists of values have one item, and stay so.
#[derive(Debug, Drop)]
enum Items<T> {
    Empty,
    One(Rc<T>),
    Many(Rc<Seq<T>>),
}

impl<T> Model for SharedSeq<T> {
    ghost use Rattle.std.specs.Prelude.{List};
    ghost use Rattle.sdb_types.specs.SharedItems.{shared_items};

    ghost Value = { List T };

    ghost view = { λ s. shared_items s.items };
}

// By hand: each drop is then one call, where a derived one is written out at each exit, with a call for each field.
impl<T: Drop> Drop for SharedSeq<T> {
    fn drop(self) {
        let SharedSeq { items: _, alloc: _ } = self;
    }
}

impl<T> SharedSeq<T> {
    pub fn new(alloc: Global) -> Self
        ensures { result ≡ [] }
    {
        SharedSeq {
            items: Items::Empty,
            alloc,
        }
    }
}

impl<T: AsList> SharedSeq<T> {
    pub fn as_slice(&self) -> &[T]
        ensures { result.now ≡ self.now }
    {
        match &self.items {
            Items::Empty => &[],
            Items::One(item) => item.as_ref().as_list(),
            Items::Many(items) => items.as_ref().as_slice(),
        }
    }

    pub fn len(&self) -> usize
        ensures { result ≡ length self.now }
    {
        self.as_slice().len()
    }

    /// The item at a place, from 0.
    pub fn at(&self, i: usize) -> Option<&T>
        ensures { IsItemAt self.now i result }
    {
        self.as_slice().get(i)
    }

    pub fn is_empty(&self) -> bool
        ensures { result ≡ (length self.now == 0) }
    {
        self.as_slice().len() == 0
    }

    pub fn last(&self) -> Option<&T>
        ensures value { option_copied result ≡ slice_get self.now (length self.now - 1) }
        ensures item { IsGetResult self.now 0 (length self.now - 1) result }
    {
        self.as_slice().last()
    }
}

impl<T: Drop> SharedSeq<T> {
    /// An empty list with room for so many items, taken at once. No room takes no memory, and neither does room for one item, since that
    /// takes a block of its own when it is added.
    pub fn with_room(alloc: Global, room: usize) -> Result<Self, NoMemory>
        ensures { IfOk result (λ s. s ≡ []) }
    {
        if room <= 1 {
            return Ok(SharedSeq::new(alloc));
        }
        let items = Seq::with_room(alloc, room)?;
        Ok(SharedSeq {
            items: Items::Many(Rc::new(alloc, items)?),
            alloc,
        })
    }

    /// The same list. An empty one takes no memory.
    pub fn from_seq(alloc: Global, items: Seq<T>) -> Result<SharedSeq<T>, NoMemory>
        ensures { IfOk result (λ s. s ≡ items) }
    {
        if items.is_empty() {
            return Ok(SharedSeq::new(alloc));
        }
        Ok(SharedSeq {
            items: Items::Many(Rc::new(alloc, items)?),
            alloc,
        })
    }
}

// A list of a copy of one item, with room for more.
fn grown<T: Duplicate>(alloc: Global, item: &T) -> Result<Seq<T>, NoMemory>
    ensures { IfOk result (λ items. items ≡ item.now ∷ []) }
{
    let item = item.copy()?;
    let mut items = Seq::with_room(alloc, 4)?;
    items.push(item)?;
    Ok(items)
}

// A list of a copy of one item, and of another at a place.
fn inserted<T: Duplicate>(
    alloc: Global,
    first: &Rc<T>,
    i: usize,
    item: T,
) -> Result<Rc<Seq<T>>, NoMemory>
    requires { i ≤ 1 }
    ensures { IfOk result (λ items. items.value ≡ insert (first.now.value ∷ []) i item) }
{
    let mut items = grown(alloc, first.as_ref())?;
    items.insert(i, item)?;
    Ok(Rc::new(alloc, items)?)
}

impl<T: Duplicate> SharedSeq<T> {
    /// Adds an item at the end.
    pub fn push(&mut self, item: T) -> Result<(), NoMemory>
        ensures ok { OnOk result (self.new ≡ self.old ++ item ∷ []) }
        ensures err { OnErr result (self.new ≡ self.old) }
    {
        match &mut self.items {
            Items::Empty => {
                self.items = Items::One(Rc::new(self.alloc, item)?);
                Ok(())
            }
            Items::One(first) => {
                self.items = Items::Many(inserted(self.alloc, first, 1, item)?);
                Ok(())
            }
            Items::Many(items) => Rc::make_mut(items)?.push(item),
        }
    }

    /// Puts an item at a place, before those from there on.
    pub fn insert(&mut self, i: usize, item: T) -> Result<(), NoMemory>
        requires { i ≤ length self.old }
        ensures ok { OnOk result (self.new ≡ insert self.old i item) }
        ensures err { OnErr result (self.new ≡ self.old) }
    {
        match &mut self.items {
            Items::Empty => {
                self.items = Items::One(Rc::new(self.alloc, item)?);
                Ok(())
            }
            Items::One(first) => {
                self.items = Items::Many(inserted(self.alloc, first, i, item)?);
                Ok(())
            }
            Items::Many(items) => Rc::make_mut(items)?.insert(i, item),
        }
    }

    /// Puts an item in the place of another.
    pub fn replace(&mut self, i: usize, item: T) -> Result<(), NoMemory>
        requires { i < length self.old }
        ensures ok { OnOk result (self.new ≡ slice_set self.old i item) }
        ensures err { OnErr result (self.new ≡ self.old) }
    {
        match &mut self.items {
            Items::Empty => {}
            Items::One(_) => self.items = Items::One(Rc::new(self.alloc, item)?),
            Items::Many(items) => Rc::make_mut(items)?.replace(i, item),
        }
        Ok(())
    }

    /// Takes an item out.
    pub fn remove(&mut self, i: usize) -> Result<(), NoMemory>
        requires { i < length self.old }
        ensures ok { OnOk result (self.new ≡ remove self.old i) }
        ensures err { OnErr result (self.new ≡ self.old) }
    {
        match &mut self.items {
            Items::Empty => {}
            Items::One(_) => self.items = Items::Empty,
            Items::Many(items) => Rc::make_mut(items)?.remove(i),
        }
        Ok(())
    }
}

impl<T: Duplicate> Duplicate for SharedSeq<T> {
    fn copy(&self) -> Result<SharedSeq<T>, NoMemory> {
        let items = match &self.items {
            Items::Empty => Items::Empty,
            Items::One(item) => Items::One(item.clone()?),
            Items::Many(items) => Items::Many(items.clone()?),
        };
        Ok(SharedSeq {
            items,
            alloc: self.alloc,
        })
    }
}
