//! A value that lies on the heap, and which every contract sees as the value itself.
ghost use Rattle.std.specs.Prelude.{◌≡◌, IfOk};
ghost use Rattle.std.specs.Borrow.{sem};

use sdb_types::NoMemory;
use std::alloc::Global;
use std::marker::Model;

/// A value, seen as itself. It takes the room of a pointer where it is, so what holds it is moved at little cost.
#[derive(Drop)]
pub struct Held<T> {
    inner: Box<T>,
}

impl<T> Model for Held<T> {
    ghost Value = { T };

    ghost view = { λ h. h.inner.value };
}

impl<T: Drop> Held<T> {
    pub fn new(alloc: Global, value: T) -> Result<Held<T>, NoMemory>
        ensures { IfOk result (λ h. h ≡ value) }
    {
        Ok(Held {
            inner: Box::new(alloc, value)?,
        })
    }
}

impl<T> Held<T> {
    ghost use Rattle.sdb_txn.specs.Held.{LendsWhole};

    pub fn get(&self) -> &T
        ensures { result.now ≡ self.now }
    {
        self.inner.as_ref()
    }

    pub fn get_mut(&mut self) -> &mut T
        ensures* writes_back { sem 𝓛 (LendsWhole T.row self.entry result) }
        ensures value { result.now ≡ self.old }
    {
        self.inner.as_mut()
    }
}
