//! A value that lies on the heap, whose copies share it, and which every contract sees as the value itself.
ghost use Rattle.std.specs.Prelude.{◌≡◌, IfOk};

use sdb_types::{Duplicate, NoMemory};
use std::alloc::Global;
use std::marker::Model;
use std::rc::Rc;

/// A value, seen as itself. It takes the room of a pointer where it is, so a list of events that rarely have an answer is small. A copy takes
/// no memory: it shares the value.
#[derive(Debug, Drop)]
pub struct Boxed<T> {
    inner: Rc<T>,
}

impl<T> Model for Boxed<T> {
    ghost Value = { T };

    ghost view = { λ b. b.inner.value };
}

impl<T: Drop> Boxed<T> {
    pub fn new(alloc: Global, value: T) -> Result<Boxed<T>, NoMemory>
        ensures { IfOk result (λ b. b ≡ value) }
    {
        Ok(Boxed {
            inner: Rc::new(alloc, value)?,
        })
    }

    /// The value that may be there. Takes no memory where there is none.
    pub fn option(alloc: Global, value: Option<T>) -> Result<Option<Boxed<T>>, NoMemory>
        ensures { IfOk result (λ b. b ≡ value) }
    {
        match value {
            Some(value) => Ok(Some(Boxed::new(alloc, value)?)),
            None => Ok(None),
        }
    }
}

impl<T> Boxed<T> {
    pub fn get(&self) -> &T
        ensures { result.now ≡ self.now }
    {
        self.inner.as_ref()
    }
}

impl<T: Drop> Duplicate for Boxed<T> {
    fn copy(&self) -> Result<Boxed<T>, NoMemory> {
        Ok(Boxed {
            inner: self.inner.clone()?,
        })
    }
}

impl<T: PartialEq> PartialEq for Boxed<T> {
    ghost eq = { T.eq };

    ghost laws = { T.laws };

    fn eq(&self, other: &Self) -> bool {
        self.get() == other.get()
    }
}

impl<T: Eq> Eq for Boxed<T> {
    ghost laws = { T.Eq.laws };
}
