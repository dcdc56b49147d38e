//! The prefix of a list.
ghost use Rattle.std.specs.Prelude.{◌≡◌, take};

use sdb_types::Seq;
use std::alloc::Global;
use std::mem;

/// Keeps the first so many items. Takes no memory.
pub fn cut<T: Drop>(alloc: Global, items: &mut Seq<T>, len: usize)
    ensures { items.new ≡ take len items.old }
{
    let mut kept = mem::replace(items, Seq::new(alloc)).into_vec();
    kept.truncate(len);
    *items = Seq::from_vec(kept);
}
