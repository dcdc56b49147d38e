//! One store over several boxes.
ghost use Rattle.std.specs.Prelude.{◌≡◌, length};
ghost use Rattle.sdb_shards.specs.Homes.{AreHomes};

use crate::parts::Parts;
use sdb_types::Key;
use std::collections::BTreeMap;

/// One store over several boxes. Each partition is in the box that is its home: that which a move gave it, or else the sum of the
/// bytes of its written key modulo the number of boxes. What the other boxes hold of it isn't shown.
pub struct Shards {
    pub(crate) boxes: Parts,
    pub(crate) moved: BTreeMap<Key, u32>,
    pub(crate) every: u32,
    pub(crate) calls: u64,
    pub(crate) faults: u64,
    ghost kept: { AreHomes (length boxes) moved },
}

// By hand: each drop is then one call, where a derived one is written out at each exit, with a call for each field.
impl Drop for Shards {
    fn drop(self) {
        let Shards {
            boxes: _,
            moved: _,
            every: _,
            calls: _,
            faults: _,
        } = self;
    }
}

impl Shards {
    /// Hands the boxes back.
    pub fn take_apart(self) -> Parts
        ensures { result ≡ self.boxes }
    {
        let Shards {
            boxes,
            moved: _,
            every: _,
            calls: _,
            faults: _,
        } = self;
        boxes
    }
}
