//! A store over several boxes as it begins.
ghost use Rattle.std.specs.Prelude.{◌≡◌, ◌<◌, ◌^◌, All, None, length};
ghost use Rattle.std.specs.BTreeMap.{get};
ghost use Rattle.std.specs.FinMap.{empty};
ghost use Rattle.sdb_types.specs.declared.key.Key.{Key};
ghost use Rattle.sdb_types.specs.Order.{key_cmp};
ghost use Rattle.sdb_store.specs.Store.{IsNewStore};
ghost use Rattle.sdb_shards.specs.Boxes.{contents_of};
ghost use Rattle.sdb_shards.specs.Whole.{state_of};

use crate::parts::Parts;
use crate::shards::Shards;
use std::collections::BTreeMap;

impl Shards {
    /// A store over boxes. Where `every` isn't 0, a partition is moved when its home has had so many calls.
    pub fn new(boxes: Parts, every: u32) -> Shards
        requires some { 0 < length boxes }
        requires few { length boxes < 2 ^ 32 }
        ensures boxes { result.boxes ≡ boxes }
        ensures moved { (k : Key) → get key_cmp result.moved k ≡ None }
        ensures every { result.every ≡ every }
        ensures calls { result.calls ≡ 0 }
        ensures faults { result.faults ≡ 0 }
        ensures new { All (λ part. contents_of part ≡ empty) boxes → IsNewStore (state_of result) }
    {
        let alloc = boxes.allocator();
        Shards {
            boxes,
            moved: BTreeMap::new(alloc),
            every,
            calls: 0,
            faults: 0,
        }
    }
}
