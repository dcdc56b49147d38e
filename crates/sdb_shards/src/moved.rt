//! The homes of partitions, and partitions that are moved.
ghost use Rattle.std.specs.Prelude.{◌≡◌, ◌≢◌, ◌<◌, ◌≤◌, ◌^◌, [], length, IfOk, IfErr, IsErrOf};
ghost use Rattle.std.specs.BTreeMap.{get};
ghost use Rattle.sdb_types.specs.Order.{key_cmp};
ghost use Rattle.sdb_shards.specs.Homes.{home_at as home_at_lem, partition_key as partition_key_lem};
ghost use Rattle.sdb_shards.specs.declared.refused.MoveRefused.TheVariants.{NoBox};
ghost use Rattle.sdb_shards.specs.Moved.{IsMove, IsNotMoved};
ghost use Rattle.sdb_shards.specs.Whole.{ShowsSame, home_in};

use crate::homes::{home_at, partition_key, set_home, span_of};
use crate::moves::{copy_partition, sweep};
use crate::refused::MoveRefused;
use crate::shards::Shards;
use sdb_types::{Duplicate, Key, NoMemory, TableName, Values};

impl Shards {
    // The home of a partition that is given by its key.
    pub(crate) fn home_of(&self, key: &Key) -> Result<u32, NoMemory>
        ensures at { IfOk result (λ at. at ≡ home_at_lem (get key_cmp self.now.moved) (length self.now.boxes) key.now) }
        ensures inside { IfOk result (λ at. at < length self.now.boxes) }
        ensures few { length self.now.boxes < 2 ^ 32 }
    {
        home_at(
            self.boxes.allocator(),
            &self.moved,
            self.boxes.len() as u32,
            key,
        )
    }

    /// The number of the box that is the home of a partition.
    pub fn home(&self, table: &TableName, partition: &Values) -> Result<u32, NoMemory>
        ensures at { IfOk result (λ at. at ≡ home_in self.now (partition_key_lem table.now partition.now)) }
        ensures inside { IfOk result (λ at. at < length self.now.boxes) }
    {
        let key = partition_key(self.boxes.allocator(), table, partition)?;
        self.home_of(&key)
    }

    // Copies a partition to a box, which is then its home, and deletes what it had before.
    fn carry(&mut self, key: Key, from: u32, to: u32) -> Result<u64, MoveRefused>
        requires from { from ≡ home_in self.old key }
        requires partition { key.clustering ≡ [] }
        requires inside { to < length self.old.boxes }
        requires other { from ≢ to }
        ensures shows { ShowsSame self.old self.new }
        ensures ok { IfOk result (IsMove key to self.old self.new) }
        ensures err { IfErr result (IsNotMoved key to self.old self.new) }
    {
        let span = span_of(&key)?;
        set_home(&mut self.moved, key.copy()?, from)?;
        let rows = copy_partition(&mut self.boxes, &span, from, to)?;
        set_home(&mut self.moved, key, to)?;
        sweep(&mut self.boxes, from, rows.as_slice());
        Ok(rows.len() as u64)
    }

    /// Moves a partition to a box, and counts the records that were copied there, which are none where it is the home already. After a refusal
    /// no home has changed. It says that no box has the number, that a call of a box failed, or the key of a record that is in the way: one
    /// in the box that lacks an id or a state and isn't one of those that come.
    pub fn move_partition(
        &mut self,
        table: &TableName,
        partition: &Values,
        to: u32,
    ) -> Result<u64, MoveRefused>
        ensures shows { ShowsSame self.old self.new }
        ensures ok { IfOk result (IsMove (partition_key_lem table.now partition.now) to self.old self.new) }
        ensures err { IfErr result (IsNotMoved (partition_key_lem table.now partition.now) to self.old self.new) }
        ensures no_box { length self.old.boxes ≤ to → IsErrOf result NoBox }
        ensures present { home_in self.old (partition_key_lem table.now partition.now) ≡ to → self.new ≡ self.old }
    {
        if to as usize >= self.boxes.len() {
            return Err(MoveRefused::NoBox);
        }
        let key = partition_key(self.boxes.allocator(), table, partition)?;
        let from = self.home_of(&key)?;
        if from == to {
            return Ok(0);
        }
        self.carry(key, from, to)
    }
}
