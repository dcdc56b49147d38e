//! Keys that mostly come in their order, looked for in a tree.
ghost use Rattle.std.specs.Prelude.{◌≡◌};
ghost use Rattle.std.specs.BTreeMap.{get};
ghost use Rattle.std.specs.Option.{option_copied};
ghost use Rattle.sdb_types.specs.Order.{key_cmp};

use crate::key::Key;
use std::cmp::Ordering;
use std::collections::BTreeMap;

/// What a tree has at a key. The tree's last key is asked first: a key past it, or equal to it, takes one comparison. Takes no memory.
pub fn find_rising<'a, V>(tree: &'a BTreeMap<Key, V>, key: &Key) -> Option<&'a V>
    ensures { option_copied result ≡ get key_cmp tree.now key.now }
{
    if let Some((last, value)) = tree.last_key_value() {
        match last.compare(key) {
            Ordering::Less => return None,
            Ordering::Equal => return Some(value),
            Ordering::Greater => {}
        }
    }
    tree.get(key)
}
