//! Lists of keys.
ghost use Rattle.std.specs.Prelude.{◌≡◌};
ghost use Rattle.sdb_types.specs.Order.{are_distinct as are_distinct_lem, has_key as has_key_lem};
ghost use Rattle.check_protocol.specs.Rules.{are_some as are_some_lem};

use crate::same::is_same_key;
use sdb_types::Key;

pub fn has_key(keys: &[Key], key: &Key) -> bool
    ensures { result ≡ has_key_lem keys.now key.now }
{
    match keys.split_first() {
        None => false,
        Some((first, rest)) => has_key(rest, key) || is_same_key(key, first),
    }
}

// No key comes twice.
fn are_distinct(keys: &[Key]) -> bool
    ensures { result ≡ are_distinct_lem keys.now }
{
    match keys.split_first() {
        None => true,
        Some((first, rest)) => !has_key(rest, first) && are_distinct(rest),
    }
}

/// Whether there is at least one, and each comes once.
pub fn are_some(keys: &[Key]) -> bool
    ensures { result ≡ are_some_lem keys.now }
{
    match keys {
        [] => false,
        [_, ..] => are_distinct(keys),
    }
}
