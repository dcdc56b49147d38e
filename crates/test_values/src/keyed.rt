//! Keys put and found.
use sdb_snapshot::KeyMap;
use std::alloc::Global;
use std::test::Fail;
use test_builders::{Case, account, all_cases};

// What is put, one after the other, and how many keys are kept; the first value that is left, and keys with their values and
// places.
#[derive(Clone, Copy)]
struct Check {
    puts: &'static [(i32, u32)],
    kept: usize,
    first: u32,
    keys: &'static [(i32, Option<u32>, Option<usize>)],
}

fn put_all(alloc: Global, map: &mut KeyMap<u32>, puts: &[(i32, u32)]) -> Result<(), Fail> {
    for (id, value) in puts {
        map.put(account(alloc, *id)?, *value)?;
    }
    Ok(())
}

fn is_at(
    alloc: Global,
    map: &KeyMap<u32>,
    id: i32,
    value: Option<u32>,
    place: Option<usize>,
) -> Result<bool, Fail> {
    let key = account(alloc, id)?;
    Ok(map.get(&key).copied() == value && map.place(&key) == place)
}

fn has_keys(alloc: Global, map: &KeyMap<u32>, check: Check) -> Result<bool, Fail> {
    for (id, value, place) in check.keys {
        if !is_at(alloc, map, *id, *value, *place)? {
            return Ok(false);
        }
    }
    Ok(map.len() == check.kept && map.at(0).map(|entry| *entry.1) == Some(check.first))
}

impl Case for Check {
    fn holds(self, alloc: Global) -> Result<bool, Fail> {
        let mut map: KeyMap<u32> = KeyMap::new(alloc);
        put_all(alloc, &mut map, self.puts)?;
        map.truncate(self.kept);
        has_keys(alloc, &map, self)
    }
}

static CHECKS: [Check; 3] = [
    // A key keeps its place.
    Check {
        puts: &[(2, 10), (1, 20), (2, 30)],
        kept: 2,
        first: 30,
        keys: &[(1, Some(20), Some(1)), (3, None, None)],
    },
    Check {
        puts: &[(2, 10), (1, 20)],
        kept: 2,
        first: 10,
        keys: &[(1, Some(20), Some(1))],
    },
    // Later keys are cut off.
    Check {
        puts: &[(2, 10), (1, 20)],
        kept: 1,
        first: 10,
        keys: &[(1, None, None), (2, Some(10), Some(0))],
    },
];

#[test]
fn keys_keep_their_places(rt: HostRuntime) -> Result<(), Fail> {
    all_cases(rt.alloc(), "keyed", CHECKS.as_slice())
}
