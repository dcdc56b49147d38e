//! The writes of a transaction that deletes two accounts.
ghost use Rattle.std.specs.Prelude.{◌≡◌, [], ◌∷◌, ◌++◌, All, IfOk, None, OnOk};
ghost use Rattle.sdb_types.specs.Order.{same_key};
ghost use Rattle.sdb_record.specs.declared.write.Change.TheVariants as change;
ghost use Rattle.sdb_record.specs.Rolls.{IsWrite};
ghost use Rattle.sdb_snapshot.specs.Written.{HaveKeysOnce};

use sdb_record::{Change, Write, Writes};
use sdb_types::{Key, NameRefused, NoMemory};
use std::alloc::Global;
use test_builders::account;

fn is_same(a: &Key, b: &Key) -> bool
    ensures { result ≡ same_key a.now b.now }
{
    a.compare(b).is_eq()
}

fn push_delete(writes: &mut Writes, key: Key) -> Result<(), NoMemory>
    requires { All IsWrite writes.old }
    ensures valid { OnOk result (All IsWrite writes.new) }
    ensures pushed { OnOk result (writes.new ≡ writes.old ++ record { key = key; base = None; change = change.Delete } ∷ []) }
{
    writes.push(Write {
        key,
        base: None,
        change: Change::Delete,
    })
}

/// The accounts 1 and 2 are deleted, where nothing was found.
pub fn two_deletes(alloc: Global) -> Result<Writes, NameRefused>
    ensures valid { IfOk result (All IsWrite) }
    ensures once { IfOk result HaveKeysOnce }
{
    let first = account(alloc, 1)?;
    let second = account(alloc, 2)?;
    if is_same(&first, &second) {
        return Err(NameRefused::BadName);
    }
    let mut writes = Writes::new(alloc);
    push_delete(&mut writes, first)?;
    push_delete(&mut writes, second)?;
    Ok(writes)
}
