//! Whether a batch may be put.
ghost use Rattle.std.specs.Prelude.{◌≡◌, map};
ghost use Rattle.std.specs.Bool.{Decides};
ghost use Rattle.std.specs.List.{list_all, list_any};
ghost use Rattle.std.specs.Option.{option_copied};
ghost use Rattle.std.specs.Ordering.{is_eq};
ghost use Rattle.sdb_types.specs.Order.{are_distinct, in_one_partition, key_cmp, same_partition};
ghost use Rattle.sdb_types.specs.Contents.{IsBatch, IsWellFormed, put_at as put_at_lem, put_keys, sent as sent_lem};

use crate::key::Key;
use crate::record::{Batch, Put, Request};

// One of the puts is of that key.
fn puts_key(puts: &[Put], key: &Key) -> bool
    ensures { result ≡ list_any (λ p. is_eq (key_cmp key.now p.rec.key)) puts.now }
{
    puts.iter().any(|put| key.compare(&put.rec.key).is_eq())
}

// No two of the puts are of one key.
fn are_once(puts: &[Put]) -> bool
    ensures { result ≡ are_distinct (put_keys puts.now) }
{
    let mut rest = puts;
    while let [first, others @ ..] = rest {
        if puts_key(others, &first.rec.key) {
            return false;
        }
        rest = others;
    }
    true
}

// Each is of the partition of this key.
fn are_beside(key: &Key, puts: &[Put]) -> bool
    ensures { result ≡ list_all (λ p. same_partition key.now p.rec.key) puts.now }
{
    puts.iter().all(|put| key.is_beside(&put.rec.key))
}

// They are of one partition of one table.
fn are_together(puts: &[Put]) -> bool
    ensures { result ≡ in_one_partition (put_keys puts.now) }
{
    match puts {
        [] => true,
        [first, others @ ..] => are_beside(&first.rec.key, others),
    }
}

/// The put of a place, counted from 1.
pub fn put_at(puts: &[Put], place: u32) -> Option<&Put>
    ensures { option_copied result ≡ put_at_lem puts.now place }
{
    puts.get(place.saturating_sub(1) as usize)
}

/// The call that makes these puts: one alone by itself, and else all at once. Takes no memory.
pub fn sent(puts: Batch) -> Request
    ensures { result ≡ sent_lem puts }
{
    if puts.len() != 1 {
        return Request::PutAll(puts);
    }
    let mut puts = puts.into_vec();
    match puts.pop() {
        Some(put) => {
            let (rec, condition) = put.into_parts();
            Request::PutIf(rec, condition)
        }
        None => Request::PutAll(Batch::from_vec(puts)),
    }
}

/// Whether a batch may be put: it has from 1 to 2^32 - 1 puts, whose keys differ and have one table and one partition.
pub fn is_batch(batch: &Batch) -> bool
    ensures { Decides result (IsBatch batch.now) }
{
    let puts = batch.as_slice();
    !puts.is_empty() && puts.len() < 4_294_967_296 && are_together(puts) && are_once(puts)
}

/// Whether a request may be made: a batch is one that may be put.
pub fn is_well_formed(request: &Request) -> bool
    ensures { Decides result (IsWellFormed request.now) }
{
    match request {
        Request::PutAll(batch) => is_batch(batch),
        Request::Get(_) | Request::Scan(_) | Request::PutIf(_, _) | Request::DeleteIf(_, _) => true,
    }
}
