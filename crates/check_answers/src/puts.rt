//! What requests put, and what replies show at the keys that requests name.
ghost use Rattle.std.specs.Prelude.{◌≡◌, ◌&&◌, length};
ghost use Rattle.std.specs.List.{list_any};
ghost use Rattle.std.specs.Ordering.{is_eq};
ghost use Rattle.sdb_types.specs.declared.record.Request.TheVariants.{PutAll};
ghost use Rattle.sdb_types.specs.Order.{key_cmp, same_key};
ghost use Rattle.sdb_model.specs.Causes.{prepares_key as prepares_key_lem};
ghost use Rattle.sdb_model.specs.Requests.{any_of, records_put};
ghost use Rattle.sdb_model.specs.Transactions.{is_prepared_record as is_prepared_record_lem};
ghost use Rattle.check_tables.specs.Values.{made_of};
ghost use Rattle.check_answers.specs.Tests.{observes as observes_lem, same_found};

use crate::same::is_same_found;
use check_protocol::is_same_key;
use check_tables::{Made, is_prepared_record};
use sdb_types::{Key, Put, Record, Reply, Request, TxId, put_at};

/// How many records a request puts.
#[tactic(auto, using(crate::proofs::Maps::batch_length))]
pub fn puts_count(request: &Request) -> usize
    ensures { result ≡ length (records_put request.now) }
{
    match request {
        Request::PutIf(_, _) => 1,
        Request::PutAll(batch) => batch.len(),
        Request::Get(_) | Request::Scan(_) | Request::DeleteIf(_, _) => 0,
    }
}

fn one_puts_key(puts: &[Put], key: &Key) -> bool
    ensures { result ≡ list_any (λ r. is_eq (key_cmp r.key key.now)) (records_put (PutAll puts.now)) }
{
    match puts {
        [] => false,
        [put, rest @ ..] => put.rec.key.compare(key).is_eq() || one_puts_key(rest, key),
    }
}

/// Whether a request puts a record at a key.
#[tactic(auto, using(crate::proofs::Finds::one_found))]
pub fn puts_key(request: &Request, key: &Key) -> bool
    ensures { result ≡ list_any (λ r. is_eq (key_cmp r.key key.now)) (records_put request.now) }
{
    match request {
        Request::PutIf(rec, _) => rec.key.compare(key).is_eq(),
        Request::PutAll(batch) => one_puts_key(batch.as_slice(), key),
        Request::Get(_) | Request::Scan(_) | Request::DeleteIf(_, _) => false,
    }
}

/// Whether a record is one that a transaction prepares at a key.
pub fn is_prepared_at(rec: &Record, id: TxId, key: &Key) -> bool
    ensures { result ≡ (is_prepared_record_lem id rec.now && same_key rec.now.key key.now) }
{
    is_prepared_record(rec, id) && is_same_key(&rec.key, key)
}

fn one_prepares_key(puts: &[Put], id: TxId, key: &Key) -> bool
    ensures { result ≡ any_of (λ r. is_prepared_record_lem id r && same_key r.key key.now) (records_put (PutAll puts.now)) }
{
    match puts {
        [] => false,
        [put] => is_prepared_at(&put.rec, id, key),
        [put, rest @ ..] => { is_prepared_at(&put.rec, id, key) || one_prepares_key(rest, id, key) }
    }
}

/// Whether a call is a prepare of the key.
pub fn prepares_key(id: TxId, key: &Key, made: &Made) -> bool
    ensures { result ≡ prepares_key_lem id key.now (made_of made.now) }
{
    match &made.request {
        Request::PutIf(rec, _) => is_prepared_at(rec, id, key),
        Request::PutAll(batch) => one_prepares_key(batch.as_slice(), id, key),
        Request::Get(_) | Request::Scan(_) | Request::DeleteIf(_, _) => false,
    }
}

fn is_there(at: &Key, there: &Option<Record>, key: &Key, found: &Option<Record>) -> bool
    ensures { result ≡ (same_key at.now key.now && same_found there.now found.now) }
{
    is_same_key(at, key) && is_same_found(there.as_ref(), found)
}

/// Whether a reply shows this at a key that its request names.
#[tactic(auto, using(crate::proofs::Finds::one_found))]
pub fn observes(request: &Request, reply: &Reply, key: &Key, found: &Option<Record>) -> bool
    ensures { result ≡ observes_lem request.now reply.now key.now found.now }
{
    match (request, reply) {
        (Request::Get(at), Reply::Found(there)) => is_there(at, there, key, found),
        (Request::PutIf(rec, _), Reply::NotMet(there)) => is_there(&rec.key, there, key, found),
        (Request::DeleteIf(at, _), Reply::NotMet(there)) => is_there(at, there, key, found),
        (Request::PutAll(batch), Reply::NotAll(place, there)) => {
            match put_at(batch.as_slice(), *place) {
                Some(put) => is_there(&put.rec.key, there, key, found),
                None => false,
            }
        }
        _ => false,
    }
}
