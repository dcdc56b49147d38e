//! What calls do to records, as far as a report says it.
ghost use Rattle.std.specs.Prelude.{◌≡◌, ◌&&◌};
ghost use Rattle.std.specs.Option.{option_copied};
ghost use Rattle.sdb_types.specs.Order.{same_key};
ghost use Rattle.sdb_model.specs.Rows.{same_name};
ghost use Rattle.sdb_picture.specs.Effects as spec;

use sdb_model::How;
use sdb_record::{has_state, is_coordinator, is_same_version, is_tombstone, writer_of};
use sdb_types::{Batch, Condition, Key, Name, Put, Record, Reply, Request, State};

/// Whether a write took effect.
#[derive(Clone, Copy, Debug, PartialEq, Eq)]
pub enum Effect {
    /// It did, by the store's reply or by what was at its key.
    Sure,
    /// It is not known.
    Doubtful,
    Nothing,
}

/// What a put leaves at a key.
#[derive(Clone, Copy, Debug, PartialEq, Eq)]
pub enum Stage {
    /// A change that is prepared.
    Prepared,
    /// A deletion that is prepared.
    Deleting,
    Committed,
    /// The mark of a row that was deleted.
    Deleted,
    /// The record of an earlier transaction, over a prepared one.
    RolledBack,
    /// No record of the protocol.
    Other,
}

/// What a put of a coordinator's row says.
#[derive(Clone, Copy, Debug, PartialEq, Eq)]
pub enum Verdict {
    Committed,
    Aborted,
    Other,
}

/// Whether a write with this reply took effect.
pub fn effect_seen(reply: &Reply) -> Effect
    ensures { result ≡ spec.effect_seen reply.now }
{
    match reply {
        Reply::Applied => Effect::Sure,
        _ => Effect::Nothing,
    }
}

/// Whether a write whose call came to this took effect, as far as the reply says it by itself.
pub fn effect_of(how: How, reply: &Reply) -> Effect
    ensures { result ≡ spec.effect_of how reply.now }
{
    match how {
        How::Seen => effect_seen(reply),
        How::Lost => Effect::Doubtful,
        How::Discarded => Effect::Nothing,
        How::Delayed => Effect::Nothing,
        How::Broken => Effect::Doubtful,
    }
}

/// Whether a write changes its record, or may have changed it.
pub fn may_change(effect: Effect) -> bool
    ensures { result ≡ spec.may_change effect }
{
    match effect {
        Effect::Sure => true,
        Effect::Doubtful => true,
        Effect::Nothing => false,
    }
}

#[tactic(auto, unfolding(sdb_types::specs::Order::same_key))]
fn same_key_as(a: &Key, b: &Key) -> bool
    ensures { result ≡ same_key a.now b.now }
{
    a.compare(b).is_eq()
}

/// Whether two names are one.
pub fn same_name_as(a: &Name, b: &Name) -> bool
    ensures { result ≡ same_name a.now b.now }
{
    a.cmp(b).is_eq()
}

/// The put of a batch that writes a key, if there is one.
pub fn put_of_key<'a>(batch: &'a Batch, key: &Key) -> Option<&'a Put>
    ensures { option_copied result ≡ spec.put_of_key key.now batch.now }
{
    batch
        .as_slice()
        .iter()
        .find(|put| same_key_as(&put.rec.key, key))
}

fn writes(request: &Request, key: &Key) -> bool
    ensures { result ≡ spec.writes key.now request.now }
{
    match request {
        Request::Get(_) => false,
        Request::Scan(_) => false,
        Request::PutIf(rec, _) => same_key_as(&rec.key, key),
        Request::DeleteIf(at, _) => same_key_as(at, key),
        Request::PutAll(batch) => put_of_key(batch, key).is_some(),
    }
}

/// Whether two records are one: in one store, at one key.
pub fn is_same_place(store: &Name, key: &Key, other: &Name, at: &Key) -> bool
    ensures { result ≡ (same_name store.now other.now && same_key key.now at.now) }
{
    same_name_as(store, other) && same_key_as(key, at)
}

/// Whether a call on a store writes the record at a key of a store.
pub fn writes_at(at: &Name, request: &Request, store: &Name, key: &Key) -> bool
    ensures { result ≡ spec.writes_at at.now request.now store.now key.now }
{
    same_name_as(at, store) && writes(request, key)
}

// Whether a put over this version writes another transaction's record back.
fn is_back(condition: &Condition, rec: &Record) -> bool
    ensures { result ≡ spec.is_back condition.now rec.now }
{
    match condition {
        Condition::Absent => false,
        Condition::Version(id, _) => !is_same_version(writer_of(&rec.columns), Some(*id)),
    }
}

fn stage_of_committed(rec: &Record, condition: &Condition) -> Stage
    ensures { result ≡ spec.stage_of_committed rec.now condition.now }
{
    if is_back(condition, rec) {
        Stage::RolledBack
    } else if is_tombstone(rec) {
        Stage::Deleted
    } else {
        Stage::Committed
    }
}

/// What a put leaves at its key.
pub fn stage_of(rec: &Record, condition: &Condition) -> Stage
    ensures { result ≡ spec.stage_of rec.now condition.now }
{
    if has_state(&rec.columns, State::Prepared) {
        Stage::Prepared
    } else if has_state(&rec.columns, State::Deleted) {
        Stage::Deleting
    } else if has_state(&rec.columns, State::Committed) {
        stage_of_committed(rec, condition)
    } else {
        Stage::Other
    }
}

/// What the put of a coordinator's row says.
pub fn verdict_of(rec: &Record) -> Verdict
    ensures { result ≡ spec.verdict_of rec.now }
{
    if has_state(&rec.columns, State::Committed) {
        Verdict::Committed
    } else if has_state(&rec.columns, State::Aborted) {
        Verdict::Aborted
    } else {
        Verdict::Other
    }
}

/// Whether a record is a coordinator's row.
pub fn is_decision(rec: &Record) -> bool
    ensures { result ≡ spec.is_decision rec.now }
{
    is_coordinator(&rec.key.table)
}
