//! The records that replies showed, and what they say.
ghost use Rattle.std.specs.Prelude.{◌≡◌, ◌&&◌, ◌||◌, not, IfOk, OnOk, is_some, [], ◌++◌};
ghost use Rattle.std.specs.Option.{option_copied};
ghost use Rattle.std.specs.List.{list_any, cons_option};
ghost use Rattle.sdb_types.specs.declared.record.State.TheVariants.{Committed, Deleted};
ghost use Rattle.sdb_types.specs.Contents.{record_among as record_among_lem};
ghost use Rattle.sdb_record.specs.Ids.{id_of_text};
ghost use Rattle.sdb_record.specs.Meta.{id_in, id_in_value, is_in};
ghost use Rattle.sdb_record.specs.Names.{base_name, is_before, same_name};
ghost use Rattle.sdb_record.specs.Parts.{is_before_pair};
ghost use Rattle.check_protocol.specs.Observed.{is_first as is_first_lem, with_rows, with_found, with_reply, with_event, observed as observed_lem, writer_is as writer_is_lem, before_writer as before_writer_lem, has_tombstone_before as has_tombstone_before_lem, before_matches as before_matches_lem, is_before_image_of as is_before_image_of_lem, has_no_before as has_no_before_lem, is_prepared_at as is_prepared_at_lem, is_prepared_by as is_prepared_by_lem, decided as decided_lem, commits as commits_lem, aborts as aborts_lem, commit_moment as commit_moment_lem, row_moment as row_moment_lem, observes_commit as observes_commit_lem, observes_abort as observes_abort_lem, observes_bad_row as observes_bad_row_lem, moments as moments_lem, is_forward as is_forward_lem, is_forward_at as is_forward_at_lem, is_itself as is_itself_lem, is_back_to as is_back_to_lem, is_committed_by as is_committed_by_lem, has_before_by as has_before_by_lem, is_removed_by as is_removed_by_lem, has_removed_before_by as has_removed_before_by_lem, is_prepared_removed_by as is_prepared_removed_by_lem, has_trace as has_trace_lem, forward_from as forward_from_lem, is_settled as is_settled_lem, settles as settles_lem, settles_removed as settles_removed_lem};

use crate::labelled::Labelled;
use crate::same::{is_same_key, is_same_record};
use sdb_model::Event;
use sdb_record::{
    Decided, Decision, coordinator_key, decision_of, has_state, is_tombstone, rolled_forward,
    writer_of,
};
use sdb_types::{
    Columns, Duplicate, Key, NoMemory, Pair, Record, Records, Reply, Seq, State, TxId, Txt, Value,
    value_named,
};
use std::alloc::Global;

/// The first record of a key among some.
pub fn record_among<'a>(rows: &'a [Record], key: &Key) -> Option<&'a Record>
    ensures { option_copied result ≡ record_among_lem rows.now key.now }
{
    for row in rows {
        if is_same_key(key, &row.key) {
            return Some(row);
        }
    }
    None
}

fn is_first(rows: &[Record], rec: &Record) -> bool
    ensures { result ≡ is_first_lem rows.now rec.now }
{
    match record_among(rows, &rec.key) {
        Some(row) => is_same_record(row, rec),
        None => false,
    }
}

fn add_rows(found: &mut Records, rows: &[Record]) -> Result<(), NoMemory>
    ensures { OnOk result (found.new ≡ with_rows rows.now rows.now found.old) }
{
    for row in rows {
        if is_first(rows, row) {
            found.push(row.copy()?)?;
        }
    }
    Ok(())
}

fn add_found(found: &mut Records, rec: &Option<Record>) -> Result<(), NoMemory>
    ensures { OnOk result (found.new ≡ with_found rec.now found.old) }
{
    match rec {
        Some(rec) => {
            found.push(rec.copy()?)?;
            Ok(())
        }
        None => Ok(()),
    }
}

fn add_reply(found: &mut Records, reply: &Reply) -> Result<(), NoMemory>
    ensures { OnOk result (found.new ≡ with_reply reply.now found.old) }
{
    match reply {
        Reply::Found(rec) => add_found(found, rec),
        Reply::NotMet(rec) => add_found(found, rec),
        Reply::NotAll(_, rec) => add_found(found, rec),
        Reply::Rows(rows) => add_rows(found, rows.as_slice()),
        Reply::Applied => Ok(()),
        Reply::Fault => Ok(()),
        Reply::NoMemory => Ok(()),
    }
}

fn add_event(found: &mut Records, event: &Event) -> Result<(), NoMemory>
    ensures { OnOk result (found.new ≡ with_event event.now found.old) }
{
    match event {
        Event::Call(_, _, _, _, reply, _) => add_reply(found, reply.get()),
        _ => Ok(()),
    }
}

/// The records that replies showed, in the order of the events.
pub fn observed(alloc: Global, past: &[Labelled]) -> Result<Records, NoMemory>
    ensures { IfOk result (λ found. found ≡ observed_lem past.now) }
{
    let mut found = Seq::new(alloc);
    for labelled in past {
        add_event(&mut found, &labelled.event)?;
    }
    Ok(found)
}

fn is_text(name: &str, text: &str) -> bool
    ensures { result ≡ same_name name.now text.now }
{
    name.cmp(text).is_eq()
}

fn read_id(text: &Txt) -> Option<TxId>
    ensures { result ≡ id_of_text text.now }
{
    TxId::from_text(text)
}

fn id_of(value: Option<&Value>) -> Option<TxId>
    ensures { result ≡ id_in_value (option_copied value.entry) }
{
    match value {
        Some(Value::Text(text)) => read_id(text),
        _ => None,
    }
}

/// The transaction that wrote a record.
pub fn writer(rec: &Record) -> Option<TxId>
    ensures { result ≡ id_in rec.now.columns }
{
    writer_of(&rec.columns)
}

/// The transaction that wrote the record which a before image keeps.
pub fn before_writer(columns: &Columns) -> Option<TxId>
    ensures { result ≡ before_writer_lem columns.now }
{
    id_of(value_named(columns.pairs(), "before_tx_id"))
}

fn is_writer(writer: Option<TxId>, id: TxId) -> bool
    ensures { result ≡ writer_is_lem id.0 writer }
{
    match writer {
        Some(other) => id.0 == other.0,
        None => false,
    }
}

/// Whether a record is in state 3.
pub fn is_committed(rec: &Record) -> bool
    ensures { result ≡ is_in Committed rec.now.columns }
{
    has_state(&rec.columns, State::Committed)
}

fn is_deleted(rec: &Record) -> bool
    ensures { result ≡ is_in Deleted rec.now.columns }
{
    has_state(&rec.columns, State::Deleted)
}

fn keeps_tombstone(columns: &Columns) -> bool
    ensures { result ≡ has_tombstone_before_lem columns.now }
{
    match value_named(columns.pairs(), "before_tx_tombstone") {
        Some(value) => *value == Value::Bool(true),
        None => false,
    }
}

fn kept_name(name: &str) -> Option<&str>
    ensures { option_copied result ≡ base_name name.now }
{
    name.strip_prefix("before_")
}

fn keeps(kept: &[Pair], base: &[Pair]) -> bool
    ensures { result ≡ before_matches_lem kept.now base.now }
{
    match kept.split_first() {
        None => base.is_empty(),
        Some((pair, rest)) => match kept_name(pair.name.as_str()) {
            None => keeps(rest, base),
            Some(name) => match base.split_first() {
                None => false,
                Some((first, others)) => {
                    is_text(first.name.as_str(), name)
                        && (first.value == pair.value && keeps(rest, others))
                }
            },
        },
    }
}

/// Whether a record keeps this one as its before image.
pub fn is_before_image_of(rec: &Record, base: &Record) -> bool
    ensures { result ≡ is_before_image_of_lem rec.now base.now }
{
    is_same_key(&rec.key, &base.key)
        && (!base.columns.pairs().is_empty() && keeps(rec.columns.pairs(), base.columns.pairs()))
}

fn is_before_name(name: &str) -> bool
    ensures { result ≡ is_before name.now }
{
    kept_name(name).is_some()
}

fn has_kept(pairs: &[Pair]) -> bool
    ensures { result ≡ list_any is_before_pair pairs.now }
{
    for pair in pairs {
        if is_before_name(pair.name.as_str()) {
            return true;
        }
    }
    false
}

/// Whether it keeps none.
pub fn has_no_before(rec: &Record) -> bool
    ensures { result ≡ has_no_before_lem rec.now }
{
    !has_kept(rec.columns.pairs())
}

fn is_held(rec: &Record, key: &Key) -> bool
    ensures { result ≡ is_prepared_at_lem key.now rec.now }
{
    is_same_key(&rec.key, key) && !is_committed(rec)
}

pub fn is_prepared_by(rec: &Record, key: &Key, id: TxId) -> bool
    ensures { result ≡ is_prepared_by_lem id.0 key.now rec.now }
{
    is_held(rec, key) && is_writer(writer(rec), id)
}

/// The decision that a row of the coordinator records, or none where it is not well formed.
pub fn decided(alloc: Global, row: &Record) -> Option<Decided>
    ensures { result ≡ decided_lem row.now }
{
    match decision_of(alloc, row) {
        Ok(decided) => Some(decided),
        Err(_) => None,
    }
}

fn commits(decided: Option<Decided>) -> bool
    ensures { result ≡ commits_lem decided }
{
    match decided {
        Some(decided) => matches!(decided.decision, Decision::Committed),
        None => false,
    }
}

fn aborts(decided: Option<Decided>) -> bool
    ensures { result ≡ aborts_lem decided }
{
    match decided {
        Some(decided) => !matches!(decided.decision, Decision::Committed),
        None => false,
    }
}

fn commit_moment(decided: Option<Decided>) -> Option<i64>
    ensures { result ≡ commit_moment_lem decided }
{
    match decided {
        Some(decided) => match decided.decision {
            Decision::Committed => Some(decided.created_at),
            Decision::Aborted => None,
        },
        None => None,
    }
}

fn row_moment(alloc: Global, row: &Key, rec: &Record) -> Option<i64>
    ensures { result ≡ row_moment_lem row.now rec.now }
{
    if is_same_key(&rec.key, row) {
        commit_moment(decided(alloc, rec))
    } else {
        None
    }
}

/// What is looked for among records that were observed.
#[derive(Clone, Copy)]
enum Trace<'a> {
    /// This record.
    Itself(&'a Record),
    /// A record of the key that isn't committed, and keeps this one.
    Back(&'a Key, &'a Record),
    /// A committed record of the key and the transaction.
    Committed(&'a Key, TxId),
    /// A record of the key that isn't committed, and keeps one of the transaction.
    Kept(&'a Key, TxId),
    /// A record of the key and the transaction that isn't committed.
    Held(&'a Key, TxId),
    /// The same three, where what a read comes to is a tombstone.
    CommittedTombstone(&'a Key, TxId),
    KeptTombstone(&'a Key, TxId),
    HeldTombstone(&'a Key, TxId),
    /// A row of the coordinator at this key that says COMMITTED, that says ABORTED, or that is none.
    Commit(&'a Key),
    Abort(&'a Key),
    BadRow(&'a Key),
}

fn is_back_to(rec: &Record, key: &Key, base: &Record) -> bool
    ensures { result ≡ is_back_to_lem key.now base.now rec.now }
{
    is_held(rec, key) && (writer(rec).is_some() && is_before_image_of(rec, base))
}

fn is_committed_by(rec: &Record, key: &Key, id: TxId) -> bool
    ensures { result ≡ is_committed_by_lem id.0 key.now rec.now }
{
    is_same_key(&rec.key, key) && (is_committed(rec) && is_writer(writer(rec), id))
}

fn keeps_by(rec: &Record, key: &Key, id: TxId) -> bool
    ensures { result ≡ has_before_by_lem id.0 key.now rec.now }
{
    is_held(rec, key) && (writer(rec).is_some() && is_writer(before_writer(&rec.columns), id))
}

fn is_gone_by(rec: &Record, key: &Key, id: TxId) -> bool
    ensures { result ≡ is_removed_by_lem id.0 key.now rec.now }
{
    is_same_key(&rec.key, key)
        && (is_committed(rec) && (is_writer(writer(rec), id) && is_tombstone(rec)))
}

fn keeps_gone_by(rec: &Record, key: &Key, id: TxId) -> bool
    ensures { result ≡ has_removed_before_by_lem id.0 key.now rec.now }
{
    is_held(rec, key)
        && (writer(rec).is_some()
            && (is_writer(before_writer(&rec.columns), id) && keeps_tombstone(&rec.columns)))
}

fn is_held_gone_by(rec: &Record, key: &Key, id: TxId) -> bool
    ensures { result ≡ is_prepared_removed_by_lem id.0 key.now rec.now }
{
    is_prepared_by(rec, key, id) && (is_deleted(rec) || is_tombstone(rec))
}

fn has_trace(alloc: Global, rec: &Record, trace: Trace) -> bool
    ensures { result ≡ has_trace_lem trace.entry rec.now }
{
    match trace {
        Trace::Itself(base) => is_same_record(rec, base),
        Trace::Back(key, base) => is_back_to(rec, key, base),
        Trace::Committed(key, id) => is_committed_by(rec, key, id),
        Trace::Kept(key, id) => keeps_by(rec, key, id),
        Trace::Held(key, id) => is_prepared_by(rec, key, id),
        Trace::CommittedTombstone(key, id) => is_gone_by(rec, key, id),
        Trace::KeptTombstone(key, id) => keeps_gone_by(rec, key, id),
        Trace::HeldTombstone(key, id) => is_held_gone_by(rec, key, id),
        Trace::Commit(row) => is_same_key(&rec.key, row) && commits(decided(alloc, rec)),
        Trace::Abort(row) => is_same_key(&rec.key, row) && aborts(decided(alloc, rec)),
        Trace::BadRow(row) => is_same_key(&rec.key, row) && decided(alloc, rec).is_none(),
    }
}

fn any(alloc: Global, found_in: &[Record], trace: Trace) -> bool
    ensures { result ≡ list_any (has_trace_lem trace.entry) found_in.now }
{
    for rec in found_in {
        if has_trace(alloc, rec, trace) {
            return true;
        }
    }
    false
}

/// Whether a row of this key was observed that says COMMITTED.
pub fn observes_commit(alloc: Global, found_in: &[Record], row: &Key) -> bool
    ensures { result ≡ observes_commit_lem found_in.now row.now }
{
    any(alloc, found_in, Trace::Commit(row))
}

pub fn observes_abort(alloc: Global, found_in: &[Record], row: &Key) -> bool
    ensures { result ≡ observes_abort_lem found_in.now row.now }
{
    any(alloc, found_in, Trace::Abort(row))
}

/// Whether a row of this key was observed that is none.
pub fn observes_bad_row(alloc: Global, found_in: &[Record], row: &Key) -> bool
    ensures { result ≡ observes_bad_row_lem found_in.now row.now }
{
    any(alloc, found_in, Trace::BadRow(row))
}

fn add_moment(alloc: Global, found: &mut Seq<i64>, row: &Key, rec: &Record) -> Result<(), NoMemory>
    ensures { OnOk result (found.new ≡ found.old ++ cons_option (row_moment_lem row.now rec.now) []) }
{
    match row_moment(alloc, row, rec) {
        Some(moment) => found.push(moment),
        None => Ok(()),
    }
}

/// The moments of the rows COMMITTED of this key that were observed.
pub fn moments(alloc: Global, found_in: &[Record], row: &Key) -> Result<Seq<i64>, NoMemory>
    ensures { IfOk result (λ found. found ≡ moments_lem found_in.now row.now) }
{
    let mut found = Seq::new(alloc);
    for rec in found_in {
        add_moment(alloc, &mut found, row, rec)?;
    }
    Ok(found)
}

/// Whether this is what the record is rolled forward to at a moment.
pub fn is_forward_at(
    alloc: Global,
    rec: &Record,
    moment: i64,
    target: &Record,
) -> Result<bool, NoMemory>
    ensures { IfOk result (λ found. found ≡ is_forward_at_lem rec.now moment target.now) }
{
    let forward = rolled_forward(alloc, rec, moment)?;
    Ok(is_same_record(target, &forward))
}

/// Whether this is what the record is rolled forward to, at one of these moments.
pub fn is_forward(
    alloc: Global,
    rec: &Record,
    moments: &[i64],
    target: &Record,
) -> Result<bool, NoMemory>
    ensures { IfOk result (λ found. found ≡ is_forward_lem rec.now moments.now target.now) }
{
    for moment in moments {
        if is_forward_at(alloc, rec, *moment, target)? {
            return Ok(true);
        }
    }
    Ok(false)
}

fn is_itself(alloc: Global, found_in: &[Record], key: &Key, base: &Record) -> bool
    ensures { result ≡ is_itself_lem found_in.now key.now base.now }
{
    any(alloc, found_in, Trace::Itself(base)) && (is_same_key(&base.key, key) && is_committed(base))
}

fn forward_from(
    alloc: Global,
    found_in: &[Record],
    key: &Key,
    base: &Record,
    rec: &Record,
) -> Result<bool, NoMemory>
    ensures { IfOk result (λ found. found ≡ forward_from_lem found_in.now key.now base.now rec.now) }
{
    if !is_held(rec, key) {
        return Ok(false);
    }
    match writer(rec) {
        None => Ok(false),
        Some(id) => {
            let row = coordinator_key(alloc, id)?;
            let moments = moments(alloc, found_in, &row)?;
            is_forward(alloc, rec, moments.as_slice(), base)
        }
    }
}

fn any_forward(
    alloc: Global,
    found_in: &[Record],
    key: &Key,
    base: &Record,
) -> Result<bool, NoMemory>
    ensures { IfOk result (λ found. found ≡ list_any (forward_from_lem found_in.now key.now base.now) found_in.now) }
{
    for rec in found_in {
        if forward_from(alloc, found_in, key, base, rec)? {
            return Ok(true);
        }
    }
    Ok(false)
}

/// Whether a read of the key comes to this committed record.
pub fn is_settled(
    alloc: Global,
    found_in: &[Record],
    key: &Key,
    base: &Record,
) -> Result<bool, NoMemory>
    ensures { IfOk result (λ found. found ≡ is_settled_lem found_in.now key.now base.now) }
{
    if is_itself(alloc, found_in, key, base) || any(alloc, found_in, Trace::Back(key, base)) {
        return Ok(true);
    }
    any_forward(alloc, found_in, key, base)
}

/// Whether a read of the key comes to a committed record of this transaction.
pub fn settles(alloc: Global, found_in: &[Record], key: &Key, id: TxId) -> Result<bool, NoMemory>
    ensures { IfOk result (λ found. found ≡ settles_lem found_in.now key.now id.0) }
{
    if any(alloc, found_in, Trace::Committed(key, id))
        || any(alloc, found_in, Trace::Kept(key, id))
    {
        return Ok(true);
    }
    let row = coordinator_key(alloc, id)?;
    Ok(any(alloc, found_in, Trace::Held(key, id)) && observes_commit(alloc, found_in, &row))
}

/// Whether a read of the key comes to a tombstone of this transaction.
pub fn settles_removed(
    alloc: Global,
    found_in: &[Record],
    key: &Key,
    id: TxId,
) -> Result<bool, NoMemory>
    ensures { IfOk result (λ found. found ≡ settles_removed_lem found_in.now key.now id.0) }
{
    if any(alloc, found_in, Trace::CommittedTombstone(key, id))
        || any(alloc, found_in, Trace::KeptTombstone(key, id))
    {
        return Ok(true);
    }
    let row = coordinator_key(alloc, id)?;
    Ok(
        any(alloc, found_in, Trace::HeldTombstone(key, id))
            && observes_commit(alloc, found_in, &row),
    )
}
