//! The rules of the protocol, each decided.
ghost use Rattle.sdb_model.specs.Transactions.{is_done as is_done_lem};
ghost use Rattle.std.specs.Prelude.{◌≡◌, ◌&&◌, not, IfOk, is_some, slice_get, false, nat_lt, ◌^◌, ◌||◌};
ghost use Rattle.std.specs.Option.{option_copied, option_map_or};
ghost use Rattle.std.specs.List.{list_any, list_all, enumerate_from};
ghost use Rattle.sdb_types.specs.declared.record.Condition.TheVariants as condition;
ghost use Rattle.sdb_types.specs.declared.record.Request.TheVariants as ask;
ghost use Rattle.sdb_record.specs.Coordinator.{coordinator_row_of};
ghost use Rattle.sdb_record.specs.Meta.{is_moment as is_moment_lem};
ghost use Rattle.sdb_record.specs.Moved.{is_unchanged as is_unchanged_lem};
ghost use Rattle.sdb_model.specs.Sql.{reads_word as reads_word_lem};
ghost use Rattle.law_protocol.specs.Lawful.{is_quiet as is_quiet_lem};
ghost use Rattle.check_protocol.specs.Values.{item_of, same_request};
ghost use Rattle.check_protocol.specs.Started.{acknowledged_in, open_in, stopped_in, owner_of};
ghost use Rattle.check_protocol.specs.Rules.{matches_reply as matches_reply_lem, in_commit as in_commit_lem, begins_well, commits_well as commits_well_lem, starts_well, is_put as is_put_lem, puts_write as puts_write_lem, put_writes as put_writes_lem, are_new as are_new_lem, prepares_well, is_as_read as is_as_read_lem, are_as_read as are_as_read_lem, finds_read as finds_read_lem, checks_well, same_read as same_read_lem, agrees_at as agrees_at_lem, agrees as agrees_lem, is_item_checked as is_item_checked_lem, is_ready as is_ready_lem, decides_well, aborts_well, stops_well, are_shut as are_shut_lem, is_shut as is_shut_lem, is_left as is_left_lem};

use crate::commit::{are_valid_items, are_valid_writes, prepared_by};
use crate::keys::are_some;
use crate::puts::puts_asked;
use crate::{
    Ack, Action, Labelled, Plan, ReadItem, is_acknowledged, is_asked, is_begun, is_checked,
    is_commit_started, is_deciding, is_open, is_past_prepares, is_same_key, is_same_put,
    is_same_request, is_same_span, is_stopped, items_of, moment_of, owner, record_among,
    version_among, version_read, write_of, writes_of,
};
use sdb_model::{Answer, Boxed, Event, Keyword};
use sdb_record::{
    Decision, Read, Scan, Write, condition_of, coordinator_row, has_version, is_same_version,
    version_of,
};
use sdb_sqltext::reads_word;
use sdb_types::{Condition, Key, NoMemory, Put, Record, Reply, Request, State, TxId, Txt};
use std::alloc::Global;

const LAST_MOMENT: i64 = 9_007_199_254_740_992;

fn is_moment(moment: i64) -> bool
    ensures { result ≡ is_moment_lem moment }
{
    moment >= 0 && moment <= LAST_MOMENT
}

fn reads(alloc: Global, text: &Txt, word: Keyword) -> Result<bool, NoMemory>
    ensures { IfOk result (λ reads. reads ≡ reads_word_lem word text.now) }
{
    reads_word(alloc, text.as_str().as_bytes(), word)
}

fn is_done(answer: &Option<Boxed<Answer>>) -> bool
    ensures { result ≡ is_done_lem answer.now }
{
    match answer {
        Some(answer) => matches!(answer.get(), Answer::Done),
        None => false,
    }
}

// An id has 128 bits.
fn fits(id: TxId) -> bool
    ensures { result ≡ nat_lt id.0 (2 ^ 128) }
{
    let _number = id.0;
    true
}

fn fits_reply(word: Ack, reply: &Reply) -> bool
    ensures { result ≡ matches_reply_lem word reply.now }
{
    match (word, reply) {
        (Ack::Yes, Reply::Applied) => true,
        (Ack::No, Reply::NotMet(_)) => true,
        (Ack::No, Reply::NotAll(_, _)) => true,
        (Ack::OutOfMemory, Reply::NoMemory) => true,
        (Ack::NoAck, Reply::Found(_)) => true,
        (Ack::NoAck, Reply::Rows(_)) => true,
        (Ack::NoAck, Reply::Fault) => true,
        _ => false,
    }
}

fn in_commit(past: &[Labelled], client: u32, id: TxId) -> bool
    ensures { result ≡ in_commit_lem past.now client id.0 }
{
    is_commit_started(past, id)
        && (is_open(past, id) && (owner(past, id) == client && !is_stopped(past, client)))
}

/// BEGIN: it is answered, and the id is new.
pub fn may_begin(
    alloc: Global,
    past: &[Labelled],
    event: &Event,
    id: TxId,
    client: u32,
) -> Result<bool, NoMemory>
    ensures { IfOk result (λ well. well ≡ begins_well past.now event.now id.0 client) }
{
    match event {
        Event::Take(by, text, answer) => {
            let begins = reads(alloc, text, Keyword::Begin)?;
            let open = is_done(answer) && (!is_begun(past, id) && fits(id));
            Ok(*by == client && (begins && open))
        }
        _ => Ok(false),
    }
}

fn commits_well(
    alloc: Global,
    observed: &[Record],
    past: &[Labelled],
    plans: &[Plan],
    id: TxId,
) -> Result<bool, NoMemory>
    ensures { IfOk result (λ well. well ≡ commits_well_lem observed.now past.now plans.now id.0) }
{
    if is_commit_started(past, id) || !is_moment(moment_of(plans, id)) {
        return Ok(false);
    }
    if !are_valid_writes(alloc, observed, writes_of(plans, id))? {
        return Ok(false);
    }
    are_valid_items(alloc, observed, items_of(plans, id))
}

/// The taking of a COMMIT: the transaction is open and has no other, and what it read was observed.
pub fn may_take(
    alloc: Global,
    observed: &[Record],
    past: &[Labelled],
    plans: &[Plan],
    event: &Event,
    id: TxId,
) -> Result<bool, NoMemory>
    ensures { IfOk result (λ well. well ≡ starts_well observed.now past.now plans.now event.now id.0) }
{
    match event {
        Event::Take(by, text, _) => {
            if !reads(alloc, text, Keyword::Commit)? {
                return Ok(false);
            }
            if !(owner(past, id) == *by && (is_open(past, id) && !is_stopped(past, *by))) {
                return Ok(false);
            }
            commits_well(alloc, observed, past, plans, id)
        }
        _ => Ok(false),
    }
}

fn is_put(put: &Put, write: Option<&Write>, rec: Option<Record>) -> bool
    ensures { result ≡ is_put_lem put.now (option_copied write.entry) rec }
{
    match write {
        None => false,
        Some(write) => match rec {
            None => false,
            Some(rec) => {
                let condition = condition_of(version_of(&write.base));
                is_same_put(put, &Put { rec, condition })
            }
        },
    }
}

fn puts_write(
    alloc: Global,
    id: TxId,
    now: i64,
    write: Option<&Write>,
    put: &Put,
) -> Result<bool, NoMemory>
    ensures { IfOk result (λ puts. puts ≡ puts_write_lem id.0 now (option_copied write.entry) put.now) }
{
    let rec = prepared_by(alloc, id, now, write)?;
    Ok(is_put(put, write, rec))
}

// Whether the puts prepare the writes of the keys, one after another.
fn put_writes(
    alloc: Global,
    id: TxId,
    now: i64,
    writes: &[Write],
    keys: &[Key],
    puts: &[Put],
) -> Result<bool, NoMemory>
    ensures { IfOk result (λ well. well ≡ put_writes_lem id.0 now writes.now keys.now puts.now) }
{
    match (keys.split_first(), puts.split_first()) {
        (None, None) => Ok(true),
        (Some((key, others)), Some((put, more))) => {
            if !puts_write(alloc, id, now, write_of(writes, key), put)? {
                return Ok(false);
            }
            put_writes(alloc, id, now, writes, others, more)
        }
        (None, Some(_)) | (Some(_), None) => Ok(false),
    }
}

fn are_new(past: &[Labelled], id: TxId, keys: &[Key]) -> bool
    ensures { result ≡ are_new_lem past.now id.0 keys.now }
{
    keys.iter().all(|key| !is_asked(past, id, key))
}

/// A prepare: of writes, where their bases are still there, each once, and before any check.
pub fn may_prepare(
    alloc: Global,
    past: &[Labelled],
    plans: &[Plan],
    event: &Event,
    id: TxId,
    keys: &[Key],
    word: Ack,
) -> Result<bool, NoMemory>
    ensures { IfOk result (λ well. well ≡ prepares_well past.now plans.now event.now id.0 keys.now word) }
{
    match event {
        Event::Call(client, _, request, _, reply, _) => {
            if !in_commit(past, *client, id) || !fits_reply(word, reply.get()) {
                return Ok(false);
            }
            if is_past_prepares(past, id) || !are_new(past, id, keys) {
                return Ok(false);
            }
            if !are_some(keys) {
                return Ok(false);
            }
            match puts_asked(alloc, request.get())? {
                None => Ok(false),
                Some(puts) => put_writes(
                    alloc,
                    id,
                    moment_of(plans, id),
                    writes_of(plans, id),
                    keys,
                    puts.as_slice(),
                ),
            }
        }
        _ => Ok(false),
    }
}

// Whether what is found is still of the version.
fn is_unmoved(found: Option<&Record>, version: Option<TxId>) -> bool
    ensures { result ≡ is_unchanged_lem (option_copied found.entry) version }
{
    match (found, version) {
        (Some(rec), Some(id)) => has_version(rec, id, State::Committed),
        (None, None) => true,
        _ => false,
    }
}

fn is_as_noted(writes: &[Write], scan: &Scan, rows: &[Record], key: &Key) -> bool
    ensures { result ≡ is_as_read_lem writes.now scan.now rows.now key.now }
{
    !scan.span.contains(key)
        || (write_of(writes, key).is_some()
            || is_unmoved(
                record_among(rows, key),
                version_among(scan.found.as_slice(), key),
            ))
}

fn rows_as_noted(writes: &[Write], scan: &Scan, rows: &[Record]) -> bool
    ensures { result ≡ list_all (λ r. is_as_read_lem writes.now scan.now rows.now r.key) rows.now }
{
    for row in rows {
        if !is_as_noted(writes, scan, rows, &row.key) {
            return false;
        }
    }
    true
}

fn found_as_noted(writes: &[Write], scan: &Scan, rows: &[Record], found: &[Read]) -> bool
    ensures { result ≡ list_all (λ r. is_as_read_lem writes.now scan.now rows.now r.key) found.now }
{
    for read in found {
        if !is_as_noted(writes, scan, rows, &read.key) {
            return false;
        }
    }
    true
}

fn are_as_noted(writes: &[Write], scan: &Scan, rows: &[Record]) -> bool
    ensures { result ≡ are_as_read_lem writes.now scan.now rows.now }
{
    rows_as_noted(writes, scan, rows) && found_as_noted(writes, scan, rows, scan.found.as_slice())
}

fn finds_noted(writes: &[Write], item: &ReadItem, request: &Request, reply: &Reply) -> bool
    ensures { result ≡ finds_read_lem writes.now item.now request.now reply.now }
{
    match (item, request, reply) {
        (ReadItem::KeyRead(read), Request::Get(key), Reply::Found(found)) => {
            is_same_key(key, &read.key) && sdb_record::is_unchanged(found, read.version)
        }
        (ReadItem::SpanRead(scan), Request::Scan(span), Reply::Rows(rows)) => {
            is_same_span(span, &scan.span) && are_as_noted(writes, scan, rows.as_slice())
        }
        _ => false,
    }
}

fn finds(
    read_set: &[ReadItem],
    i: usize,
    writes: &[Write],
    request: &Request,
    reply: &Reply,
) -> bool
    ensures { result ≡ option_map_or (λ n. finds_read_lem writes.now n request.now reply.now) (slice_get read_set.now i) false }
{
    match read_set.get(i) {
        Some(item) => finds_noted(writes, item, request, reply),
        None => false,
    }
}

/// A check: it reads again what was read and finds all as it was, before the put of COMMITTED.
pub fn may_check(past: &[Labelled], plans: &[Plan], event: &Event, id: TxId, i: usize) -> bool
    ensures { result ≡ checks_well past.now plans.now event.now id.0 i }
{
    match event {
        Event::Call(client, _, request, _, reply, _) => {
            in_commit(past, *client, id)
                && (!is_deciding(past, id)
                    && finds(
                        items_of(plans, id),
                        i,
                        writes_of(plans, id),
                        request.get(),
                        reply.get(),
                    ))
        }
        _ => false,
    }
}

fn same_noted(as_read: Option<Option<TxId>>, base: Option<TxId>) -> bool
    ensures { result ≡ same_read_lem as_read base }
{
    match as_read {
        None => true,
        Some(version) => is_same_version(version, base),
    }
}

fn agrees_at(writes: &[Write], item: &ReadItem, write: &Write) -> bool
    ensures { result ≡ agrees_at_lem writes.now item.now write.now }
{
    match write_of(writes, &write.key) {
        Some(first) => same_noted(version_read(item, &write.key), version_of(&first.base)),
        None => true,
    }
}

fn agrees(writes: &[Write], item: &ReadItem) -> bool
    ensures { result ≡ agrees_lem writes.now item.now }
{
    for write in writes {
        if !agrees_at(writes, item, write) {
            return false;
        }
    }
    true
}

fn is_note_checked(past: &[Labelled], id: TxId, writes: &[Write], i: usize, item: &ReadItem) -> bool
    ensures { result ≡ is_item_checked_lem past.now id.0 writes.now i item.now }
{
    match item {
        ReadItem::KeyRead(read) => write_of(writes, &read.key).is_some() || is_checked(past, id, i),
        ReadItem::SpanRead(_) => is_checked(past, id, i),
    }
}

fn all_told(past: &[Labelled], id: TxId, writes: &[Write]) -> bool
    ensures { result ≡ list_all (λ w. acknowledged_in past.now id.0 w.key) writes.now }
{
    for write in writes {
        if !is_acknowledged(past, id, &write.key) {
            return false;
        }
    }
    true
}

fn all_agree(writes: &[Write], read_set: &[ReadItem]) -> bool
    ensures { result ≡ list_all (agrees_lem writes.now) read_set.now }
{
    for item in read_set {
        if !agrees(writes, item) {
            return false;
        }
    }
    true
}

fn all_checked(past: &[Labelled], id: TxId, writes: &[Write], read_set: &[ReadItem]) -> bool
    ensures { result ≡ list_all (λ e. is_item_checked_lem past.now id.0 writes.now e.0 e.1) (enumerate_from 0 read_set.now) }
{
    read_set
        .iter()
        .enumerate()
        .all(|(i, item)| is_note_checked(past, id, writes, i, item))
}

fn is_ready(past: &[Labelled], id: TxId, writes: &[Write], read_set: &[ReadItem]) -> bool
    ensures { result ≡ is_ready_lem past.now id.0 writes.now read_set.now }
{
    all_told(past, id, writes)
        && (all_agree(writes, read_set) && all_checked(past, id, writes, read_set))
}

// Whether a request puts this row, where there is none.
fn puts_row(
    alloc: Global,
    request: &Request,
    id: TxId,
    decision: Decision,
    moment: i64,
) -> Result<bool, NoMemory>
    ensures { IfOk result (λ puts. puts ≡ same_request request.now (ask.PutIf (coordinator_row_of id decision moment) condition.Absent)) }
{
    let row = coordinator_row(alloc, id, decision, moment)?;
    let put = Request::PutIf(row, Condition::Absent);
    Ok(is_same_request(request, &put))
}

/// The put of COMMITTED: each write was prepared and each read of the read set checked.
pub fn may_decide(
    alloc: Global,
    past: &[Labelled],
    plans: &[Plan],
    event: &Event,
    id: TxId,
    word: Ack,
) -> Result<bool, NoMemory>
    ensures { IfOk result (λ well. well ≡ decides_well past.now plans.now event.now id.0 word) }
{
    match event {
        Event::Call(client, _, request, _, reply, _) => {
            if !in_commit(past, *client, id) || !fits_reply(word, reply.get()) {
                return Ok(false);
            }
            if !puts_row(
                alloc,
                request.get(),
                id,
                Decision::Committed,
                moment_of(plans, id),
            )? {
                return Ok(false);
            }
            Ok(is_ready(past, id, writes_of(plans, id), items_of(plans, id)))
        }
        _ => Ok(false),
    }
}

/// A put of a row ABORTED, by anybody.
pub fn may_abort(
    alloc: Global,
    event: &Event,
    id: TxId,
    moment: i64,
    word: Ack,
) -> Result<bool, NoMemory>
    ensures { IfOk result (λ well. well ≡ aborts_well event.now id.0 moment word) }
{
    match event {
        Event::Call(_, _, request, _, reply, _) => {
            if !fits_reply(word, reply.get()) || !is_moment(moment) {
                return Ok(false);
            }
            if !fits(id) {
                return Ok(false);
            }
            puts_row(alloc, request.get(), id, Decision::Aborted, moment)
        }
        _ => Ok(false),
    }
}

pub fn may_stop(event: &Event, client: u32) -> bool
    ensures { result ≡ stops_well event.now client }
{
    match event {
        Event::Stop(by) => *by == client,
        _ => false,
    }
}

/// No part: the event changes nothing at the stores, and is no stop.
pub fn is_quiet(event: &Event) -> bool
    ensures { result ≡ is_quiet_lem event.now }
{
    match event {
        Event::Take(_, _, _) => true,
        Event::Call(_, _, request, _, _, _) => match request.get() {
            Request::Get(_) => true,
            Request::Scan(_) => true,
            Request::PutIf(_, _) => false,
            Request::DeleteIf(_, _) => false,
            Request::PutAll(_) => false,
        },
        Event::Stop(_) => false,
        Event::Clock(_) => true,
        Event::Idle(_) => true,
        Event::Land(_, _, _, _, _) => false,
        Event::Alter(_, _, _, _) => true,
    }
}

// It is not open, or its client has stopped.
#[tactic(auto, unfolding(crate::specs::Rules::is_left))]
fn is_left(past: &[Labelled], id: TxId) -> bool
    ensures { result ≡ is_left_lem past.now id.0 }
{
    if !is_open(past, id) {
        return true;
    }
    let client = owner(past, id);
    is_stopped(past, client)
}

fn is_shut(past: &[Labelled], action: &Action) -> bool
    ensures { result ≡ is_shut_lem past.now action.now }
{
    match action {
        Action::Begins(id, _) => is_left(past, *id),
        _ => true,
    }
}

/// Whether no transaction is open of a client that hasn't stopped.
pub fn are_shut(past: &[Labelled]) -> bool
    ensures { result ≡ are_shut_lem past.now }
{
    for labelled in past {
        if !is_shut(past, &labelled.action) {
            return false;
        }
    }
    true
}
