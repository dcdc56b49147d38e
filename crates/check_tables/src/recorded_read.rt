//! The read sets of transactions.
ghost use Rattle.std.specs.Prelude.{◌≡◌, ◌++◌, [], IfOk, OnOk, Some};
ghost use Rattle.std.specs.Option.{option_and_then, option_map};
ghost use Rattle.std.specs.List.{cons_option, flat_map};
ghost use Rattle.sdb_record.specs.Meta.{id_in};
ghost use Rattle.sdb_record.specs.Moved.{version_of};
ghost use Rattle.sdb_model.specs.ReadSet.{KeyRead, SpanRead, meaning_of as meaning_of_lem, read_of, reads_of as reads_of_lem, read_item_of as read_item_of_lem, read_items as read_items_lem, read_set_of as read_set_of_lem};
ghost use Rattle.sdb_contents.specs.Commits.{executed_of};
ghost use Rattle.check_protocol.specs.Values.{item_of as noted_of};
ghost use Rattle.check_tables.specs.Values.{all_made, made_of, all_items, items_by, items_of_statement};

use crate::finished::has_finished;
use crate::made::{Made, calls_of};
use crate::meaning::meaning_of;
use crate::request::reads_rows;
use crate::transaction::{client_of, inside_of, ordinal_of};
use check_protocol::{ReadItem, writer};
use sdb_contents::{Executed, statements_by};
use sdb_model::Event;
use sdb_record::{Read, Reads, Scan};
use sdb_types::{Duplicate, Key, NoMemory, Record, Reply, Request, Seq, Span, TxId};
use std::alloc::Global;

// The version of the record that a found record means, where it means one.
fn version_meant(calls: &[Made], rec: &Record) -> Option<Option<TxId>>
    ensures { result ≡ option_map (λ image. id_in image.columns) (meaning_of_lem (all_made calls.now) rec.now) }
{
    match meaning_of(calls, rec) {
        Some(image) => Some(writer(image)),
        None => None,
    }
}

fn add_read(reads: &mut Reads, calls: &[Made], rec: &Record) -> Result<(), NoMemory>
    ensures { OnOk result (reads.new ≡ reads.old ++ cons_option (option_map (λ image. read_of rec.now.key (Some image)) (meaning_of_lem (all_made calls.now) rec.now)) []) }
{
    match version_meant(calls, rec) {
        Some(version) => reads.push(Read {
            key: rec.key.copy()?,
            version,
        }),
        None => Ok(()),
    }
}

fn reads_of(alloc: Global, calls: &[Made], rows: &[Record]) -> Result<Reads, NoMemory>
    ensures { IfOk result (λ reads. reads ≡ reads_of_lem (all_made calls.now) rows.now) }
{
    let mut reads = Reads::new(alloc);
    for rec in rows {
        add_read(&mut reads, calls, rec)?;
    }
    Ok(reads)
}

fn version_found(calls: &[Made], found: &Option<Record>) -> Option<TxId>
    ensures { result ≡ version_of (option_and_then (meaning_of_lem (all_made calls.now)) found.now) }
{
    match found {
        Some(rec) => version_meant(calls, rec).flatten(),
        None => None,
    }
}

fn get_noted(calls: &[Made], key: &Key, found: &Option<Record>) -> Result<ReadItem, NoMemory>
    ensures { IfOk result (λ item. noted_of item ≡ KeyRead (read_of key.now (option_and_then (meaning_of_lem (all_made calls.now)) found.now))) }
{
    Ok(ReadItem::KeyRead(Read {
        key: key.copy()?,
        version: version_found(calls, found),
    }))
}

fn scan_noted(
    alloc: Global,
    calls: &[Made],
    span: &Span,
    rows: &[Record],
) -> Result<ReadItem, NoMemory>
    ensures { IfOk result (λ item. noted_of item ≡ SpanRead (record { span = span.now; found = reads_of_lem (all_made calls.now) rows.now })) }
{
    let found = reads_of(alloc, calls, rows)?;
    Ok(ReadItem::SpanRead(Scan {
        span: span.copy()?,
        found,
    }))
}

fn note_of(alloc: Global, calls: &[Made], made: &Made) -> Result<Option<ReadItem>, NoMemory>
    ensures { IfOk result (λ item. option_map noted_of item ≡ read_item_of_lem (all_made calls.now) made.now.request made.now.reply) }
{
    match (&made.request, &made.reply) {
        (Request::Get(key), Reply::Found(found)) => { Ok(Some(get_noted(calls, key, found)?)) }
        (Request::Scan(span), Reply::Rows(rows)) => {
            Ok(Some(scan_noted(alloc, calls, span, rows.as_slice())?))
        }
        _ => Ok(None),
    }
}

fn add_note(
    alloc: Global,
    read_set: &mut Seq<ReadItem>,
    calls: &[Made],
    made: &Made,
) -> Result<(), NoMemory>
    ensures { OnOk result (all_items read_set.new ≡ all_items read_set.old ++ items_by (all_made calls.now) (made_of made.now)) }
{
    if !reads_rows(made) {
        return Ok(());
    }
    match note_of(alloc, calls, made)? {
        Some(item) => read_set.push(item),
        None => Ok(()),
    }
}

#[tactic(auto, using(crate::proofs::Walks::notes_are))]
fn add_notes(alloc: Global, read_set: &mut Seq<ReadItem>, calls: &[Made]) -> Result<(), NoMemory>
    ensures { OnOk result (all_items read_set.new ≡ all_items read_set.old ++ read_items_lem (all_made calls.now)) }
{
    for made in calls {
        add_note(alloc, read_set, calls, made)?;
    }
    Ok(())
}

// Adds what one statement of a transaction read.
fn add_executed(
    alloc: Global,
    read_set: &mut Seq<ReadItem>,
    events: &[Event],
    client: u64,
    executed: &Executed,
) -> Result<(), NoMemory>
    ensures { OnOk result (all_items read_set.new ≡ all_items read_set.old ++ items_of_statement events.now client (executed_of executed.now)) }
{
    let calls = calls_of(alloc, events, client, executed)?;
    if !has_finished(alloc, calls.as_slice(), executed) {
        return Ok(());
    }
    add_notes(alloc, read_set, calls.as_slice())
}

fn add_all_executed(
    alloc: Global,
    read_set: &mut Seq<ReadItem>,
    events: &[Event],
    client: u64,
    all: &[Executed],
) -> Result<(), NoMemory>
    ensures { OnOk result (all_items read_set.new ≡ all_items read_set.old ++ flat_map (λ s. items_of_statement events.now client (executed_of s)) all.now) }
{
    for executed in all {
        add_executed(alloc, read_set, events, client, executed)?;
    }
    Ok(())
}

/// The read set of a transaction, in order: what the records mean that those of its statements read whose reads have finished.
#[tactic(auto, using(crate::proofs::Walks::all_noted))]
pub fn read_set_of(alloc: Global, events: &[Event], id: TxId) -> Result<Seq<ReadItem>, NoMemory>
    ensures { IfOk result (λ read_set. all_items read_set ≡ read_set_of_lem events.now id) }
{
    let client = client_of(id);
    let all = statements_by(alloc, client, events)?;
    let inside = inside_of(alloc, all.as_slice(), ordinal_of(id))?;
    let mut read_set = Seq::new(alloc);
    add_all_executed(alloc, &mut read_set, events, client, inside)?;
    Ok(read_set)
}
