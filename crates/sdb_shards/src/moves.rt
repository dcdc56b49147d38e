//! A partition copied from its home to another box, and deleted.
ghost use Rattle.std.specs.Prelude.{◌≡◌, ◌≢◌, ◌↔◌, ◌<◌, IsTrue, true, All, length, IfOk, IfErr, OnOk};
ghost use Rattle.std.specs.FinMap.{get as get_at};
ghost use Rattle.sdb_types.specs.declared.key.Key.{Key};
ghost use Rattle.sdb_types.specs.declared.record.Condition.TheVariants.{Absent};
ghost use Rattle.sdb_types.specs.declared.record.Request.TheVariants.{PutIf};
ghost use Rattle.sdb_types.specs.Order.{has_key, same_key};
ghost use Rattle.sdb_types.specs.Contents.{Contents, after, in_span, rows_in};
ghost use Rattle.sdb_shards.specs.Boxes.{HaveGrown, contents_at, held_in};
ghost use Rattle.sdb_shards.specs.Moves.{AreFree, ChangesOnly, IsCopied, IsCopyRefusal, IsDone, IsFree, IsGone, IsInTheWay, IsListing, IsStop, IsUndone, Shrinks, keys_of};

use crate::parts::Parts;
use crate::refused::MoveRefused;
use crate::version::{is_among, version_of};
use sdb_types::{Condition, Duplicate, Record, Records, Reply, Span};

// What a write that had to be applied came to.
fn applied(reply: Reply) -> Result<(), MoveRefused>
    ensures ok { OnOk result (IsDone reply) }
    ensures err { IfErr result (IsUndone reply) }
{
    match reply {
        Reply::Fault => Err(MoveRefused::Fault),
        Reply::NoMemory => Err(MoveRefused::NoMemory),
        Reply::Found(_)
        | Reply::Rows(_)
        | Reply::Applied
        | Reply::NotMet(_)
        | Reply::NotAll(_, _) => Ok(()),
    }
}

// The records that a scan came to.
fn rows_of(reply: Reply) -> Result<Records, MoveRefused>
    requires { IsListing reply }
    ensures ok { IfOk result (λ rows. reply ≡ Reply.Rows rows) }
    ensures err { IfErr result (IsUndone reply) }
{
    match reply {
        Reply::Rows(rows) => Ok(rows),
        Reply::NoMemory => Err(MoveRefused::NoMemory),
        _ => Err(MoveRefused::Fault),
    }
}

/// The records of a span in a box, in the order of their keys.
pub(crate) fn rows_at(boxes: &mut Parts, at: u32, span: &Span) -> Result<Records, MoveRefused>
    requires { at < length boxes.old }
    ensures rows { IfOk result (λ rows. rows ≡ rows_in span.now (contents_at boxes.old at)) }
    ensures held { held_in boxes.new ≡ held_in boxes.old }
    ensures grown { HaveGrown boxes.old boxes.new }
    ensures err { IfErr result (IsStop boxes.old boxes.new) }
{
    rows_of(boxes.scan(at, span))
}

// Whether a record can be deleted on its id and state, or is one of those that come.
fn is_free(coming: &[Record], rec: &Record) -> bool
    ensures { IsTrue result ↔ IsFree coming.now rec.now }
{
    version_of(rec).is_some() || is_among(coming, rec)
}

// Refuses the first record that can't be deleted and is none of those that come.
fn check_free(there: &[Record], coming: &[Record]) -> Result<(), MoveRefused>
    ensures free { OnOk result (AreFree coming.now there.now) }
    ensures err { IfErr result (IsInTheWay coming.now there.now) }
{
    for rec in there {
        if !is_free(coming, rec) {
            return Err(MoveRefused::Occupied(rec.key.copy()?));
        }
    }
    Ok(())
}

// Takes a record out of a box on its id and state, where it has them.
fn delete(boxes: &mut Parts, at: u32, rec: &Record) -> Result<(), MoveRefused>
    requires { at < length boxes.old }
    ensures changes { ChangesOnly (λ k. same_key k rec.now.key) at boxes.old boxes.new }
    ensures shrinks { Shrinks (contents_at boxes.old at) (contents_at boxes.new at) }
    ensures gone { OnOk result (IsGone (contents_at boxes.old at) (contents_at boxes.new at) rec.now) }
    ensures err { IfErr result (IsStop boxes.old boxes.new) }
{
    match version_of(rec) {
        Some(version) => applied(boxes.delete_if(at, &rec.key, &version)),
        None => Ok(()),
    }
}

// Takes records out of a box, up to the first call that fails.
fn clear(boxes: &mut Parts, at: u32, rows: &[Record]) -> Result<(), MoveRefused>
    requires { at < length boxes.old }
    ensures changes { ChangesOnly (has_key (keys_of rows.now)) at boxes.old boxes.new }
    ensures shrinks { Shrinks (contents_at boxes.old at) (contents_at boxes.new at) }
    ensures gone { OnOk result (All (IsGone (contents_at boxes.old at) (contents_at boxes.new at)) rows.now) }
    ensures err { IfErr result (IsStop boxes.old boxes.new) }
{
    for rec in rows {
        delete(boxes, at, rec)?;
    }
    Ok(())
}

/// Takes records out of a box, whatever comes of each call.
pub(crate) fn sweep(boxes: &mut Parts, at: u32, rows: &[Record])
    requires { at < length boxes.old }
    ensures { ChangesOnly (has_key (keys_of rows.now)) at boxes.old boxes.new }
{
    for rec in rows {
        let _replied = delete(boxes, at, rec);
    }
}

// Puts a record in a box, where there is none at its key.
fn put(boxes: &mut Parts, at: u32, rec: &Record) -> Result<(), MoveRefused>
    requires { at < length boxes.old }
    ensures changes { ChangesOnly (λ k. same_key k rec.now.key) at boxes.old boxes.new }
    ensures put { OnOk result (contents_at boxes.new at ≡ after (PutIf rec.now Absent) (contents_at boxes.old at)) }
    ensures err { IfErr result (IsStop boxes.old boxes.new) }
{
    applied(boxes.put_if(at, rec, &Condition::Absent))
}

// Puts records in a box, each where there is none at its key. Where the box had there no others than these contents, it then has them.
fn copy(boxes: &mut Parts, at: u32, rows: &[Record]) -> Result<(), MoveRefused>
    requires { at < length boxes.old }
    ensures changes { ChangesOnly (has_key (keys_of rows.now)) at boxes.old boxes.new }
    ensures copied { OnOk result ((m : Contents) → IsCopied rows.now m (contents_at boxes.old at) (contents_at boxes.new at)) }
    ensures err { IfErr result (IsStop boxes.old boxes.new) }
{
    for rec in rows {
        put(boxes, at, rec)?;
    }
    Ok(())
}

/// Copies the records of a partition from one box to another, and gives them.
pub(crate) fn copy_partition(
    boxes: &mut Parts,
    span: &Span,
    from: u32,
    to: u32,
) -> Result<Records, MoveRefused>
    requires from { from < length boxes.old }
    requires to { to < length boxes.old }
    requires other { from ≢ to }
    ensures changes { ChangesOnly (in_span span.now) to boxes.old boxes.new }
    ensures rows { IfOk result (λ rows. rows ≡ rows_in span.now (contents_at boxes.old from)) }
    ensures copied { OnOk result ((k : Key) → in_span span.now k ≡ true → get_at (contents_at boxes.new to) k ≡ get_at (contents_at boxes.old from) k) }
    ensures free { OnOk result (AreFree (rows_in span.now (contents_at boxes.old from)) (rows_in span.now (contents_at boxes.old to))) }
    ensures err { IfErr result (IsCopyRefusal (rows_in span.now (contents_at boxes.old from)) (rows_in span.now (contents_at boxes.old to)) boxes.old boxes.new) }
{
    let rows = rows_at(boxes, from, span)?;
    let there = rows_at(boxes, to, span)?;
    check_free(there.as_slice(), rows.as_slice())?;
    clear(boxes, to, there.as_slice())?;
    copy(boxes, to, rows.as_slice())?;
    Ok(rows)
}
