//! What transactions go into their COMMITs with.
ghost use Rattle.std.specs.Prelude.{◌≡◌, find};
ghost use Rattle.std.specs.Option.{option_copied};
ghost use Rattle.sdb_model.specs.ReadSet.{version_read as version_read_lem};
ghost use Rattle.check_protocol.specs.Values.{item_of, planned, writes_in, items_in, moment_in};
ghost use Rattle.sdb_types.specs.Order.{same_key};
ghost use Rattle.sdb_record.specs.Among.{version_among as version_among_lem, write_among};

use crate::same::is_same_key;
use sdb_record::{Read, Scan, Write, Writes};
use sdb_types::{Key, Seq, TxId};

/// One item of a read set: a key with the version found there, or a span with the versions found in it.
#[derive(Debug)]
pub enum ReadItem {
    KeyRead(Read),
    SpanRead(Scan),
}

// By hand: each drop is then one call, where a derived one is written out at each exit, with a call for each field.
impl Drop for ReadItem {
    fn drop(self) {
        match self {
            ReadItem::KeyRead(_) => {}
            ReadItem::SpanRead(_) => {}
        }
    }
}

fn read_of<'a>(found: &'a [Read], key: &Key) -> Option<&'a Read>
    ensures { option_copied result ≡ find (λ r. same_key key.now r.key) found.now }
{
    for read in found {
        if is_same_key(key, &read.key) {
            return Some(read);
        }
    }
    None
}

/// The version that a scan found at a key.
pub fn version_among(found: &[Read], key: &Key) -> Option<TxId>
    ensures { result ≡ version_among_lem found.now key.now }
{
    match read_of(found, key) {
        Some(read) => read.version,
        None => None,
    }
}

/// What an item says of a key: nothing, or the version found there, none where there was no record.
pub fn version_read(item: &ReadItem, key: &Key) -> Option<Option<TxId>>
    ensures { result ≡ version_read_lem (item_of item.now) key.now }
{
    match item {
        ReadItem::KeyRead(read) => {
            if is_same_key(&read.key, key) {
                Some(read.version)
            } else {
                None
            }
        }
        ReadItem::SpanRead(scan) => {
            if scan.span.contains(key) {
                Some(version_among(scan.found.as_slice(), key))
            } else {
                None
            }
        }
    }
}

/// What a transaction goes into its COMMIT with: its writes, its read set in the order in which its items are checked, and the
/// moment of the COMMIT in milliseconds.
#[derive(Debug)]
pub struct Plan {
    pub id: TxId,
    pub writes: Writes,
    pub read_set: Seq<ReadItem>,
    pub now: i64,
}

// By hand: each drop is then one call, where a derived one is written out at each exit, with a call for each field.
impl Drop for Plan {
    fn drop(self) {
        let Plan {
            id: _,
            writes: _,
            read_set: _,
            now: _,
        } = self;
    }
}

fn plan_of(plans: &[Plan], id: TxId) -> Option<&Plan>
    ensures { option_copied result ≡ planned plans.now id.0 }
{
    for plan in plans {
        if id.0 == plan.id.0 {
            return Some(plan);
        }
    }
    None
}

/// The writes of a transaction, none where it has no plan.
pub fn writes_of(plans: &[Plan], id: TxId) -> &[Write]
    ensures { result.now ≡ writes_in plans.now id.0 }
{
    match plan_of(plans, id) {
        Some(plan) => plan.writes.as_slice(),
        None => &[],
    }
}

pub fn items_of(plans: &[Plan], id: TxId) -> &[ReadItem]
    ensures { result.now ≡ items_in plans.now id.0 }
{
    match plan_of(plans, id) {
        Some(plan) => plan.read_set.as_slice(),
        None => &[],
    }
}

pub fn moment_of(plans: &[Plan], id: TxId) -> i64
    ensures { result ≡ moment_in plans.now id.0 }
{
    match plan_of(plans, id) {
        Some(plan) => plan.now,
        None => 0,
    }
}

/// The write of a key.
pub fn write_of<'a>(writes: &'a [Write], key: &Key) -> Option<&'a Write>
    ensures { option_copied result ≡ write_among writes.now key.now }
{
    for write in writes {
        if is_same_key(key, &write.key) {
            return Some(write);
        }
    }
    None
}
