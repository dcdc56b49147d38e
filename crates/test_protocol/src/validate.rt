//! What extra reads give.
use crate::machine::{AnswerGiven, Machine, conflict_at, runs_to_end};
use crate::replies::{Answer, reply_to};
use sdb_record::{Change, Read, Reads, Scan, Scans, Write, Writes, version_of};
use sdb_types::{NameRefused, Record, Reply, Request, Seq, TxId};
use sdb_validate::{Validate, ValidateStep};
use std::alloc::Global;
use std::test::Fail;
use test_builders::{Case, Cell, account, account_with, all_cases, span_of};

const FIRST: TxId = TxId(0x1_0000_0000_0000_0001);

const SECOND: TxId = TxId(0x2_0000_0000_0000_0001);

// The id of the transaction that wrote a record, or none without a record.
type Version = Option<TxId>;

// The columns of a committed record that a transaction wrote, and one of the user's.
const OF_FIRST: &[(&str, Cell)] = &[
    ("balance", Cell::Int(100)),
    ("tx_id", Cell::Text("00000000-0000-0001-0000-000000000001")),
    ("tx_state", Cell::Int(3)),
];

const OF_SECOND: &[(&str, Cell)] = &[
    ("balance", Cell::Int(100)),
    ("tx_id", Cell::Text("00000000-0000-0002-0000-000000000001")),
    ("tx_state", Cell::Int(3)),
];

fn record_of(alloc: Global, n: i32, id: TxId) -> Result<Record, NameRefused> {
    let columns = if id.0 == FIRST.0 { OF_FIRST } else { OF_SECOND };
    account_with(alloc, n, columns)
}

fn found_of(alloc: Global, n: i32, version: Version) -> Result<Option<Record>, NameRefused> {
    match version {
        Some(id) => Ok(Some(record_of(alloc, n, id)?)),
        None => Ok(None),
    }
}

// A conflict is with what is there.
fn told_by(step: &ValidateStep) -> AnswerGiven {
    match step {
        ValidateStep::More => AnswerGiven::More,
        ValidateStep::Valid => AnswerGiven::Done,
        ValidateStep::Conflict(key, found) => conflict_at(key, version_of(found)),
        ValidateStep::Faulted => AnswerGiven::Faulted,
        ValidateStep::NoMemory => AnswerGiven::NoMemory,
    }
}

impl Machine for Validate {
    fn give(&mut self, alloc: Global, answer: Answer, _now: i64) -> AnswerGiven {
        match reply_to(alloc, self.request(), answer) {
            Some(reply) => told_by(&self.take(reply)),
            None => AnswerGiven::Other,
        }
    }

    fn is_over(&self) -> bool {
        self.request().is_none()
    }
}

fn push_read(
    alloc: Global,
    reads: &mut Reads,
    n: i32,
    version: Version,
) -> Result<(), NameRefused> {
    let key = account(alloc, n)?;
    reads.push(Read { key, version })?;
    Ok(())
}

// The checks of a transaction that read the keys 1 and 2 by gets, in the versions of the first transaction and of none, and
// writes nothing.
fn rereads(alloc: Global) -> Result<Validate, NameRefused> {
    let mut reads = Reads::new(alloc);
    push_read(alloc, &mut reads, 1, Some(FIRST))?;
    push_read(alloc, &mut reads, 2, None)?;
    let scans = Scans::new(alloc);
    Ok(Validate::new(alloc, &reads, &scans, &Writes::new(alloc))?)
}

fn is_reread(alloc: Global, steps: &[(Answer, AnswerGiven)]) -> bool {
    match rereads(alloc) {
        Ok(validate) => runs_to_end(alloc, validate, steps),
        Err(_) => false,
    }
}

fn reads_of(alloc: Global, versions: &[Version]) -> Result<Reads, NameRefused> {
    let mut reads = Reads::new(alloc);
    let mut n = 0i32;
    for version in versions {
        n = n.wrapping_add(1);
        if version.is_some() {
            push_read(alloc, &mut reads, n, *version)?;
        }
    }
    Ok(reads)
}

// A scan of the table that found these versions of the keys 1, 2 and 3.
fn scan_of(alloc: Global, versions: &[Version]) -> Result<Scans, NameRefused> {
    let span = span_of(alloc, "bank", "account", None)?;
    let found = reads_of(alloc, versions)?;
    let mut scans = Scans::new(alloc);
    scans.push(Scan { span, found })?;
    Ok(scans)
}

// The delete of a key over a base of this version.
fn delete_of(alloc: Global, n: i32, version: Version) -> Result<Write, NameRefused> {
    let key = account(alloc, n)?;
    let base = found_of(alloc, n, version)?;
    Ok(Write {
        key,
        base,
        change: Change::Delete,
    })
}

// A delete of the key 1 over a base of this version, or no write.
fn writes_of(alloc: Global, base: Option<Version>) -> Result<Writes, NameRefused> {
    let mut own = Writes::new(alloc);
    if let Some(version) = base {
        own.push(delete_of(alloc, 1, version)?)?;
    }
    Ok(own)
}

// The pending rescan finds one row.
fn find_one(
    alloc: Global,
    validate: &mut Validate,
    row: Record,
) -> Result<AnswerGiven, NameRefused> {
    match validate.request() {
        Some(Request::Scan(span)) if span.contains(&row.key) => {}
        _ => return Ok(AnswerGiven::Other),
    }
    let mut rows = Seq::new(alloc);
    rows.push(row)?;
    Ok(told_by(&validate.take(Reply::Rows(rows))))
}

// The pending rescan finds two rows.
fn find_two(
    alloc: Global,
    validate: &mut Validate,
    first: Record,
    second: Record,
) -> Result<AnswerGiven, NameRefused> {
    if !first.key.compare(&second.key).is_lt() {
        return Ok(AnswerGiven::Other);
    }
    match validate.request() {
        Some(Request::Scan(span)) if span.contains(&first.key) && span.contains(&second.key) => {}
        _ => return Ok(AnswerGiven::Other),
    }
    let mut rows = Seq::new(alloc);
    rows.push(first)?;
    rows.push(second)?;
    Ok(told_by(&validate.take(Reply::Rows(rows))))
}

// The checks of a transaction whose scan found these versions of the keys 1, 2 and 3, and that deletes the key 1 over a base.
fn rescan_of(
    alloc: Global,
    found: &[Version],
    base: Option<Version>,
) -> Result<Validate, NameRefused> {
    let scans = scan_of(alloc, found)?;
    let own = writes_of(alloc, base)?;
    Ok(Validate::new(alloc, &Reads::new(alloc), &scans, &own)?)
}

// The rescan finds the key 1 in the first transaction's version.
fn finds_one(alloc: Global, validate: &mut Validate) -> Result<AnswerGiven, NameRefused> {
    match record_of(alloc, 1, FIRST) {
        Ok(row) => find_one(alloc, validate, row),
        Err(refused) => Err(refused),
    }
}

// The rescan finds the keys 2 and 3 in the second transaction's versions.
fn finds_two(alloc: Global, validate: &mut Validate) -> Result<AnswerGiven, NameRefused> {
    let second = record_of(alloc, 2, SECOND)?;
    let third = record_of(alloc, 3, SECOND)?;
    find_two(alloc, validate, second, third)
}

fn rescan_finds(
    alloc: Global,
    found: &[Version],
    base: Option<Version>,
    is_one: bool,
) -> Result<AnswerGiven, NameRefused> {
    let mut validate = rescan_of(alloc, found, base)?;
    if is_one {
        finds_one(alloc, &mut validate)
    } else {
        finds_two(alloc, &mut validate)
    }
}

// Answers to rereads with what each comes to; or what a scan found of the keys 1, 2 and 3, the base of an own delete of the key
// 1, and what a rescan comes to that finds one row, or two.
#[derive(Clone, Copy)]
enum Check {
    Rereads(&'static [(Answer, AnswerGiven)]),
    FindsOne(&'static [Version], Option<Version>, AnswerGiven),
    FindsTwo(&'static [Version], Option<Version>, AnswerGiven),
}

impl Case for Check {
    fn holds(self, alloc: Global) -> Result<bool, Fail> {
        match self {
            Check::Rereads(steps) => Ok(is_reread(alloc, steps)),
            Check::FindsOne(found, base, answered) => {
                Ok(rescan_finds(alloc, found, base, true)? == answered)
            }
            Check::FindsTwo(found, base, answered) => {
                Ok(rescan_finds(alloc, found, base, false)? == answered)
            }
        }
    }
}

const FOUND_FIRST: AnswerGiven = AnswerGiven::Conflict(1, Some(FIRST));

static CHECKS: [Check; 14] = [
    // Each key is read again.
    Check::Rereads(&[
        (Answer::Row(OF_FIRST), AnswerGiven::More),
        (Answer::NoRow, AnswerGiven::Done),
    ]),
    // A key that moved is a conflict.
    Check::Rereads(&[(
        Answer::Row(OF_SECOND),
        AnswerGiven::Conflict(1, Some(SECOND)),
    )]),
    Check::Rereads(&[(Answer::NoRow, AnswerGiven::Conflict(1, None))]),
    // Failures end it.
    Check::Rereads(&[(Answer::Fault, AnswerGiven::Faulted)]),
    Check::Rereads(&[(Answer::Starved, AnswerGiven::NoMemory)]),
    // A phantom is a conflict.
    Check::FindsOne(&[Some(FIRST), None, None], None, AnswerGiven::Done),
    Check::FindsOne(&[None, None, None], None, FOUND_FIRST),
    // A written key is left out if its base was found.
    Check::FindsOne(
        &[Some(SECOND), None, None],
        Some(Some(SECOND)),
        AnswerGiven::Done,
    ),
    Check::FindsOne(&[None, None, None], Some(None), AnswerGiven::Done),
    // A written key is a conflict if its base was not found. In the second case the row came between the scan and the write.
    Check::FindsOne(&[Some(FIRST), None, None], Some(Some(SECOND)), FOUND_FIRST),
    Check::FindsOne(&[None, None, None], Some(Some(FIRST)), FOUND_FIRST),
    // A conflict is the first in key order.
    Check::FindsTwo(
        &[Some(FIRST), None, Some(FIRST)],
        None,
        AnswerGiven::Conflict(1, None),
    ),
    Check::FindsTwo(
        &[None, None, Some(FIRST)],
        None,
        AnswerGiven::Conflict(2, Some(SECOND)),
    ),
    Check::FindsTwo(
        &[None, Some(SECOND), Some(FIRST)],
        None,
        AnswerGiven::Conflict(3, Some(SECOND)),
    ),
];

#[test]
fn extra_reads_are_checked(rt: HostRuntime) -> Result<(), Fail> {
    all_cases(rt.alloc(), "validate", CHECKS.as_slice())
}
