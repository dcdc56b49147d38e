//! Reads of one key: committed records, and unresolved ones, which are settled.
use crate::machine::{AnswerGiven, Machine, runs_to_end};
use crate::replies::{ABORTED, Answer, BAD_ROW, COMMITTED, reply_to};
use sdb_record::Access;
use sdb_txn::{ReadPhases, ReadStep};
use sdb_types::{Record, Records, TxId};
use std::alloc::Global;
use std::test::Fail;
use test_builders::{Case, Cell, account, account_with, all_cases, number_of};

const OTHER: TxId = TxId(0x1_0000_0000_0000_0001);

const OTHER_TEXT: &str = "00000000-0000-0001-0000-000000000001";

// A new row of the other transaction.
const PREPARED: Answer = Answer::Row(&[
    ("tx_id", Cell::Text(OTHER_TEXT)),
    ("tx_state", Cell::Int(1)),
    ("tx_version", Cell::Int(1)),
    ("tx_prepared_at", Cell::BigInt(1_000)),
    ("balance", Cell::Int(100)),
]);

// The same, committed at the moment of the coordinator's row.
const IMAGE: &[(&str, Cell)] = &[
    ("tx_id", Cell::Text(OTHER_TEXT)),
    ("tx_state", Cell::Int(3)),
    ("tx_version", Cell::Int(1)),
    ("tx_prepared_at", Cell::BigInt(1_000)),
    ("tx_committed_at", Cell::BigInt(1_020)),
    ("balance", Cell::Int(100)),
];

// A read, and the record as it was committed.
#[derive(Drop)]
struct Run {
    read: ReadPhases,
    image: Record,
}

fn told_of(images: &Records, image: &Record) -> AnswerGiven {
    match images.at(0) {
        Some(rec) if *rec == *image => AnswerGiven::Forward,
        Some(_) => AnswerGiven::Other,
        None => AnswerGiven::Back,
    }
}

fn told_by(step: &ReadStep, image: &Record) -> AnswerGiven {
    match step {
        ReadStep::More => AnswerGiven::More,
        ReadStep::Images(images) => told_of(images, image),
        ReadStep::Busy(key, id, 1_000) if number_of(key) == Some(1) && id.0 == OTHER.0 =>
            AnswerGiven::Busy,
        ReadStep::Busy(_, _, _) => AnswerGiven::Other,
        ReadStep::Faulted => AnswerGiven::Faulted,
        ReadStep::BadRecord(_) => AnswerGiven::BadRecord,
        ReadStep::NoMemory => AnswerGiven::NoMemory,
    }
}

impl Machine for Run {
    fn give(&mut self, alloc: Global, answer: Answer, now: i64) -> AnswerGiven {
        match reply_to(alloc, self.read.request(), answer) {
            Some(reply) => told_by(&self.read.take(reply, now), &self.image),
            None => AnswerGiven::Other,
        }
    }

    fn is_over(&self) -> bool {
        self.read.request().is_none()
    }
}

// Answers to the calls of a read of an account, with what each comes to.
#[derive(Clone, Copy)]
struct Steps(&'static [(Answer, AnswerGiven)]);

static CASES: [Steps; 9] = [
    Steps(&[(Answer::NoRow, AnswerGiven::Back)]),
    Steps(&[(Answer::Row(IMAGE), AnswerGiven::Forward)]),
    Steps(&[(Answer::Fault, AnswerGiven::Faulted)]),
    Steps(&[(Answer::Starved, AnswerGiven::NoMemory)]),
    Steps(&[(BAD_ROW, AnswerGiven::BadRecord)]),
    // The row says COMMITTED: the record is rolled forward.
    Steps(&[
        (PREPARED, AnswerGiven::More),
        (COMMITTED, AnswerGiven::More),
        (Answer::Applied, AnswerGiven::Forward),
    ]),
    // The row says ABORTED: there was nothing before, and the record is removed.
    Steps(&[
        (PREPARED, AnswerGiven::More),
        (ABORTED, AnswerGiven::More),
        (Answer::NotMet, AnswerGiven::Back),
    ]),
    // No row is there, and the record has expired: ABORTED is put.
    Steps(&[
        (PREPARED, AnswerGiven::More),
        (Answer::NoRow, AnswerGiven::More),
        (Answer::Applied, AnswerGiven::More),
        (Answer::Applied, AnswerGiven::Back),
    ]),
    // The coordinator's row can't be read.
    Steps(&[
        (PREPARED, AnswerGiven::More),
        (Answer::Fault, AnswerGiven::Faulted),
    ]),
];

fn begin(alloc: Global) -> Result<ReadPhases, Fail> {
    Ok(ReadPhases::new(alloc, &Access::Get(account(alloc, 1)?))?)
}

impl Case for Steps {
    fn holds(self, alloc: Global) -> Result<bool, Fail> {
        let image = account_with(alloc, 1, IMAGE)?;
        let read = begin(alloc)?;
        Ok(runs_to_end(alloc, Run { read, image }, self.0))
    }
}

#[test]
fn reads_settle_what_they_find(rt: HostRuntime) -> Result<(), Fail> {
    all_cases(rt.alloc(), "read", CASES.as_slice())
}
