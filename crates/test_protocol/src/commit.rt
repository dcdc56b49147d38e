//! Whole COMMITs: of two deletes, and of one read.
ghost use Rattle.std.specs.Prelude.{All};
ghost use Rattle.sdb_snapshot.specs.Written.{HaveKeysOnce};
ghost use Rattle.sdb_record.specs.Rolls.{IsWrite};

use crate::machine::{AnswerGiven, Machine, conflict_at, if_own, runs_to_end};
use crate::replies::{ABORTED, Answer, BAD_ROW, COMMITTED, reply_to};
use crate::writes::two_deletes;
use sdb_phases::Outcome;
use sdb_record::{Read, Reads, Scans, Writes, version_of};
use sdb_txn::CommitPhases;
use sdb_types::{NameRefused, TxId};
use std::alloc::Global;
use std::test::Fail;
use test_builders::{Case, account, all_cases};

const OWN: TxId = TxId(0x1_0000_0000_0000_0001);

fn told_by(answer: &Option<Outcome>) -> AnswerGiven {
    match answer {
        None => AnswerGiven::More,
        Some(Outcome::Committed) => AnswerGiven::Committed,
        Some(Outcome::Conflict(key, found)) => conflict_at(key, version_of(found)),
        Some(Outcome::Expired(id)) => if_own(*id, OWN, AnswerGiven::Expired),
        Some(Outcome::Faulted) => AnswerGiven::Faulted,
        Some(Outcome::Unknown(id)) => if_own(*id, OWN, AnswerGiven::Unknown),
        Some(Outcome::BadRecord(_)) => AnswerGiven::BadRecord,
        Some(Outcome::NoMemory) => AnswerGiven::NoMemory,
    }
}

impl Machine for CommitPhases {
    fn give(&mut self, alloc: Global, answer: Answer, _now: i64) -> AnswerGiven {
        match reply_to(alloc, self.request(), answer) {
            Some(reply) => told_by(&self.take(reply)),
            None => AnswerGiven::Other,
        }
    }

    fn is_over(&self) -> bool {
        self.request().is_none()
    }
}

// Answers to the calls of a COMMIT, with what each comes to: of one that deletes two accounts, and of one that read an account
// and didn't find it.
#[derive(Clone, Copy)]
enum Steps {
    OfWrites(&'static [(Answer, AnswerGiven)]),
    OfARead(&'static [(Answer, AnswerGiven)]),
}

fn commit_plays(
    alloc: Global,
    writes: Writes,
    reads: Reads,
    steps: &[(Answer, AnswerGiven)],
) -> bool
    requires valid { All IsWrite writes }
    requires once { HaveKeysOnce writes }
{
    match CommitPhases::new(alloc, OWN, 7, writes, reads, Scans::new(alloc)) {
        Ok(commit) => runs_to_end(alloc, commit, steps),
        Err(_) => false,
    }
}

fn of_writes(alloc: Global, steps: &[(Answer, AnswerGiven)]) -> bool {
    match two_deletes(alloc) {
        Ok(writes) => commit_plays(alloc, writes, Reads::new(alloc), steps),
        Err(_) => false,
    }
}

fn one_read(alloc: Global) -> Result<Reads, NameRefused> {
    let mut reads = Reads::new(alloc);
    reads.push(Read {
        key: account(alloc, 1)?,
        version: None,
    })?;
    Ok(reads)
}

fn of_a_read(alloc: Global, steps: &[(Answer, AnswerGiven)]) -> bool {
    match one_read(alloc) {
        Ok(reads) => commit_plays(alloc, Writes::new(alloc), reads, steps),
        Err(_) => false,
    }
}

impl Case for Steps {
    fn holds(self, alloc: Global) -> Result<bool, Fail> {
        match self {
            Steps::OfWrites(steps) => Ok(of_writes(alloc, steps)),
            Steps::OfARead(steps) => Ok(of_a_read(alloc, steps)),
        }
    }
}

static CASES: [Steps; 9] = [
    // Two prepares, the deciding put, two rolls forward.
    Steps::OfWrites(&[
        (Answer::Applied, AnswerGiven::More),
        (Answer::Applied, AnswerGiven::More),
        (Answer::Applied, AnswerGiven::More),
        (Answer::Applied, AnswerGiven::More),
        (Answer::NotMet, AnswerGiven::Committed),
    ]),
    // A prepare that is not met: ABORTED is put, and the one before it is rolled back.
    Steps::OfWrites(&[
        (Answer::Applied, AnswerGiven::More),
        (BAD_ROW, AnswerGiven::More),
        (Answer::Applied, AnswerGiven::More),
        (Answer::Applied, AnswerGiven::Conflict(2, None)),
    ]),
    // The deciding put faults, no row is found, and ABORTED is put.
    Steps::OfWrites(&[
        (Answer::Applied, AnswerGiven::More),
        (Answer::Applied, AnswerGiven::More),
        (Answer::Fault, AnswerGiven::More),
        (Answer::NoRow, AnswerGiven::More),
        (Answer::Applied, AnswerGiven::More),
        (Answer::Applied, AnswerGiven::More),
        (Answer::Applied, AnswerGiven::Faulted),
    ]),
    // The deciding put faults, and its row is found.
    Steps::OfWrites(&[
        (Answer::Applied, AnswerGiven::More),
        (Answer::Applied, AnswerGiven::More),
        (Answer::Fault, AnswerGiven::More),
        (COMMITTED, AnswerGiven::More),
        (Answer::Applied, AnswerGiven::More),
        (Answer::Applied, AnswerGiven::Committed),
    ]),
    // It faults, and so does the look.
    Steps::OfWrites(&[
        (Answer::Applied, AnswerGiven::More),
        (Answer::Applied, AnswerGiven::More),
        (Answer::Fault, AnswerGiven::More),
        (Answer::Fault, AnswerGiven::Unknown),
    ]),
    // Another has put ABORTED.
    Steps::OfWrites(&[
        (Answer::Applied, AnswerGiven::More),
        (Answer::Applied, AnswerGiven::More),
        (ABORTED, AnswerGiven::More),
        (Answer::Applied, AnswerGiven::More),
        (Answer::NotMet, AnswerGiven::Expired),
    ]),
    // The deciding put is out of memory, and the put of ABORTED faults: nothing is rolled back.
    Steps::OfWrites(&[
        (Answer::Applied, AnswerGiven::More),
        (Answer::Applied, AnswerGiven::More),
        (Answer::Starved, AnswerGiven::More),
        (Answer::Fault, AnswerGiven::NoMemory),
    ]),
    // The account is read again, and found to be there in one of the cases.
    Steps::OfARead(&[
        (Answer::NoRow, AnswerGiven::More),
        (Answer::Applied, AnswerGiven::Committed),
    ]),
    Steps::OfARead(&[
        (BAD_ROW, AnswerGiven::More),
        (Answer::Applied, AnswerGiven::Conflict(1, None)),
    ]),
];

#[test]
fn commits_are_answered(rt: HostRuntime) -> Result<(), Fail> {
    all_cases(rt.alloc(), "commit", CASES.as_slice())
}
