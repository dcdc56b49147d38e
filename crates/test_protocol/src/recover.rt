//! The recovery of a record that was prepared at the moment 1,000.
use crate::machine::{AnswerGiven, EARLIER, EXPIRED, Machine, answer_after, if_row_of};
use crate::replies::{ABORTED, Answer, BAD_ROW, COMMITTED, reply_to};
use sdb_record::meta_of;
use sdb_recover::{Recover, RecoverStep};
use sdb_types::{NoMemory, Record, TxId};
use std::alloc::Global;
use std::test::Fail;
use test_builders::{Case, Cell, account_with, all_cases};

const OTHER: TxId = TxId(0x1_0000_0000_0000_0001);

const OTHER_TEXT: &str = "00000000-0000-0001-0000-000000000001";

// A new row of the other transaction.
static PREPARED: [(&str, Cell); 5] = [
    ("tx_id", Cell::Text(OTHER_TEXT)),
    ("tx_state", Cell::Int(1)),
    ("tx_version", Cell::Int(1)),
    ("tx_prepared_at", Cell::BigInt(1_000)),
    ("balance", Cell::Int(100)),
];

// The same, committed at the moment of the coordinator's row.
static IMAGE: [(&str, Cell); 6] = [
    ("tx_id", Cell::Text(OTHER_TEXT)),
    ("tx_state", Cell::Int(3)),
    ("tx_version", Cell::Int(1)),
    ("tx_prepared_at", Cell::BigInt(1_000)),
    ("tx_committed_at", Cell::BigInt(1_020)),
    ("balance", Cell::Int(100)),
];

// A recovery, and the record as it was committed.
#[derive(Drop)]
struct Run {
    recover: Recover,
    image: Record,
}

fn if_same(rec: &Record, image: &Record) -> AnswerGiven {
    if *rec == *image {
        AnswerGiven::Forward
    } else {
        AnswerGiven::Other
    }
}

fn if_prepared_at(id: TxId, prepared_at: i64) -> AnswerGiven {
    if id.0 == OTHER.0 && prepared_at == 1_000 {
        AnswerGiven::Busy
    } else {
        AnswerGiven::Other
    }
}

fn told_by(step: &RecoverStep, image: &Record) -> AnswerGiven {
    match step {
        RecoverStep::More => AnswerGiven::More,
        RecoverStep::Image(Some(rec)) => if_same(rec, image),
        RecoverStep::Image(None) => AnswerGiven::Back,
        RecoverStep::Busy(id, prepared_at) => if_prepared_at(*id, *prepared_at),
        RecoverStep::Faulted => AnswerGiven::Faulted,
        RecoverStep::BadRecord(key) => if_row_of(key, OTHER_TEXT, AnswerGiven::BadRecord),
        RecoverStep::NoMemory => AnswerGiven::NoMemory,
    }
}

impl Machine for Run {
    fn give(&mut self, alloc: Global, answer: Answer, now: i64) -> AnswerGiven {
        match reply_to(alloc, self.recover.request(), answer) {
            Some(reply) => told_by(&self.recover.take(reply, now), &self.image),
            None => AnswerGiven::Other,
        }
    }

    fn is_over(&self) -> bool {
        self.recover.request().is_none()
    }
}

// The recovery of an unresolved record.
fn recovery(alloc: Global, rec: Record) -> Result<Recover, NoMemory> {
    let Ok(meta) = meta_of(alloc, &rec) else {
        return Err(NoMemory);
    };
    if meta.is_committed() {
        return Err(NoMemory);
    }
    Recover::new(alloc, rec)
}

fn run_of(alloc: Global, rec: Record, image: Record) -> Option<Run> {
    match recovery(alloc, rec) {
        Ok(recover) => Some(Run { recover, image }),
        Err(_) => None,
    }
}

fn begin(alloc: Global) -> Option<Run> {
    if let Ok(image) = account_with(alloc, 1, IMAGE.as_slice())
        && let Ok(rec) = account_with(alloc, 1, PREPARED.as_slice())
    {
        return run_of(alloc, rec, image);
    }
    None
}

// Whether this answer after those says that, at a moment. The others come when the record has expired.
fn is_known(
    alloc: Global,
    before: &[Answer],
    now: i64,
    answer: Answer,
    answered: AnswerGiven,
) -> bool {
    match begin(alloc) {
        Some(run) => answer_after(alloc, run, before, answer, now) == answered,
        None => false,
    }
}

// Answers, and those that may come after them at a moment, each with what it says.
#[derive(Clone, Copy)]
struct Asked {
    before: &'static [Answer],
    now: i64,
    answers: &'static [(Answer, AnswerGiven)],
}

impl Case for Asked {
    fn holds(self, alloc: Global) -> Result<bool, Fail> {
        for (answer, answered) in self.answers {
            if !is_known(alloc, self.before, self.now, *answer, *answered) {
                return Ok(false);
            }
        }
        Ok(true)
    }
}

const TO_EARLY_LOOK: &[(Answer, AnswerGiven)] = &[
    (Answer::NoRow, AnswerGiven::Busy),
    (COMMITTED, AnswerGiven::More),
    (ABORTED, AnswerGiven::More),
    (Answer::Fault, AnswerGiven::Faulted),
    (Answer::Starved, AnswerGiven::NoMemory),
    (BAD_ROW, AnswerGiven::BadRecord),
];

const TO_LATE_LOOK: &[(Answer, AnswerGiven)] = &[
    (Answer::NoRow, AnswerGiven::More),
    (COMMITTED, AnswerGiven::More),
    (ABORTED, AnswerGiven::More),
    (Answer::Fault, AnswerGiven::Faulted),
    (Answer::Starved, AnswerGiven::NoMemory),
    (BAD_ROW, AnswerGiven::BadRecord),
];

const TO_ABORT: &[(Answer, AnswerGiven)] = &[
    (Answer::Applied, AnswerGiven::More),
    (COMMITTED, AnswerGiven::More),
    (ABORTED, AnswerGiven::More),
    (Answer::Fault, AnswerGiven::More),
    (Answer::Starved, AnswerGiven::NoMemory),
    (BAD_ROW, AnswerGiven::BadRecord),
];

const TO_SECOND_LOOK: &[(Answer, AnswerGiven)] = &[
    (COMMITTED, AnswerGiven::More),
    (ABORTED, AnswerGiven::More),
    (Answer::NoRow, AnswerGiven::Faulted),
    (Answer::Fault, AnswerGiven::Faulted),
    (Answer::Starved, AnswerGiven::NoMemory),
    (BAD_ROW, AnswerGiven::BadRecord),
];

const TO_FORWARD: &[(Answer, AnswerGiven)] = &[
    (Answer::Applied, AnswerGiven::Forward),
    (Answer::NotMet, AnswerGiven::Forward),
    (Answer::Fault, AnswerGiven::Faulted),
    (Answer::Starved, AnswerGiven::NoMemory),
];

const TO_BACK: &[(Answer, AnswerGiven)] = &[
    (Answer::Applied, AnswerGiven::Back),
    (Answer::NotMet, AnswerGiven::Back),
    (Answer::Fault, AnswerGiven::Faulted),
    (Answer::Starved, AnswerGiven::NoMemory),
];

// The row is looked for before 15 seconds have passed, and then; ABORTED is put, and the row is looked for a second time.
static LOOKS: [Asked; 4] = [
    Asked {
        before: &[],
        now: EARLIER,
        answers: TO_EARLY_LOOK,
    },
    Asked {
        before: &[],
        now: EXPIRED,
        answers: TO_LATE_LOOK,
    },
    Asked {
        before: &[Answer::NoRow],
        now: EXPIRED,
        answers: TO_ABORT,
    },
    Asked {
        before: &[Answer::NoRow, Answer::Fault],
        now: EXPIRED,
        answers: TO_SECOND_LOOK,
    },
];

// A row that says COMMITTED is followed, and one that says ABORTED; the last of these is the recovery's own put.
static ROLLS: [Asked; 7] = [
    Asked {
        before: &[COMMITTED],
        now: EARLIER,
        answers: TO_FORWARD,
    },
    Asked {
        before: &[Answer::NoRow, COMMITTED],
        now: EXPIRED,
        answers: TO_FORWARD,
    },
    Asked {
        before: &[Answer::NoRow, Answer::Fault, COMMITTED],
        now: EXPIRED,
        answers: TO_FORWARD,
    },
    Asked {
        before: &[ABORTED],
        now: EARLIER,
        answers: TO_BACK,
    },
    Asked {
        before: &[Answer::NoRow, ABORTED],
        now: EXPIRED,
        answers: TO_BACK,
    },
    Asked {
        before: &[Answer::NoRow, Answer::Fault, ABORTED],
        now: EXPIRED,
        answers: TO_BACK,
    },
    Asked {
        before: &[Answer::NoRow, Answer::Applied],
        now: EXPIRED,
        answers: TO_BACK,
    },
];

fn looks(alloc: Global) -> Result<(), Fail> {
    all_cases(alloc, "looks", LOOKS.as_slice())
}

fn rolls(alloc: Global) -> Result<(), Fail> {
    all_cases(alloc, "rolls", ROLLS.as_slice())
}

#[test]
fn recoveries_are_answered(rt: HostRuntime) -> Result<(), Fail> {
    looks(rt.alloc())?;
    rolls(rt.alloc())
}
