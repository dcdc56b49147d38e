//! The decision on a transaction.
use crate::machine::{AnswerGiven, EXPIRED, Machine, answer_after, if_own, if_row_of};
use crate::replies::{ABORTED, Answer, BAD_ROW, COMMITTED, reply_to};
use sdb_decide::{Decide, DecideStep};
use sdb_types::TxId;
use std::alloc::Global;
use std::test::Fail;
use test_builders::{Case, all_cases};

const OWN: TxId = TxId(0x2_0000_0000_0000_0001);

const OWN_TEXT: &str = "00000000-0000-0002-0000-000000000001";

fn told_by(step: &DecideStep) -> AnswerGiven {
    match step {
        DecideStep::More => AnswerGiven::More,
        DecideStep::Committed => AnswerGiven::Committed,
        DecideStep::Expired(id) => if_own(*id, OWN, AnswerGiven::Expired),
        DecideStep::Faulted => AnswerGiven::Faulted,
        DecideStep::Unknown(id) => if_own(*id, OWN, AnswerGiven::Unknown),
        DecideStep::BadRecord(key) => if_row_of(key, OWN_TEXT, AnswerGiven::BadRecord),
        DecideStep::NoMemory => AnswerGiven::NoMemory,
    }
}

impl Machine for Decide {
    fn give(&mut self, alloc: Global, answer: Answer, _now: i64) -> AnswerGiven {
        match reply_to(alloc, self.request(), answer) {
            Some(reply) => told_by(&self.take(reply)),
            None => AnswerGiven::Other,
        }
    }

    fn is_over(&self) -> bool {
        self.request().is_none()
    }
}

// Whether this answer after those says that.
fn is_known(alloc: Global, before: &[Answer], answer: Answer, answered: AnswerGiven) -> bool {
    match Decide::new(alloc, OWN, 7) {
        Ok(decide) => answer_after(alloc, decide, before, answer, EXPIRED) == answered,
        Err(_) => false,
    }
}

// Answers, and those that may come after them, each with what it says.
#[derive(Clone, Copy)]
struct Asked {
    before: &'static [Answer],
    answers: &'static [(Answer, AnswerGiven)],
}

impl Case for Asked {
    fn holds(self, alloc: Global) -> Result<bool, Fail> {
        for (answer, answered) in self.answers {
            if !is_known(alloc, self.before, *answer, *answered) {
                return Ok(false);
            }
        }
        Ok(true)
    }
}

static CASES: [Asked; 4] = [
    // The deciding put.
    Asked {
        before: &[],
        answers: &[
            (Answer::Applied, AnswerGiven::Committed),
            (ABORTED, AnswerGiven::Expired),
            (COMMITTED, AnswerGiven::Committed),
            (Answer::Starved, AnswerGiven::NoMemory),
            (Answer::Fault, AnswerGiven::More),
            (BAD_ROW, AnswerGiven::BadRecord),
        ],
    },
    // The row is looked for after a fault.
    Asked {
        before: &[Answer::Fault],
        answers: &[
            (COMMITTED, AnswerGiven::Committed),
            (ABORTED, AnswerGiven::Expired),
            (Answer::NoRow, AnswerGiven::More),
            (Answer::Fault, AnswerGiven::Unknown),
            (Answer::Starved, AnswerGiven::Unknown),
            (BAD_ROW, AnswerGiven::BadRecord),
        ],
    },
    // The put of ABORTED, where there is no row. COMMITTED is found only where the deciding put takes effect late.
    Asked {
        before: &[Answer::Fault, Answer::NoRow],
        answers: &[
            (Answer::Applied, AnswerGiven::Faulted),
            (COMMITTED, AnswerGiven::Committed),
            (ABORTED, AnswerGiven::Expired),
            (Answer::Starved, AnswerGiven::Unknown),
            (Answer::Fault, AnswerGiven::More),
            (BAD_ROW, AnswerGiven::BadRecord),
        ],
    },
    // The row is looked for a second time. COMMITTED is found only where the deciding put takes effect late.
    Asked {
        before: &[Answer::Fault, Answer::NoRow, Answer::Fault],
        answers: &[
            (COMMITTED, AnswerGiven::Committed),
            (ABORTED, AnswerGiven::Faulted),
            (Answer::NoRow, AnswerGiven::Unknown),
            (Answer::Fault, AnswerGiven::Unknown),
            (Answer::Starved, AnswerGiven::Unknown),
            (BAD_ROW, AnswerGiven::BadRecord),
        ],
    },
];

#[test]
fn decisions_are_answered(rt: HostRuntime) -> Result<(), Fail> {
    all_cases(rt.alloc(), "decide", CASES.as_slice())
}
