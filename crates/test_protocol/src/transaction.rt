//! Whole transactions: what they read and write, and their COMMITs.
use crate::machine::{AnswerGiven, EXPIRED, Machine, conflict_at, if_own};
use crate::replies::{Answer, reply_to};
use crate::seen::{ROW, accounts, one_change};
use sdb_record::{Change, version_of};
use sdb_txn::{Progress, Txn};
use sdb_types::{Columns, Key, TxId};
use std::alloc::Global;
use std::test::Fail;
use test_builders::{Case, account, all_cases};

const OWN: TxId = TxId(0x1_0000_0000_0000_0001);

fn told_by(progress: &Progress) -> AnswerGiven {
    match progress {
        Progress::More => AnswerGiven::More,
        Progress::Rows(rows) => AnswerGiven::Rows(rows.len()),
        Progress::Busy(_, _, _) => AnswerGiven::Busy,
        Progress::Faulted => AnswerGiven::Faulted,
        Progress::BadRecord(_) => AnswerGiven::BadRecord,
        Progress::NoMemory => AnswerGiven::NoMemory,
        Progress::Conflict(key, found) => conflict_at(key, version_of(found)),
        Progress::Committed => AnswerGiven::Committed,
        Progress::Expired(id) => if_own(*id, OWN, AnswerGiven::Expired),
        Progress::Unknown(id) => if_own(*id, OWN, AnswerGiven::Unknown),
    }
}

impl Machine for Txn {
    fn give(&mut self, alloc: Global, answer: Answer, now: i64) -> AnswerGiven {
        match reply_to(alloc, self.pending(), answer) {
            Some(reply) => told_by(&self.advance(reply, now)),
            None => AnswerGiven::Other,
        }
    }

    fn is_over(&self) -> bool {
        self.pending().is_none()
    }
}

// What a transaction does: it gets an account, scans all accounts, inserts an account without columns, takes its COMMIT, or has its
// pending call answered. Where it may not, that is Other.
#[derive(Clone, Copy)]
enum Act {
    Get(i32),
    Scan,
    Insert(i32),
    Commit,
    Reply(Answer),
}

fn get(alloc: Global, txn: &mut Txn, id: i32) -> AnswerGiven {
    match account(alloc, id) {
        Ok(key) if txn.is_idle() => told_by(&txn.get(key)),
        _ => AnswerGiven::Other,
    }
}

fn scan(alloc: Global, txn: &mut Txn) -> AnswerGiven {
    match accounts(alloc) {
        Ok(span) if txn.is_idle() => told_by(&txn.scan(span)),
        _ => AnswerGiven::Other,
    }
}

fn insert_at(alloc: Global, txn: &mut Txn, key: &Key) -> AnswerGiven {
    if let Ok(changes) = one_change(alloc, key, Change::Row(Columns::new(alloc)))
        && txn.is_idle()
        && txn.has_read(key)
        && txn.write(changes).is_ok()
    {
        return AnswerGiven::Done;
    }
    AnswerGiven::Other
}

fn insert(alloc: Global, txn: &mut Txn, id: i32) -> AnswerGiven {
    match account(alloc, id) {
        Ok(key) => insert_at(alloc, txn, &key),
        Err(_) => AnswerGiven::Other,
    }
}

fn commit(txn: &mut Txn) -> AnswerGiven {
    if txn.is_idle() {
        told_by(&txn.commit(7))
    } else {
        AnswerGiven::Other
    }
}

fn perform(alloc: Global, txn: &mut Txn, act: Act) -> AnswerGiven {
    match act {
        Act::Get(id) => get(alloc, txn, id),
        Act::Scan => scan(alloc, txn),
        Act::Insert(id) => insert(alloc, txn, id),
        Act::Commit => commit(txn),
        Act::Reply(answer) => txn.give(alloc, answer, EXPIRED),
    }
}

#[derive(Clone, Copy)]
struct Steps(&'static [(Act, AnswerGiven)]);

fn runs_as(alloc: Global, txn: &mut Txn, steps: &[(Act, AnswerGiven)]) -> bool {
    for (act, answered) in steps {
        if perform(alloc, txn, *act) != *answered {
            return false;
        }
    }
    txn.is_over()
}

// What a transaction does, with what each act answers.
static CASES: [Steps; 7] = [
    // An absent account is read and inserted: one prepare, the deciding put, one roll forward.
    Steps(&[
        (Act::Get(1), AnswerGiven::More),
        (Act::Reply(Answer::NoRow), AnswerGiven::Rows(0)),
        (Act::Insert(1), AnswerGiven::Done),
        (Act::Get(1), AnswerGiven::Rows(1)),
        (Act::Commit, AnswerGiven::More),
        (Act::Reply(Answer::Applied), AnswerGiven::More),
        (Act::Reply(Answer::Applied), AnswerGiven::More),
        (Act::Reply(Answer::Applied), AnswerGiven::Committed),
        (Act::Get(1), AnswerGiven::Other),
    ]),
    // An account that was read and isn't written is read again.
    Steps(&[
        (Act::Get(1), AnswerGiven::More),
        (Act::Reply(Answer::Row(ROW)), AnswerGiven::Rows(1)),
        (Act::Commit, AnswerGiven::More),
        (Act::Reply(Answer::NoRow), AnswerGiven::More),
        (Act::Reply(Answer::Applied), AnswerGiven::Conflict(1, None)),
    ]),
    // A call faults: nothing was read, and the same account may be asked for again.
    Steps(&[
        (Act::Get(1), AnswerGiven::More),
        (Act::Reply(Answer::Fault), AnswerGiven::Faulted),
        (Act::Insert(1), AnswerGiven::Other),
        (Act::Get(1), AnswerGiven::More),
        (Act::Reply(Answer::Fault), AnswerGiven::Faulted),
    ]),
    // The same where a call is out of memory.
    Steps(&[
        (Act::Get(1), AnswerGiven::More),
        (Act::Reply(Answer::Starved), AnswerGiven::NoMemory),
        (Act::Insert(1), AnswerGiven::Other),
    ]),
    // A scan that was recorded makes no call, and shows what was inserted after it.
    Steps(&[
        (Act::Scan, AnswerGiven::More),
        (Act::Reply(Answer::NoRow), AnswerGiven::Rows(0)),
        (Act::Scan, AnswerGiven::Rows(0)),
        (Act::Get(1), AnswerGiven::More),
        (Act::Reply(Answer::NoRow), AnswerGiven::Rows(0)),
        (Act::Insert(1), AnswerGiven::Done),
        (Act::Scan, AnswerGiven::Rows(1)),
    ]),
    // A scan doesn't find a record that was read: the transaction has ended.
    Steps(&[
        (Act::Get(1), AnswerGiven::More),
        (Act::Reply(Answer::Row(ROW)), AnswerGiven::Rows(1)),
        (Act::Scan, AnswerGiven::More),
        (Act::Reply(Answer::NoRow), AnswerGiven::Conflict(1, None)),
        (Act::Commit, AnswerGiven::Other),
    ]),
    // Nothing may be read while a call is pending.
    Steps(&[
        (Act::Get(1), AnswerGiven::More),
        (Act::Get(2), AnswerGiven::Other),
        (Act::Reply(Answer::NoRow), AnswerGiven::Rows(0)),
    ]),
];

// Each transaction is rolled back in the end, also after its answer.
impl Case for Steps {
    fn holds(self, alloc: Global) -> Result<bool, Fail> {
        let mut txn = Txn::begin(alloc, OWN);
        let correct = runs_as(alloc, &mut txn, self.0);
        txn.rollback();
        Ok(correct)
    }
}

#[test]
fn transactions_read_and_commit(rt: HostRuntime) -> Result<(), Fail> {
    all_cases(rt.alloc(), "transaction", CASES.as_slice())
}
