//! Answers that a client gives of its own.
ghost use Rattle.std.specs.Prelude.{◌≡◌, true, false};
ghost use Rattle.sdb_model.specs.Causes.{refused as refused_lem};
ghost use Rattle.sdb_model.specs.Transactions.{changes_nothing as changes_nothing_lem};
ghost use Rattle.sdb_client.specs.Client.{answer_of as answer_of_lem, is_out_of_memory as is_out_of_memory_lem, next_of as next_of_lem};

use crate::next::Next;
use sdb_model::{Answer, Refusal};
use sdb_txn::Progress;
use sdb_vacuum::VacuumStep;

/// A refusal of a whole statement.
pub fn refused(kind: u8) -> Answer
    ensures { result ≡ refused_lem kind }
{
    Answer::Refused(Refusal { kind, place: 0 })
}

/// Whether a statement that is answered so changed nothing of its transaction, and left it open.
pub fn changes_nothing(answer: &Answer) -> bool
    ensures { result ≡ changes_nothing_lem answer.now }
{
    match answer {
        Answer::Busy(_, _, _)
        | Answer::Faulted
        | Answer::BadRecord(_)
        | Answer::Refused(_)
        | Answer::OpenTransactions
        | Answer::NoMemory => true,
        _ => false,
    }
}

/// Whether a statement that is answered so ran out of memory.
pub fn is_out_of_memory(answer: &Answer) -> bool
    ensures { result ≡ is_out_of_memory_lem answer.now }
{
    matches!(answer, Answer::NoMemory)
}

/// What a call of a COMMIT leads to.
pub fn next_of(progress: Progress) -> Next
    ensures { result ≡ next_of_lem progress }
{
    match progress {
        Progress::More => Next::Call,
        Progress::Rows(_) | Progress::NoMemory => Next::End(Answer::NoMemory),
        Progress::Busy(key, id, at) => Next::End(Answer::Busy(key, id, at)),
        Progress::Faulted => Next::End(Answer::Faulted),
        Progress::BadRecord(key) => Next::End(Answer::BadRecord(key)),
        Progress::Conflict(key, found) => Next::End(Answer::Conflict(key, found)),
        Progress::Committed => Next::End(Answer::Committed),
        Progress::Expired(id) => Next::End(Answer::Expired(id)),
        Progress::Unknown(id) => Next::End(Answer::Unknown(id)),
    }
}

/// What a call of a VACUUM is answered; nothing where another is pending.
pub fn answer_of(step: VacuumStep) -> Option<Answer>
    ensures { result ≡ answer_of_lem step }
{
    match step {
        VacuumStep::More => None,
        VacuumStep::Count(n) => Some(Answer::Count(n)),
        VacuumStep::Faulted => Some(Answer::Faulted),
        VacuumStep::BadRecord(key) => Some(Answer::BadRecord(key)),
        VacuumStep::NoMemory => Some(Answer::NoMemory),
    }
}
