//! A client's statements.
ghost use Rattle.std.specs.Prelude.{◌≡◌, IfOk, OnOk, Some};
ghost use Rattle.sdb_model.specs.Sql.{reads_commit as reads_commit_lem, reads_word as reads_word_lem};
ghost use Rattle.sdb_model.specs.Transactions.{statements_by as statements_by_lem, with_answer, statements_after, begins as begins_lem, ends as ends_lem, is_done as is_done_lem, is_conflict as is_conflict_lem};
ghost use Rattle.sdb_contents.specs.Commits.{executed_of, all_executed};

use sdb_model::{Answer, Boxed, Event, Keyword};
use sdb_sqltext::{reads_commit, reads_word};
use sdb_types::{Duplicate, NoMemory, Seq, Txt};
use std::alloc::Global;

/// A statement that a client took: the number of its Take, its text, its answer, if it has one, and the number of the event
/// that it has reached: of its answer, or of its Take where it has none.
#[derive(Debug)]
pub struct Executed {
    pub accepted: u64,
    pub text: Txt,
    pub answer: Option<Answer>,
    pub reached: u64,
}

// By hand: each drop is then one call, where a derived one is written out at each exit, with a call for each field.
impl Drop for Executed {
    fn drop(self) {
        let Executed {
            accepted: _,
            text: _,
            answer: _,
            reached: _,
        } = self;
    }
}

// The last statement, with its answer.
fn answered(last: &Executed, number: u64, answer: &Answer) -> Result<Executed, NoMemory>
    ensures { IfOk result (λ s. s ≡ record { accepted = last.now.accepted; text = last.now.text; answer = Some answer.now; reached = number }) }
{
    Ok(Executed {
        accepted: last.accepted,
        text: last.text.copy()?,
        answer: Some(answer.copy()?),
        reached: number,
    })
}

// Answers the last statement.
fn answer_last(executed: &mut Seq<Executed>, number: u64, answer: &Answer) -> Result<(), NoMemory>
    ensures { OnOk result (all_executed executed.new ≡ with_answer (all_executed executed.old) number answer.now) }
{
    let last = match executed.last() {
        Some(last) => answered(last, number, answer)?,
        None => return Ok(()),
    };
    let at = executed.len() - 1;
    executed.replace(at, last);
    Ok(())
}

// The answer that an event gives.
fn given(answer: &Option<Boxed<Answer>>) -> Result<Option<Answer>, NoMemory>
    ensures { IfOk result (λ given. given ≡ answer.now) }
{
    match answer {
        Some(answer) => Ok(Some(answer.get().copy()?)),
        None => Ok(None),
    }
}

// Adds what an event does to a client's statements.
fn add_prepare(
    executed: &mut Seq<Executed>,
    client: u64,
    number: u64,
    event: &Event,
) -> Result<(), NoMemory>
    ensures { OnOk result (all_executed executed.new ≡ statements_after client (all_executed executed.old) (number, event.now)) }
{
    match event {
        Event::Take(taker, text, answer) => {
            if u64::from(*taker) == client {
                executed.push(Executed {
                    accepted: number,
                    text: text.copy()?,
                    answer: given(answer)?,
                    reached: number,
                })?;
            }
            Ok(())
        }
        Event::Call(caller, _, _, _, _, Some(answer)) => {
            if u64::from(*caller) == client {
                answer_last(executed, number, answer.get())?;
            }
            Ok(())
        }
        _ => Ok(()),
    }
}

/// A client's statements, in order, each with its answer.
pub fn statements_by(
    alloc: Global,
    client: u64,
    events: &[Event],
) -> Result<Seq<Executed>, NoMemory>
    ensures { IfOk result (λ found. all_executed found ≡ statements_by_lem client events.now) }
{
    let mut found = Seq::new(alloc);
    let mut i = 0;
    while i < events.len() {
        add_prepare(&mut found, client, i as u64 + 1, &events[i])?;
        i += 1;
    }
    Ok(found)
}

fn is_done(answer: &Option<Answer>) -> bool
    ensures { result ≡ is_done_lem answer.now }
{
    matches!(answer, Some(Answer::Done))
}

fn is_conflict(answer: &Option<Answer>) -> bool
    ensures { result ≡ is_conflict_lem answer.now }
{
    matches!(answer, Some(Answer::Conflict(_, _)))
}

/// Whether a statement is read as one of this word.
pub fn is_word(alloc: Global, executed: &Executed, word: Keyword) -> Result<bool, NoMemory>
    ensures { IfOk result (λ reads. reads ≡ reads_word_lem word executed.now.text) }
{
    reads_word(alloc, executed.text.as_str().as_bytes(), word)
}

/// Whether a statement is read as COMMIT. Takes no memory.
pub fn is_commit(executed: &Executed) -> bool
    ensures { result ≡ reads_commit_lem executed.now.text }
{
    reads_commit(executed.text.as_str().as_bytes())
}

/// Whether a statement begins a transaction.
pub fn begins(alloc: Global, executed: &Executed) -> Result<bool, NoMemory>
    ensures { IfOk result (λ begins. begins ≡ begins_lem (executed_of executed.now)) }
{
    if !is_done(&executed.answer) {
        return Ok(false);
    }
    is_word(alloc, executed, Keyword::Begin)
}

/// Whether a statement ends a transaction that is open.
pub fn ends(alloc: Global, executed: &Executed) -> Result<bool, NoMemory>
    ensures { IfOk result (λ ends. ends ≡ ends_lem (executed_of executed.now)) }
{
    if is_commit(executed) || is_conflict(&executed.answer) {
        return Ok(true);
    }
    if !is_done(&executed.answer) {
        return Ok(false);
    }
    is_word(alloc, executed, Keyword::Rollback)
}
