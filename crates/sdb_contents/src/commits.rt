//! When the COMMITs of a client's transactions were accepted.
ghost use Rattle.std.specs.Prelude.{◌≡◌, ◌++◌, ◌∷◌, [], if◌then◌else◌, IfOk, OnOk, List, ℕ};
ghost use Rattle.std.specs.Option.{option_map};
ghost use Rattle.sdb_model.specs.declared.event.Event.{Event as EventType};
ghost use Rattle.sdb_model.specs.Sql.{reads_begin, reads_rollback};
ghost use Rattle.sdb_model.specs.Transactions.{statements_by as statements_by_lem};
ghost use Rattle.sdb_contents.specs.Commits.{commits_of, commit_at as commit_at_lem};
ghost use Rattle.sdb_contents.specs.Later.{IsLater, begins_with, first_with, or_earlier, outcome_of as outcome_of_lem};

use sdb_model::{Answer, Boxed, Event, Keyword};
use sdb_sqltext::{reads_commit, reads_word};
use sdb_types::{NoMemory, Seq, Txt};
use std::alloc::Global;

// What an answer does to the transaction of its statement.
#[derive(Clone, Copy)]
enum Outcome {
    Done,
    Conflict,
    Other,
}

// What is known of a client's statements from an event on.
#[derive(Drop)]
struct Later {
    // Of each transaction that begins, last to first, the event that took its COMMIT, and 0 where it has none.
    commits: Vec<u64>,
    // The same of a transaction that is open before.
    first: u64,
    // What the last answer does, to a statement that was taken before.
    outcome: Option<Outcome>,
}

fn outcome_of(answer: &Answer) -> Outcome
    ensures { result ≡ outcome_of_lem answer.now }
{
    match answer {
        Answer::Done => Outcome::Done,
        Answer::Conflict(_, _) => Outcome::Conflict,
        _ => Outcome::Other,
    }
}

// What the answer that a Take has does.
fn given(answer: &Option<Boxed<Answer>>) -> Option<Outcome>
    ensures { result ≡ option_map outcome_of_lem answer.now }
{
    match answer {
        Some(answer) => Some(outcome_of(answer.get())),
        None => None,
    }
}

// The later of two outcomes.
fn last_of(later: Option<Outcome>, earlier: Option<Outcome>) -> Option<Outcome>
    ensures { result ≡ or_earlier later earlier }
{
    match later {
        Some(outcome) => Some(outcome),
        None => earlier,
    }
}

// Adds a statement that was answered Done and isn't read as COMMIT, before others.
fn add_done(alloc: Global, later: &mut Later, text: &[u8]) -> Result<(), NoMemory>
    ensures commits { OnOk result (later.new.commits.items ≡ (if reads_begin text.now then later.old.commits.items ++ later.old.first ∷ [] else later.old.commits.items)) }
    ensures first { OnOk result (later.new.first ≡ (if reads_rollback text.now then 0 else later.old.first)) }
    ensures outcome { OnOk result (later.new.outcome ≡ later.old.outcome) }
{
    if reads_word(alloc, text, Keyword::Begin)? {
        later.commits.push(later.first)?;
        return Ok(());
    }
    if reads_word(alloc, text, Keyword::Rollback)? {
        later.first = 0;
    }
    Ok(())
}

// Adds a statement with its outcome, before others.
fn add_statement(
    alloc: Global,
    later: &mut Later,
    number: u64,
    text: &Txt,
    outcome: Option<Outcome>,
) -> Result<(), NoMemory>
    ensures commits { OnOk result (later.new.commits.items ≡ (if begins_with text.now outcome then later.old.commits.items ++ later.old.first ∷ [] else later.old.commits.items)) }
    ensures first { OnOk result (later.new.first ≡ first_with number text.now outcome later.old.first) }
    ensures outcome { OnOk result (later.new.outcome ≡ later.old.outcome) }
{
    let text = text.as_str().as_bytes();
    if reads_commit(text) {
        later.first = number;
        return Ok(());
    }
    match outcome {
        Some(Outcome::Done) => add_done(alloc, later, text),
        Some(Outcome::Conflict) => {
            later.first = 0;
            Ok(())
        }
        _ => Ok(()),
    }
}

// Adds an event before others.
fn add_event(
    alloc: Global,
    later: &mut Later,
    client: u64,
    number: u64,
    event: &Event,
) -> Result<(), NoMemory>
    ensures { (es : List (ℕ × EventType)) → IsLater client es later.old → OnOk result (IsLater client ((number, event.now) ∷ es) later.new) }
{
    match event {
        Event::Take(taker, text, answer) => {
            if u64::from(*taker) == client {
                let outcome = last_of(later.outcome, given(answer));
                later.outcome = None;
                add_statement(alloc, later, number, text, outcome)?;
            }
            Ok(())
        }
        Event::Call(caller, _, _, _, _, Some(answer)) => {
            if u64::from(*caller) == client {
                later.outcome = last_of(later.outcome, Some(outcome_of(answer.get())));
            }
            Ok(())
        }
        _ => Ok(()),
    }
}

/// Of each transaction of a client, in order, the event that took its COMMIT, and 0 where it has none.
pub fn commits_by(alloc: Global, client: u64, events: &[Event]) -> Result<Seq<u64>, NoMemory>
    ensures { IfOk result (λ found. found ≡ commits_of (statements_by_lem client events.now)) }
{
    let mut later = Later {
        commits: Vec::new(alloc),
        first: 0,
        outcome: None,
    };
    let mut i = events.len();
    while i > 0 {
        i -= 1;
        add_event(alloc, &mut later, client, i as u64 + 1, &events[i])?;
    }
    let mut found = later.commits;
    found.reverse();
    Ok(Seq::from_vec(found))
}

/// The event that took the COMMIT of the k-th transaction, k from 1, and 0 where there is none.
pub fn commit_at(commits: &[u64], k: u64) -> u64
    ensures { result ≡ commit_at_lem k commits.now }
{
    if k == 0 {
        return 0;
    }
    match commits.get((k - 1) as usize) {
        Some(number) => *number,
        None => 0,
    }
}
