//! Equality of answers, of executed statements, and of what is found.
ghost use Rattle.std.specs.Prelude.{◌≡◌, ◌↔◌, IsTrue};
ghost use Rattle.std.specs.Option.{option_copied};
ghost use Rattle.sdb_model.specs.Rows.{same_name};
ghost use Rattle.sdb_contents.specs.Commits.{executed_of};
ghost use Rattle.check_answers.specs.Tests.{answered_alike, same_answer, same_found, same_executed};

use check_protocol::is_same_record;
use sdb_contents::Executed;
use sdb_model::{Answer, Boxed};
use sdb_types::{Record, Txt};

/// Whether two answers are equal.
#[tactic(auto, unfolding(crate::specs::Tests::same_answer))]
pub fn is_same_answer(a: &Answer, b: &Answer) -> bool
    ensures { result ≡ same_answer a.now b.now }
{
    *a == *b
}

fn are_alike(a: &Option<Answer>, b: &Option<Answer>) -> bool
    ensures { result ≡ answered_alike a.now b.now }
{
    match (a, b) {
        (Some(a), Some(b)) => is_same_answer(a, b),
        (None, None) => true,
        _ => false,
    }
}

/// Whether two statements have the same answer, or both have none.
pub fn is_answered_alike(a: &Option<Answer>, b: &Option<Answer>) -> bool
    ensures alike { result ≡ answered_alike a.now b.now }
    ensures same { IsTrue result ↔ (a.now ≡ b.now) }
{
    are_alike(a, b)
}

// The same of an answer and one that an event gives.
fn are_alike_in(a: &Option<Answer>, b: &Option<Boxed<Answer>>) -> bool
    ensures { result ≡ answered_alike a.now b.now }
{
    match (a, b) {
        (Some(a), Some(b)) => is_same_answer(a, b.get()),
        (None, None) => true,
        _ => false,
    }
}

/// Whether an event gives this answer, or gives none where this is none.
pub fn is_answered_so(a: &Option<Answer>, b: &Option<Boxed<Answer>>) -> bool
    ensures alike { result ≡ answered_alike a.now b.now }
    ensures same { IsTrue result ↔ (a.now ≡ b.now) }
{
    are_alike_in(a, b)
}

fn is_same_text(a: &Txt, b: &Txt) -> bool
    ensures { result ≡ same_name a.now b.now }
{
    a.as_str().cmp(b.as_str()).is_eq()
}

/// Whether two executed statements are equal.
pub fn is_same_executed(a: &Executed, b: &Executed) -> bool
    ensures { result ≡ same_executed (executed_of a.now) (executed_of b.now) }
{
    a.accepted == b.accepted
        && (a.reached == b.reached
            && (is_same_text(&a.text, &b.text) && is_answered_alike(&a.answer, &b.answer)))
}

/// Whether this is at a key.
pub fn is_same_found(a: Option<&Record>, b: &Option<Record>) -> bool
    ensures { result ≡ same_found (option_copied a.entry) b.now }
{
    match (a, b) {
        (Some(a), Some(b)) => is_same_record(a, b),
        (None, None) => true,
        _ => false,
    }
}
