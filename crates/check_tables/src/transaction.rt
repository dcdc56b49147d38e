//! Transactions among a client's statements.
ghost use Rattle.std.specs.Prelude.{◌≡◌, ◌≤◌, IfOk, not, length, take_while};
ghost use Rattle.std.specs.Option.{option_map};
ghost use Rattle.sdb_model.specs.Transactions.{from_begin as from_begin_lem, client_of as client_of_lem, ordinal_of as ordinal_of_lem, id_of as id_of_lem, ends as ends_lem, rest_of as rest_of_lem, is_effective as is_effective_lem, changes_nothing as changes_nothing_lem};
ghost use Rattle.sdb_contents.specs.Commits.{executed_of, all_executed};
ghost use Rattle.check_tables.specs.Points.{commit_among as commit_among_lem};
ghost use Rattle.check_tables.specs.Values.{inside_among as inside_among_lem};

use crate::points::{first_ending, from_begin};
use sdb_contents::{Executed, ends, is_word};
use sdb_model::{Answer, Keyword};
use sdb_types::{NoMemory, TxId};
use std::alloc::Global;

/// The client that began a transaction, by its id.
pub fn client_of(id: TxId) -> u64
    ensures { result ≡ client_of_lem id }
{
    (id.0 >> 64) as u64
}

/// Which of its client's transactions it is, from 1.
pub fn ordinal_of(id: TxId) -> u64
    ensures { result ≡ ordinal_of_lem id }
{
    (id.0 & 0xffff_ffff_ffff_ffff) as u64
}

/// The id of a client's transaction.
pub fn id_of(client: u64, ordinal: u64) -> TxId
    ensures { result ≡ id_of_lem client ordinal }
{
    TxId(u128::from(client) * 18_446_744_073_709_551_616 + u128::from(ordinal))
}

/// All statements but the first.
pub fn rest_of(executed: &[Executed]) -> &[Executed]
    ensures { all_executed result.now ≡ rest_of_lem (all_executed executed.now) }
{
    match executed.split_first() {
        Some((_, rest)) => rest,
        None => executed,
    }
}

// How many statements come before the first that ends the transaction.
fn count_inside(alloc: Global, executed: &[Executed]) -> Result<usize, NoMemory>
    ensures count { IfOk result (λ n. n ≡ length (take_while (λ s. not (ends_lem s)) (all_executed executed.now))) }
    ensures most { IfOk result (λ n. n ≤ length executed.now) }
{
    let Some((first, rest)) = executed.split_first() else {
        return Ok(0);
    };
    if ends(alloc, first)? {
        return Ok(0);
    }
    let more = count_inside(alloc, rest)?;
    Ok(more + 1)
}

/// A transaction's statements after its BEGIN, up to the one that ended it, that one left out, among its client's statements.
#[tactic(auto, using(crate::proofs::Walks::taken_again, crate::proofs::Walks::map_taken))]
pub fn inside_of(
    alloc: Global,
    executed: &[Executed],
    ordinal: u64,
) -> Result<&[Executed], NoMemory>
    ensures { IfOk result (λ inside. all_executed inside.now ≡ inside_among_lem (all_executed executed.now) ordinal) }
{
    let since = from_begin(alloc, ordinal, executed)?;
    let rest = rest_of(since);
    let count = count_inside(alloc, rest)?;
    Ok(&rest[..count])
}

/// A transaction's COMMIT: the statement that ended it, where that reads as COMMIT.
pub fn commit_of(
    alloc: Global,
    executed: &[Executed],
    ordinal: u64,
) -> Result<Option<&Executed>, NoMemory>
    ensures { IfOk result (λ found. option_map (λ s. executed_of s.now) found ≡ commit_among_lem (from_begin_lem ordinal (all_executed executed.now))) }
{
    let since = from_begin(alloc, ordinal, executed)?;
    let Some(last) = first_ending(alloc, rest_of(since))? else {
        return Ok(None);
    };
    if is_word(alloc, last, Keyword::Commit)? {
        Ok(Some(last))
    } else {
        Ok(None)
    }
}

fn changes_nothing(answer: &Answer) -> bool
    ensures { result ≡ changes_nothing_lem answer.now }
{
    matches!(
        answer,
        Answer::Busy(_, _, _)
            | Answer::Faulted
            | Answer::BadRecord(_)
            | Answer::Refused(_)
            | Answer::OpenTransactions
            | Answer::NoMemory
    )
}

/// Whether a statement is of its transaction's body, unless it ends it.
pub fn is_effective(executed: &Executed) -> bool
    ensures { result ≡ is_effective_lem (executed_of executed.now) }
{
    match &executed.answer {
        Some(answer) => !changes_nothing(answer),
        None => true,
    }
}
