//! Which reads have finished.
ghost use Rattle.std.specs.Prelude.{◌≡◌};
ghost use Rattle.std.specs.List.{list_all};
ghost use Rattle.sdb_record.specs.Meta.{is_transactional as is_transactional_lem};
ghost use Rattle.sdb_model.specs.Calls.{records_read};
ghost use Rattle.sdb_model.specs.ReadSet.{finds_transactional as finds_transactional_lem, has_finished as has_finished_lem};
ghost use Rattle.sdb_contents.specs.Commits.{executed_of};
ghost use Rattle.check_tables.specs.Values.{all_made};

use crate::made::Made;
use crate::request::reads_rows;
use sdb_contents::Executed;
use sdb_model::Answer;
use sdb_record::{is_coordinator, meta_of};
use sdb_types::{Record, Reply};
use std::alloc::Global;

fn is_transactional(alloc: Global, rec: &Record) -> bool
    ensures { result ≡ is_transactional_lem rec.now }
{
    meta_of(alloc, rec).is_ok()
}

fn are_transactional(alloc: Global, rows: &[Record]) -> bool
    ensures { result ≡ list_all is_transactional_lem rows.now }
{
    for rec in rows {
        if !is_transactional(alloc, rec) {
            return false;
        }
    }
    true
}

// Whether each record that a read found passes the checks.
fn shows_transactional(alloc: Global, reply: &Reply) -> bool
    ensures { result ≡ list_all is_transactional_lem (records_read reply.now) }
{
    match reply {
        Reply::Found(Some(rec)) => is_transactional(alloc, rec),
        Reply::Rows(rows) => are_transactional(alloc, rows.as_slice()),
        _ => true,
    }
}

fn finds_transactional(alloc: Global, calls: &[Made]) -> bool
    ensures { result ≡ finds_transactional_lem (all_made calls.now) }
{
    let Some((first, rest)) = calls.split_first() else {
        return true;
    };
    if reads_rows(first) && !shows_transactional(alloc, &first.reply) {
        return false;
    }
    finds_transactional(alloc, rest)
}

/// Whether the read of a statement that made these calls has finished: it was answered from rows, or refused, or its answer is
/// BadRecord of a row that doesn't fit its table, where each record that it found passes the checks.
pub fn has_finished(alloc: Global, calls: &[Made], executed: &Executed) -> bool
    ensures { result ≡ has_finished_lem (all_made calls.now) (executed_of executed.now) }
{
    match &executed.answer {
        Some(Answer::Rows(_) | Answer::Count(_) | Answer::Duplicate(_) | Answer::Refused(_)) =>
            true,
        Some(Answer::BadRecord(key)) => {
            !is_coordinator(&key.table) && finds_transactional(alloc, calls)
        }
        _ => false,
    }
}
