//! What a record that a statement found means to it.
ghost use Rattle.std.specs.Prelude.{◌≡◌, Some, false, find};
ghost use Rattle.std.specs.Option.{option_copied, option_map_or};
ghost use Rattle.sdb_types.specs.Contents.{holds as holds_lem};
ghost use Rattle.sdb_model.specs.ReadSet.{condition_asked as condition_asked_lem, meaning_of as meaning_of_lem, rolls as rolls_lem};
ghost use Rattle.check_tables.specs.Values.{all_made, made_of};

use crate::made::Made;
use crate::request::{asks_row, put_by};
use check_protocol::is_committed;
use sdb_store::holds;
use sdb_types::{Condition, Record, Request};

// The condition on which a call puts or deletes one record.
fn condition_asked(request: &Request) -> Option<&Condition>
    ensures { option_copied result ≡ condition_asked_lem request.now }
{
    match request {
        Request::Get(_) | Request::Scan(_) | Request::PutAll(_) => None,
        Request::PutIf(_, condition) | Request::DeleteIf(_, condition) => Some(condition),
    }
}

fn is_met(request: &Request, rec: &Record) -> bool
    ensures { result ≡ option_map_or (λ c. holds_lem c (Some rec.now)) (condition_asked_lem request.now) false }
{
    match condition_asked(request) {
        Some(condition) => holds(condition, Some(rec)),
        None => false,
    }
}

// Whether a call rolls a record: it puts or deletes at its key, on a condition that it meets.
fn rolls(rec: &Record, made: &Made) -> bool
    ensures { result ≡ rolls_lem rec.now (made_of made.now) }
{
    asks_row(&rec.key, &made.request) && is_met(&made.request, rec)
}

fn roll_of<'a>(calls: &'a [Made], rec: &Record) -> Option<&'a Made>
    ensures { option_copied result ≡ find (λ m. rolls_lem rec.now (made_of m)) calls.now }
{
    for made in calls {
        if rolls(rec, made) {
            return Some(made);
        }
    }
    None
}

/// What a found record means to the statement with these calls: itself where it is committed, and else what the first call that rolled it
/// put there. None where that deleted it, or where no call rolled it.
#[tactic(auto, using(crate::proofs::Walks::roll_put))]
pub fn meaning_of<'a>(calls: &'a [Made], rec: &'a Record) -> Option<&'a Record>
    ensures { option_copied result ≡ meaning_of_lem (all_made calls.now) rec.now }
{
    if is_committed(rec) {
        return Some(rec);
    }
    match roll_of(calls, rec) {
        Some(made) => put_by(&made.request),
        None => None,
    }
}
