//! The checks of a COMMIT.
ghost use Rattle.std.specs.Prelude.{◌≡◌, ◌<◌, true, IfOk, IsSome, slice_get, Some};
ghost use Rattle.std.specs.Option.{option_copied};
ghost use Rattle.sdb_types.specs.declared.record.Reply.TheVariants as reply;
ghost use Rattle.sdb_record.specs.Moved.{is_unchanged as unchanged_lem};
ghost use Rattle.sdb_phases.specs.Checks.{checks_of, difference_in, first_difference, changed};
ghost use Rattle.sdb_phases.specs.Steps.{CanGet, validate_request, validate_result, validate_next, validate_step, judged};
ghost use Rattle.sdb_types.specs.Contents.{CanAnswer, rise};
ghost use Rattle.sdb_validate.specs.Merge.{target_rises, wanted_rise, row_place, missing_place};
ghost use Rattle.sdb_validate.specs.Inside.{Judges, place_after};

use crate::checks::checks;
use crate::rescan::{Place, first_place};
use sdb_phases::{Check, Checks, Expectations, Target, ValidateStep};
use sdb_record::{Reads, Scans, Writes, is_unchanged};
use sdb_types::{Duplicate, Key, NoMemory, Record, Records, Reply, Request, TxId};
use std::alloc::Global;
use std::marker::Model;

/// The extra reads of a COMMIT, one after another, each asked for once the one before it found what it was to find.
pub struct Validate {
    checks: Checks,
    at: usize,
}

// By hand: each drop is then one call, where a derived one is written out at each exit, with a call for each field.
impl Drop for Validate {
    fn drop(self) {
        let Validate { checks: _, at: _ } = self;
    }
}

impl Model for Validate {
    ghost use Rattle.sdb_phases.specs.Steps.{Validates};
    ghost use Rattle.sdb_validate.specs.Inside.{AreOrdered};

    ghost Value = { Validates };

    ghost view = { λ v. record { checks = v.checks; at = v.at } };

    ghost invariant = { λ v. AreOrdered v.checks };
}

fn go_on(more: bool) -> ValidateStep
    ensures { result ≡ judged more None }
{
    if more {
        ValidateStep::More
    } else {
        ValidateStep::Valid
    }
}

// A conflict at a key. Out of memory for the key is answered in its place.
fn conflict(key: &Key, found: Option<Record>) -> ValidateStep
    ensures { Judges (ValidateStep.Conflict key.now found) result }
{
    match key.copy() {
        Ok(key) => ValidateStep::Conflict(key, found),
        Err(_) => ValidateStep::NoMemory,
    }
}

// A row is a conflict at its key.
fn row_conflict(row: Record) -> ValidateStep
    ensures { Judges (ValidateStep.Conflict row.key (Some row)) result }
{
    match row.key.copy() {
        Ok(key) => ValidateStep::Conflict(key, Some(row)),
        Err(_) => ValidateStep::NoMemory,
    }
}

fn place_conflict(rows: Records, j: usize, more: bool) -> ValidateStep
    ensures { Judges (judged more (row_place (slice_get rows j))) result }
{
    let mut rows = rows.into_vec();
    if j < rows.len() {
        row_conflict(rows.swap_remove(j))
    } else {
        go_on(more)
    }
}

fn missing_conflict(wants: &Expectations, i: usize, more: bool) -> ValidateStep
    ensures { Judges (judged more (missing_place (slice_get wants.now i))) result }
{
    match wants.at(i) {
        Some(wanted) => conflict(&wanted.key, None),
        None => go_on(more),
    }
}

// A get was answered.
fn get_took(key: &Key, version: Option<TxId>, found: Option<Record>, more: bool) -> ValidateStep
    ensures { Judges (judged more (changed (unchanged_lem found version) key.now found)) result }
{
    if is_unchanged(&found, version) {
        go_on(more)
    } else {
        conflict(key, found)
    }
}

// A rescan was answered.
#[tactic(auto, using(crate::proofs::Merges::merge_first))]
fn rows_took(wants: &Expectations, rows: Records, more: bool) -> ValidateStep
    requires wants { wanted_rise wants.now ≡ true }
    requires rows { rise rows ≡ true }
    ensures { Judges (judged more (first_difference wants.now rows)) result }
{
    match first_place(wants.as_slice(), rows.as_slice()) {
        None => go_on(more),
        Some(Place::Missing(i)) => missing_conflict(wants, i, more),
        Some(Place::Row(j)) => place_conflict(rows, j, more),
    }
}

fn found_took(check: &Check, found: Option<Record>, more: bool) -> ValidateStep
    ensures { Judges (judged more (difference_in check.now (reply.Found found))) result }
{
    match (&check.request, &check.target) {
        (Request::Get(key), Target::Version(version)) => get_took(key, *version, found, more),
        _ => go_on(more),
    }
}

#[tactic(auto, using(sdb_types::proofs::Public::and_first))]
fn scan_took(check: &Check, rows: Records, more: bool) -> ValidateStep
    requires order { target_rises check.now.target ≡ true }
    requires reply { CanAnswer check.now.request (reply.Rows rows) }
    ensures { Judges (judged more (difference_in check.now (reply.Rows rows))) result }
{
    match (&check.request, &check.target) {
        (Request::Scan(_), Target::Rows(wants)) => rows_took(wants, rows, more),
        _ => go_on(more),
    }
}

fn judge(check: &Check, reply: Reply, more: bool) -> ValidateStep
    requires order { target_rises check.now.target ≡ true }
    requires reply { CanAnswer check.now.request reply }
    ensures { Judges (validate_step more (Some check.now) reply) result }
{
    match reply {
        Reply::Found(found) => found_took(check, found, more),
        Reply::Rows(rows) => scan_took(check, rows, more),
        Reply::Fault => ValidateStep::Faulted,
        Reply::NoMemory => ValidateStep::NoMemory,
        Reply::Applied | Reply::NotMet(_) | Reply::NotAll(_, _) => go_on(more),
    }
}

// The place of the next check after an answer.
fn next_place(step: &ValidateStep, at: usize, count: usize) -> usize
    requires { at < count }
    ensures { result ≡ place_after at count step.now }
{
    match step {
        ValidateStep::More => at + 1,
        _ => count,
    }
}

impl Validate {
    /// The checks of a transaction that read these keys by gets, scanned these spans, and writes these keys.
    pub fn new(
        alloc: Global,
        reads: &Reads,
        scans: &Scans,
        own: &Writes,
    ) -> Result<Validate, NoMemory>
        ensures { IfOk result (λ v. v ≡ record { checks = checks_of own.now reads.now scans.now; at = 0 }) }
    {
        Ok(Validate {
            checks: checks(alloc, reads, scans, own)?,
            at: 0,
        })
    }

    /// The call that is pending; none where it has ended. Takes no memory.
    pub fn request(&self) -> Option<&Request>
        ensures { option_copied result ≡ validate_request self.now }
    {
        match self.checks.at(self.at) {
            Some(check) => Some(&check.request),
            None => None,
        }
    }

    /// Takes the reply to the pending call. Out of memory for the key of a conflict is answered in place of the conflict.
    pub fn take(&mut self, reply: Reply) -> ValidateStep
        requires pending { IsSome (validate_request self.old) }
        requires reply { CanGet (validate_request self.old) reply }
        ensures step { Judges (validate_result self.old reply) result }
        ensures after { self.new ≡ validate_next self.old result }
    {
        let count = self.checks.len();
        let at = self.at;
        let step = match self.checks.at(at) {
            Some(check) => judge(check, reply, at + 1 < count),
            None => ValidateStep::NoMemory,
        };
        self.at = next_place(&step, at, count);
        step
    }
}
