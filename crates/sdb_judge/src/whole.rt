//! A script and the report of it, judged.
ghost use Rattle.std.specs.Prelude.{◌≡◌, IfOk, IfErr, IfSome, None};
ghost use Rattle.sdb_model.specs.Plain.{IsPlain};
ghost use Rattle.sdb_model.specs.Report.{report_text_of};
ghost use Rattle.sdb_script.specs.Whole.{IsScript};
ghost use Rattle.sdb_judge.specs.Judged.{Fails, IsJudged, FollowsProtocol, IsNoReport, IsNoScript, IsNotJudged, IsVerdictOf, ReadsAreCommitted, own_stores};

use crate::input::split;
use crate::moments::stores_of;
use crate::order::is_in_order;
use crate::promises::{Promise, Verdict};
use crate::refused::JudgeRefused;
use crate::serial::is_serial;
use check_answers::{
    Stores, answers_have_causes, calls_are_counted, have_no_dirty_reads, is_execution,
    records_are_resolved,
};
use sdb_model::{Outcome, Script};
use sdb_report::{ReportRefused, read_report};
use sdb_script::{ScriptRefused, read_script};
use sdb_types::{Name, Names, NoMemory};
use std::alloc::Global;

fn named(alloc: Global, name: &str) -> Result<Name, NoMemory>
    ensures { IfOk result (λ n. n ≡ name.now) }
{
    match Name::new(alloc, name) {
        Ok(name) => Ok(name),
        Err(_) => Err(NoMemory),
    }
}

// The stores that a script may name, in the order in which the program attaches them.
fn store_names(alloc: Global) -> Result<Names, NoMemory>
    ensures { IfOk result (λ names. names ≡ own_stores) }
{
    let mut names = Names::new(alloc);
    names.push(named(alloc, "ordered")?)?;
    names.push(named(alloc, "hashed")?)?;
    names.push(named(alloc, "sqlite")?)?;
    names.push(named(alloc, "sharded")?)?;
    Ok(names)
}

// The first promise of the events alone that fails.
fn fault_of_events(
    alloc: Global,
    script: &Script,
    outcome: &Outcome,
) -> Result<Option<Promise>, NoMemory>
    ensures kept { IfOk result (λ fault. fault ≡ None → FollowsProtocol script.now outcome.now) }
    ensures fails { IfOk result (λ fault. IfSome fault (Fails script.now outcome.now)) }
{
    let events = outcome.events.as_slice();
    if !is_execution(alloc, script, events)? {
        return Ok(Some(Promise::Executed));
    }
    if !answers_have_causes(alloc, &script.catalog, events)? {
        return Ok(Some(Promise::Causes));
    }
    if !calls_are_counted(alloc, &script.catalog, events)? {
        return Ok(Some(Promise::Counts));
    }
    if !records_are_resolved(alloc, &script.catalog, events)? {
        return Ok(Some(Promise::Resolved));
    }
    Ok(None)
}

// The first promise that fails, of those that speak of what the stores contain.
fn fault_on_stores(
    alloc: Global,
    script: &Script,
    outcome: &Outcome,
    stores: &Stores,
) -> Result<Option<Promise>, NoMemory>
    ensures observed { IfOk result (λ fault. fault ≡ None → ReadsAreCommitted script.now outcome.now stores.now) }
    ensures fails { IfOk result (λ fault. IfSome fault (Fails script.now outcome.now)) }
{
    let events = outcome.events.as_slice();
    if !have_no_dirty_reads(alloc, &script.catalog, events, stores)? {
        return Ok(Some(Promise::Shown));
    }
    if !is_in_order(alloc, events, &outcome.order, stores)? {
        return Ok(Some(Promise::Order));
    }
    if !is_serial(alloc, &script.catalog, outcome)? {
        return Ok(Some(Promise::Serial));
    }
    Ok(None)
}

fn verdict_of(
    alloc: Global,
    names: &Names,
    script: &Script,
    outcome: &Outcome,
) -> Result<Verdict, NoMemory>
    ensures { IfOk result (IsVerdictOf script.now outcome.now) }
{
    if let Some(promise) = fault_of_events(alloc, script, outcome)? {
        return Ok(Verdict::Fails(promise));
    }
    let events = outcome.events.as_slice();
    let Some(stores) = stores_of(alloc, names.as_slice(), &script.places, events)? else {
        return Ok(Verdict::Fails(Promise::Stores));
    };
    match fault_on_stores(alloc, script, outcome, &stores)? {
        Some(promise) => Ok(Verdict::Fails(promise)),
        None => Ok(Verdict::AsPromised),
    }
}

// The script that comes before a report.
fn script_of(alloc: Global, names: &Names, before: &[u8]) -> Result<Script, JudgeRefused>
    requires { names.now ≡ own_stores }
    ensures ok { IfOk result (IsScript own_stores before.now) }
    ensures refused { IfErr result (IsNoScript before.now) }
{
    match read_script(alloc, before, names) {
        Ok(script) => Ok(script),
        Err(ScriptRefused::NoMemory) => Err(JudgeRefused::NoMemory),
        Err(refused) => Err(JudgeRefused::NoScript(refused)),
    }
}

// The outcome whose report comes after a script.
fn outcome_of(alloc: Global, report: &[u8]) -> Result<Outcome, JudgeRefused>
    ensures ok { IfOk result (λ o. IsPlain o × (report.now ≡ report_text_of o)) }
    ensures refused { IfErr result (IsNoReport report.now) }
{
    match read_report(alloc, report) {
        Ok(outcome) => Ok(outcome),
        Err(ReportRefused::BadLine(line)) => Err(JudgeRefused::NoReport(line)),
        Err(ReportRefused::NoMemory) => Err(JudgeRefused::NoMemory),
    }
}

/// Whether the report at the end of a text is as promised of the script before it. The report begins at the first line that is a
/// report's title.
pub fn judge(alloc: Global, bytes: &[u8]) -> Result<Verdict, JudgeRefused>
    ensures judged { IfOk result (IsJudged bytes.now) }
    ensures refused { IfErr result (IsNotJudged bytes.now) }
{
    let (before, report) = split(bytes);
    let names = store_names(alloc)?;
    let script = script_of(alloc, &names, before)?;
    let outcome = outcome_of(alloc, report)?;
    let verdict = verdict_of(alloc, &names, &script, &outcome)?;
    Ok(verdict)
}
