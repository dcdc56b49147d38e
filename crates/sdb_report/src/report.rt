//! Reports that are read back.
ghost use Rattle.std.specs.Prelude.{◌≡◌, ◌+◌, ◌-◌, ◌==◌, ◌≤◌, ◌<◌, IfOk, IfErr, Ok, length, take};
ghost use Rattle.std.specs.List.{count_by};
ghost use Rattle.sdb_model.specs.Plain.{IsPlain};
ghost use Rattle.sdb_model.specs.Report.{report_text_of};
ghost use Rattle.sdb_model.specs.declared.event.Outcome.{Outcome};
ghost use Rattle.sdb_report.specs.Reading.{report_in};
ghost use Rattle.sdb_report.specs.Reports.{is_lf, refusal, Reads, Answers, IsRefusedAt};

use crate::parts::whole_report;
use crate::refused::ReportRefused;
use sdb_codec::Stopped;
use sdb_model::Outcome;
use std::alloc::Global;

// How many lines end in the text.
fn lines_in(bytes: &[u8]) -> usize
    ensures count { result ≡ count_by is_lf bytes.now }
    ensures within { result ≤ length bytes.now }
{
    bytes.iter().filter(|b| **b == b'\n').count()
}

// The bad line's number.
fn refused_at(bytes: &[u8], stopped: Stopped) -> ReportRefused
    ensures { result ≡ refusal bytes.now stopped }
{
    match stopped {
        Stopped::Wrong(left) => {
            let read = &bytes[..bytes.len().saturating_sub(left)];
            ReportRefused::BadLine(lines_in(read) as u64 + 1)
        }
        Stopped::NoMemory => ReportRefused::NoMemory,
    }
}

fn report_of(alloc: Global, bytes: &[u8]) -> Result<Outcome, ReportRefused>
    ensures { Reads bytes.now result (report_in bytes.now) }
{
    match whole_report(alloc, bytes) {
        Ok(outcome) => Ok(outcome),
        Err(stopped) => Err(refused_at(bytes, stopped)),
    }
}

/// The outcome whose report the bytes are.
pub fn read_report(alloc: Global, bytes: &[u8]) -> Result<Outcome, ReportRefused>
    // What is read is a plain outcome, and the bytes are its report.
    ensures ok { IfOk result (λ o. IsPlain o × (bytes.now ≡ report_text_of o)) }
    // The report of a plain outcome is read, unless memory runs out.
    ensures only { (o : Outcome) → IsPlain o → bytes.now ≡ report_text_of o → Answers result o }
    // A bad line is the first that no report has there.
    ensures bad { IfErr result (IsRefusedAt bytes.now) }
{
    report_of(alloc, bytes)
}
