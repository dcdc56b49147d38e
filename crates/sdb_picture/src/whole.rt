//! Pictures of reports.
ghost use Rattle.std.specs.Prelude.{◌≡◌, ◌++◌, OnOk, IfOk, IfErr};
ghost use Rattle.std.specs.String.{string_bytes};
ghost use Rattle.sdb_model.specs.Plain.{IsPlain};
ghost use Rattle.sdb_model.specs.Report.{report_text_of};
ghost use Rattle.sdb_model.specs.declared.event.Outcome.{Outcome};
ghost use Rattle.sdb_picture.specs.Marks.{picture_of};
ghost use Rattle.sdb_picture.specs.Svg.{svg_of};
ghost use Rattle.sdb_picture.specs.Whole.{Answers, IsDrawn, IsRefused, refusal, svg_over};

use crate::heading::put_heading;
use crate::refused::PictureRefused;
use crate::rows::{put_groups, put_points};
use crate::{Lanes, lanes_of};
use sdb_model::Outcome;
use sdb_report::{ReportRefused, read_report};
use sdb_types::NoMemory;
use std::alloc::Global;

const MOST_EVENTS: usize = 1_000;

fn put_over(out: &mut String, lanes: &Lanes, outcome: &Outcome) -> Result<(), NoMemory>
    ensures { OnOk result (string_bytes out.new ≡ string_bytes out.old ++ svg_over lanes.now outcome.now) }
{
    let rows = outcome.events.len();
    put_heading(out, lanes, rows)?;
    put_points(out, lanes, rows, outcome.order.as_slice())?;
    put_groups(out, lanes, outcome.events.as_slice())?;
    out.push_str("</svg>\n")?;
    Ok(())
}

fn drawn(alloc: Global, outcome: &Outcome) -> Result<String, NoMemory>
    ensures { IfOk result (λ text. string_bytes text ≡ svg_of (picture_of outcome.now)) }
{
    let lanes = lanes_of(alloc, outcome.events.as_slice())?;
    let mut out = String::new(alloc);
    put_over(&mut out, &lanes, outcome)?;
    Ok(out)
}

fn drawn_within(alloc: Global, outcome: &Outcome) -> Result<String, PictureRefused>
    ensures { Answers string_bytes result outcome.now }
{
    if outcome.events.len() > MOST_EVENTS {
        return Err(PictureRefused::TooManyEvents);
    }
    Ok(drawn(alloc, outcome)?)
}

fn refusal_of(refused: ReportRefused) -> PictureRefused
    ensures { result ≡ refusal refused }
{
    match refused {
        ReportRefused::BadLine(n) => PictureRefused::BadReport(n),
        ReportRefused::NoMemory => PictureRefused::NoMemory,
    }
}

/// The picture of a report, as SVG.
pub fn picture(alloc: Global, report: &[u8]) -> Result<String, PictureRefused>
    // What is drawn is a plain outcome of at most 1,000 events, and the bytes are its report.
    ensures ok { IfOk result (λ text. IsDrawn report.now (string_bytes text)) }
    // The report of a plain outcome is drawn, or refused for its events alone, unless memory runs out.
    ensures only { (o : Outcome) → IsPlain o → report.now ≡ report_text_of o → Answers string_bytes result o }
    // A bad line is the first that no report has there, and too many events are more than 1,000.
    ensures err { IfErr result (IsRefused report.now) }
{
    match read_report(alloc, report) {
        Ok(outcome) => drawn_within(alloc, &outcome),
        Err(refused) => Err(refusal_of(refused)),
    }
}
