//! Reports that are refused, and the largest that are drawn.
use sdb_picture::{PictureRefused, picture};
use sdb_types::NoMemory;
use std::alloc::Global;
use std::fmt::Write;
use std::test::Fail;
use test_builders::hold;

// The report of so many idle steps.
fn idle_report(alloc: Global, events: usize) -> Result<String, NoMemory> {
    let mut report = String::new(alloc);
    write!(report, "scalardb report 1\nevents {events}\n")?;
    for i in 0..events {
        write!(report, "{} idle 1\n", i as u128 + 1)?;
    }
    report.push_str("order 0\ntables 0\nend\n")?;
    Ok(report)
}

fn is_drawn(alloc: Global, report: &str) -> bool {
    match picture(alloc, report.as_bytes()) {
        Ok(text) => text.as_str().starts_with("<svg ") && text.as_str().ends_with("</svg>\n"),
        Err(_) => false,
    }
}

fn has_too_many(alloc: Global, report: &str) -> bool {
    matches!(
        picture(alloc, report.as_bytes()),
        Err(PictureRefused::TooManyEvents)
    )
}

fn is_bad_at(alloc: Global, report: &str, line: u64) -> bool {
    match picture(alloc, report.as_bytes()) {
        Err(PictureRefused::BadReport(n)) => n == line,
        _ => false,
    }
}

#[test]
fn a_thousand_events_are_drawn(rt: HostRuntime) -> Result<(), Fail> {
    let report = idle_report(rt.alloc(), 1_000)?;
    hold(Ok(is_drawn(rt.alloc(), report.as_str())))
}

#[test]
fn one_more_is_refused(rt: HostRuntime) -> Result<(), Fail> {
    let report = idle_report(rt.alloc(), 1_001)?;
    hold(Ok(has_too_many(rt.alloc(), report.as_str())))
}

#[test]
fn bad_lines_are_named(rt: HostRuntime) -> Result<(), Fail> {
    let alloc = rt.alloc();
    hold(Ok(
        is_bad_at(alloc, "", 1)
            && is_bad_at(alloc, "scalardb report 1\nevents 1\n2 idle 1\n", 3)
            && is_bad_at(
                alloc,
                "scalardb report 1\nevents 0\norder 0\ntables 0\nend\n\n",
                6,
            ),
    ))
}
