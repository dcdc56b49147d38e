//! Writing a report, of which only a part is in memory at a time.
ghost use Rattle.std.specs.Prelude.{◌≡◌, ◌++◌, ◌≤◌, [], OnOk, OnErr, IsErrOf, string_bytes};
ghost use Rattle.sdb_types.specs.Bytes.{Appends, HasRisen};
ghost use Rattle.sdb_model.specs.Report.{event_line, event_lines, report_text_of};
ghost use Rattle.sdb_app.specs.Promise.{IsPrefixAdded};
ghost use Rattle.sdb_app.specs.Streams.{IsWriting};

use crate::streams::write_all;
use sdb_model::{Event, Outcome, put_event_line, put_report_end, put_report_start};
use sdb_types::{Sink, SinkRefused};
use std::alloc::Global;

// How many bytes are held before they are written.
const HELD: usize = 65536;

// Writes what is held.
fn flush<W: Sink>(output: &mut W, held: &mut String) -> Result<(), SinkRefused>
    ensures all { OnOk result (Appends (string_bytes held.old) (W.written output.old) (W.written output.new)) }
    ensures none { OnOk result (string_bytes held.new ≡ []) }
    ensures prefix { OnErr result (IsPrefixAdded (string_bytes held.old) (W.written output.old) (W.written output.new)) }
    ensures later { W.faults output.old ≤ W.faults output.new }
    ensures failed { IsErrOf result SinkRefused.Failed → HasRisen (W.faults output.old) (W.faults output.new) }
{
    write_all(output, held.as_bytes())?;
    held.clear();
    Ok(())
}

// Writes what is held, where it is much.
fn flush_much<W: Sink>(output: &mut W, held: &mut String) -> Result<(), SinkRefused>
    ensures some { OnOk result (IsWriting (string_bytes held.old) (W.written output.old) (W.written output.new) (string_bytes held.new)) }
    ensures prefix { OnErr result (IsPrefixAdded (string_bytes held.old) (W.written output.old) (W.written output.new)) }
    ensures later { W.faults output.old ≤ W.faults output.new }
    ensures failed { IsErrOf result SinkRefused.Failed → HasRisen (W.faults output.old) (W.faults output.new) }
{
    if held.len() < HELD {
        return Ok(());
    }
    flush(output, held)?;
    Ok(())
}

// Writes the line of an event, or holds it.
fn write_event<W: Sink>(
    output: &mut W,
    held: &mut String,
    number: u64,
    event: &Event,
) -> Result<(), SinkRefused>
    ensures some { OnOk result (IsWriting (string_bytes held.old ++ event_line number event.now) (W.written output.old) (W.written output.new) (string_bytes held.new)) }
    ensures prefix { OnErr result (IsPrefixAdded (string_bytes held.old ++ event_line number event.now) (W.written output.old) (W.written output.new)) }
    ensures later { W.faults output.old ≤ W.faults output.new }
    ensures failed { IsErrOf result SinkRefused.Failed → HasRisen (W.faults output.old) (W.faults output.new) }
{
    let Ok(()) = put_event_line(held, number, event) else {
        return Err(SinkRefused::NoMemory);
    };
    flush_much(output, held)?;
    Ok(())
}

// Writes the lines of events, or holds them.
fn write_events<W: Sink>(
    output: &mut W,
    held: &mut String,
    events: &[Event],
) -> Result<(), SinkRefused>
    ensures some { OnOk result (IsWriting (string_bytes held.old ++ event_lines 1 events.now) (W.written output.old) (W.written output.new) (string_bytes held.new)) }
    ensures prefix { OnErr result (IsPrefixAdded (string_bytes held.old ++ event_lines 1 events.now) (W.written output.old) (W.written output.new)) }
    ensures later { W.faults output.old ≤ W.faults output.new }
    ensures failed { IsErrOf result SinkRefused.Failed → HasRisen (W.faults output.old) (W.faults output.new) }
{
    for (i, event) in events.iter().enumerate() {
        write_event(output, held, i as u64 + 1, event)?;
    }
    Ok(())
}

/// Writes the report of an outcome. Where that fails, a prefix of its text was written.
pub fn write_report<W: Sink>(
    alloc: Global,
    output: &mut W,
    outcome: &Outcome,
) -> Result<(), SinkRefused>
    ensures all { OnOk result (Appends (report_text_of outcome.now) (W.written output.old) (W.written output.new)) }
    ensures prefix { OnErr result (IsPrefixAdded (report_text_of outcome.now) (W.written output.old) (W.written output.new)) }
    ensures later { W.faults output.old ≤ W.faults output.new }
    ensures failed { IsErrOf result SinkRefused.Failed → HasRisen (W.faults output.old) (W.faults output.new) }
{
    let mut held = String::new(alloc);
    let Ok(()) = put_report_start(&mut held, &outcome.events) else {
        return Err(SinkRefused::NoMemory);
    };
    write_events(output, &mut held, outcome.events.as_slice())?;
    let Ok(()) = put_report_end(&mut held, outcome) else {
        return Err(SinkRefused::NoMemory);
    };
    flush(output, &mut held)?;
    Ok(())
}
