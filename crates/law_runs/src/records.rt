//! What is in the stores.
ghost use Rattle.law_runs.specs.Points.{AreKnown};
ghost use Rattle.law_runs.specs.Traces.{TracedProgress};

/// Where the run invariant holds of events that agree with stores whose tables began empty, each record at a key of a table passes the
/// checks, and each record of the coordinator's table is a well formed row.
pub fn records_are_known()
    ensures { (t : TracedProgress) → AreKnown t.places t.closing }
{}
