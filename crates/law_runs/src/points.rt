//! The points of the recorded transactions.
ghost use Rattle.law_runs.specs.Points.{HavePoints};
ghost use Rattle.law_runs.specs.Traces.{TracedProgress};

/// Where the run invariant holds of events that agree with stores whose tables began empty, the COMMIT of each recorded transaction was
/// accepted, and no two of them have one point.
pub fn recorded_have_points()
    ensures { (t : TracedProgress) → HavePoints t.places t.progress.events t.closing }
{}
