//! Laws of the outcomes of runs.
ghost use Rattle.std.specs.Prelude.{All};
ghost use Rattle.sdb_model.specs.Plain.{IsPlain, HasLines};
ghost use Rattle.sdb_report.specs.OneLine.{EventHasNoLf};
ghost use Rattle.law_runs.specs.Laws.{ExecutionOf};
ghost use Rattle.law_runs.specs.Moments.{TraceOf};
ghost use Rattle.law_runs.specs.Facts.{outcome_fits};
ghost use Rattle.law_runs.specs.Runs.{LineRun};

/// Where the stores held nothing of a script's tables, and no statement of it has an LF, no text in the events of an execution has one.
pub fn events_have_no_lf()
    ensures { (x : ExecutionOf) (t : TraceOf x) → HasLines x.script → All EventHasNoLf x.events }
{}

/// The outcome of a run of such a script is plain: its report says all of it.
pub fn runs_are_plain()
    ensures { (r : LineRun) → outcome_fits r.outcome → IsPlain r.outcome }
{}
