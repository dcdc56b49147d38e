//! What calls show of the decisions on transactions.
ghost use Rattle.law_runs.specs.Decisions.{ObserveOne};
ghost use Rattle.law_runs.specs.Traces.{IsExplainedTrace, Traced};

/// Where events agree with stores in which no row of a transaction changes or goes, all calls show one decision on it.
pub fn calls_observe_one_decision()
    ensures { (t : Traced) → IsExplainedTrace t → ObserveOne t.events }
{}
