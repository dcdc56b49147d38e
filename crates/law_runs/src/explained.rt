//! Which records are there at every moment, which events put them there, that they pass the checks, and that what recorded
//! transactions read is current.
ghost use Rattle.sdb_model.specs.Explained.{Explained, AreTransactional};
ghost use Rattle.law_runs.specs.Traces.{TracedOnStores};

/// Where the run invariant holds of events, as made on one store, which agree with stores that held nothing of their tables, what
/// is there at every moment is explained by the events, whatever the stores held in between, and what each recorded transaction
/// read is current at its point.
pub fn invariant_gives_explained_on_stores()
    ensures { (t : TracedOnStores) → Explained t.catalog t.places t.running.events t.opening t.moments }
{}

/// There each record that was at a key of a table at any moment passes the checks.
pub fn invariant_gives_transactional_on_stores()
    ensures { (t : TracedOnStores) → AreTransactional t.catalog t.places t.opening t.moments }
{}
