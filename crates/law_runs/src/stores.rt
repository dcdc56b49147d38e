//! What holds of the events of a run and of the stores where its tables are.
ghost use Rattle.sdb_model.specs.declared.script.Script.{Script};
ghost use Rattle.law_runs.specs.Points.{HavePoints};
ghost use Rattle.law_runs.specs.Stores.{AreSound};
ghost use Rattle.law_runs.specs.Traces.{TraceOnStores};

/// Where the run invariant holds of events, as made on one store, which agree with the stores of a script whose tables held nothing, each
/// recorded transaction has its point, and what is in the tables is sound.
pub fn invariant_gives_end_on_stores()
    ensures points { (script : Script) (p : TraceOnStores script) → HavePoints script.places p.running.events p.closing }
    ensures sound { (script : Script) (p : TraceOnStores script) → AreSound script.catalog script.places p.closing }
{}
