//! Where the events of clients end.
ghost use Rattle.std.specs.Prelude.{List};
ghost use Rattle.law_runs.specs.Types.{Script, TableDump};
ghost use Rattle.sdb_model.specs.Serial.{IsRun};
ghost use Rattle.law_runs.specs.Traces.{EndOnStores, outcome_on};

/// Events of which the run invariant holds, as made on one store, are a run of the script on the stores where its tables are, with
/// some tables to print, where they end there.
pub fn invariant_gives_run_on_stores()
    ensures { (script : Script) (e : EndOnStores script) → (tables : List TableDump) × IsRun script e.opening e.closing (outcome_on e tables) }
{}
