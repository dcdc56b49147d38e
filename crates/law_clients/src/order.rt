//! The recorded transactions in the order of their points.
ghost use Rattle.std.specs.Prelude.{ℤ, ◌≡◌, ◌<◌, ◌^◌, ℕ, List, true};
ghost use Rattle.std.specs.FinMap.{empty};
ghost use Rattle.law_clients.specs.Types.{Decision, Script, TableDump};
ghost use Rattle.sdb_model.specs.Exec.{Tables};
ghost use Rattle.sdb_model.specs.Serial.{IsRun};
ghost use Rattle.sdb_record.specs.declared.coordinator.Decision.TheVariants as decision;
ghost use Rattle.law_protocol.specs.Lawful.{IsRowObserved, protocol_state};
ghost use Rattle.sdb_snapshot.specs.Seen.{Seen};
ghost use Rattle.law_clients.specs.Reads.{SeenOk};
ghost use Rattle.law_clients.specs.Left.{AreLeft, RunsWhole, ContainsTables};
ghost use Rattle.law_protocol.specs.Runs.{LawfulRun, contents_of_run};
ghost use Rattle.law_clients.specs.Ordered.{StoriesEnd, RunWithOrder, RunWithTexts, IsInRealTime, IsSerialWith, outcome_of};

/// Over a run, each record that a transaction read is that of some transaction, and shows the row that this one left there.
pub fn read_set_was_recorded()
    ensures { (r : LawfulRun) (s : Seen) → SeenOk r.past s → AreLeft r.plan s }
{}

/// Over a run, all that was observed of a transaction's row agrees: whoever resolves records of it comes to one decision.
pub fn rows_agree()
    ensures observed { (r : LawfulRun) (t : ℕ) (c d : Decision) (m n : ℤ) → t < 2 ^ 128 → IsRowObserved r.past t c m → IsRowObserved r.past t d n → c ≡ d }
    ensures put { (r : LawfulRun) (t : ℕ) (d : Decision) (m : ℤ) → t < 2 ^ 128 → (protocol_state r.past).dead t ≡ true → IsRowObserved r.past t d m → d ≡ decision.Aborted }
{}

/// Over a run, the recorded transactions in the order of their points, run whole one after the other from empty tables, each under the
/// catalog of its point, give the answers that their statements had, and the tables at the end have the rows that the stores show.
pub fn order_runs_whole()
    ensures { (r : RunWithOrder) → (e : Tables) × RunsWhole r.catalog r.fit r.run.past r.ran r.order empty e × ContainsTables r.run.places (contents_of_run r.run) e }
{}

/// Over a run whose actions are those that the texts give, where each recorded transaction ran as its statements say: there are tables to
/// print with which the run is serial, and the order respects real time.
pub fn run_is_serial()
    ensures { (r : RunWithTexts) → (tables : List TableDump) × IsSerialWith r tables × IsInRealTime r }
{}

/// Events of any number of clients with their stories, which follow a script's moves and agree with stores whose tables began empty, are
/// a run of the script, with some tables to print.
pub fn story_gives_run()
    ensures { (script : Script) (e : StoriesEnd script) → (tables : List TableDump) × IsRun script e.opening e.closing (outcome_of e tables) }
{}
