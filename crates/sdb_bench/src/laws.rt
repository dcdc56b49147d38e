//! Laws of a bench.
ghost use Rattle.std.specs.Prelude.{◌≡◌, ◌<◌, ◌^◌, ℕ, List, Some, false, is_some, length, slice_get, true};
ghost use Rattle.std.specs.List.{AllByRecursion};
ghost use Rattle.sdb_bench.specs.Types.{Outcome, TableName};
ghost use Rattle.sdb_record.specs.Coordinator.{is_coordinator_table};
ghost use Rattle.sdb_schema.specs.Catalog.{is_catalog};
ghost use Rattle.sdb_model.specs.Events.{StoreContents};
ghost use Rattle.sdb_model.specs.Exec.{find_table};
ghost use Rattle.sdb_model.specs.Follows.{texts_of};
ghost use Rattle.sdb_model.specs.Plain.{HasLines};
ghost use Rattle.sdb_model.specs.Serial.{IsRun};
ghost use Rattle.sdb_bench.specs.Counts.{uneven_of};
ghost use Rattle.sdb_bench.specs.Script.{IsOfNine, bench_script_of};

/// A run of a bench has no uneven pair, whichever of its transactions are committed.
pub fn runs_are_even()
    ensures { (n : ℕ) (first last : List ℕ) (opening closing : List StoreContents) (outcome : Outcome) → IsRun (bench_script_of n first last) opening closing outcome → uneven_of outcome.tables ≡ 0 }
{}

/// The script of a bench is playable: its catalog is well formed and has no table of the coordinator, it has nine clients with short
/// texts, none of which has an LF, and its moves are steps of these clients.
pub fn scripts_are_playable()
    ensures catalog { (n : ℕ) (first last : List ℕ) → is_catalog (bench_script_of n first last).catalog ≡ true }
    ensures apart { (n : ℕ) (first last : List ℕ) (name : TableName) → is_some (find_table (bench_script_of n first last).catalog name) ≡ true → is_coordinator_table name ≡ false }
    ensures clients { (n : ℕ) (first last : List ℕ) → length (bench_script_of n first last).clients ≡ 9 }
    ensures short { (n : ℕ) (first last : List ℕ) (c i : ℕ) (text : List ℕ) → slice_get (texts_of (bench_script_of n first last).clients c) i ≡ Some text → length text < 2 ^ 32 }
    ensures lines { (n : ℕ) (first last : List ℕ) → HasLines (bench_script_of n first last) }
    ensures moves { (n : ℕ) (first last : List ℕ) → AllByRecursion IsOfNine (bench_script_of n first last).moves }
{}
