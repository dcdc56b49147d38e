//! Moves of a client between two events, by what it knows.
ghost use Rattle.std.specs.Prelude.{◌≡◌, ℕ, List};
ghost use Rattle.law_clients.specs.Types.{Access, Keyed, Record, Span};
ghost use Rattle.sdb_record.specs.declared.access.Access.TheVariants as access;
ghost use Rattle.sdb_phases.specs.Work.{Work};
ghost use Rattle.sdb_phases.specs.Commit.{Stage, out_of_memory};
ghost use Rattle.sdb_snapshot.specs.Seen.{with_written};
ghost use Rattle.sdb_snapshot.specs.Written.{AreChanges};
ghost use Rattle.law_clients.specs.Knowledge.{Knowledge, MayScanSpan, StepsTo, OpenClient, ReadingClient, seen_with};
ghost use Rattle.law_clients.specs.Reads.{MayRecord};
ghost use Rattle.law_clients.specs.ReadAt.{ReadAt, Asking, Done, IsOfData};
ghost use Rattle.law_clients.specs.Vacuum.{VacuumModel, Scanning};
ghost use Rattle.law_clients.specs.System.{Resting, Open, Reading, Committing, RunsVacuum};

/// A statement begins to read tables of records; a read that is done is recorded; a read that failed, or whose rows are not recorded,
/// is given up.
pub fn reads()
    ensures asks { (k : Knowledge) (o : OpenClient k.sys) (a : Access) → IsOfData a → StepsTo k o.client (Reading o.id o.seen a Asking) }
    ensures read_set { (k : Knowledge) (images : List Record) (r : ReadingClient k.sys (Done images)) → MayRecord r.seen r.asked images → StepsTo k r.client (Open r.id (seen_with r images)) }
    ensures gives_up { (k : Knowledge) (s : ReadAt) (r : ReadingClient k.sys s) → StepsTo k r.client (Open r.id r.seen) }
{}

/// A statement writes changes of keys that were read.
pub fn writes()
    ensures { (k : Knowledge) (o : OpenClient k.sys) (changes : List Keyed) → AreChanges o.seen.read_set changes → StepsTo k o.client (Open o.id (with_written o.seen changes)) }
{}

/// A COMMIT may answer out of memory in place of a conflict.
pub fn starves()
    ensures { (k : Knowledge) (c : ℕ) (p : Work) (s : Stage) → k.sys.clients c ≡ Committing p s → StepsTo k c (Committing p (out_of_memory s)) }
{}

/// VACUUM starts with the rows of a table while no client that hasn't stopped has an open transaction; goes on to a further table; and
/// ends.
pub fn vacuums()
    ensures starts { (k : Knowledge) (c : ℕ) (span : Span) → MayScanSpan k.sys c span → StepsTo k c (RunsVacuum (Scanning span)) }
    ensures goes_on { (k : Knowledge) (c : ℕ) (v : VacuumModel) (span : Span) → k.sys.clients c ≡ RunsVacuum v → IsOfData (access.Scan span) → StepsTo k c (RunsVacuum (Scanning span)) }
    ensures ends { (k : Knowledge) (c : ℕ) (v : VacuumModel) → k.sys.clients c ≡ RunsVacuum v → StepsTo k c Resting }
{}
