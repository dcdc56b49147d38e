//! Laws of a VACUUM, for every list of replies that its calls can get.
ghost use Rattle.std.specs.Prelude.{◌≡◌, ◌≤◌, ◌+◌, ◌*◌, ℕ, true, length};
ghost use Rattle.sdb_types.specs.declared.key.Key.{Key};
ghost use Rattle.sdb_phases.specs.RecoverLaws.{received_fault};
ghost use Rattle.sdb_vacuum.specs.declared.work.VacuumStep.TheVariants as step;
ghost use Rattle.sdb_vacuum.specs.Ends.{IsBadAt};
ghost use Rattle.sdb_vacuum.specs.Valid.{IsValid};
ghost use Rattle.sdb_vacuum.specs.Calls.{removals, tombstones, vacuum_after};
ghost use Rattle.sdb_vacuum.specs.Run.{VacuumRun, answer_of, rows_found};
ghost use Rattle.sdb_record.specs.Rolls.{AreCommitted};

/// A VACUUM removes tombstones alone: whatever its replies, the record that it deletes is a committed one that deletes its row, and
/// the one that it resolves is unresolved.
pub fn removes_tombstones_alone()
    ensures { (r : VacuumRun) → IsValid (vacuum_after r.catalog r.past).stage }
{}

/// A VACUUM is answered with the number of its deletes of committed records that were applied.
pub fn counts_removals()
    ensures { (r : VacuumRun) (n : ℕ) → answer_of r ≡ step.Count n → n ≡ removals r.catalog r.past }
{}

/// A VACUUM is Faulted only where a call faulted. BadRecord names a row that a scan found and that is no record of a transaction, or a
/// coordinator's key where the newest reply holds a record that isn't a well formed row.
pub fn vacuum_ends()
    ensures faulted { (r : VacuumRun) → answer_of r ≡ step.Faulted → received_fault r.past ≡ true }
    ensures bad { (r : VacuumRun) (key : Key) → answer_of r ≡ step.BadRecord key → IsBadAt key r.past }
{}

/// A VACUUM makes at most one call for each table, and five for each row that its scans found: four of a recovery, and a delete. Where
/// all tables are done and each row was a committed record, it has made exactly one for each table and one for each tombstone.
pub fn vacuum_calls()
    ensures most { (r : VacuumRun) → length r.past ≤ length r.catalog + 5 * length (rows_found r) }
    ensures exact { (r : VacuumRun) (n : ℕ) → AreCommitted (rows_found r) → answer_of r ≡ step.Count n → length r.past ≡ length r.catalog + tombstones (rows_found r) }
{}
