//! Laws of the order of recorded transactions.
ghost use Rattle.std.specs.Prelude.{List, ℕ};
ghost use Rattle.law_protocol.specs.Runs.{LawfulRun, history_of, contents_of_run};
ghost use Rattle.law_protocol.specs.Serial.{IsOrdered, ReadsSerial, RowsSerial};

/// Each recorded transaction read what those with earlier points left, one after the other.
pub fn reads_are_serial()
    ensures { (r : LawfulRun) (order : List ℕ) → IsOrdered (history_of r) order → ReadsSerial r.plan (history_of r) order }
{}

/// The rows that the stores show are those that the recorded transactions left, one after the other.
pub fn rows_are_serial()
    ensures { (r : LawfulRun) (order : List ℕ) → IsOrdered (history_of r) order → RowsSerial r.plan r.places (contents_of_run r) order }
{}
