//! Laws of reads.
ghost use Rattle.law_protocol.specs.Explained.{CheckSaw, Middle, PrepareSaw, ReadsCurrent};
ghost use Rattle.law_protocol.specs.Runs.{LawfulRun, history_of};

/// A check that found all unchanged, at each key that its transaction doesn't write: every other transaction that prepared the key
/// before had its row by then, and the version read is of the last writer recorded by then.
pub fn check_saw()
    ensures { (r : LawfulRun) → CheckSaw r.plan (history_of r) }
{}

/// The same of the base of a write, at its prepare that was seen and applied.
pub fn prepare_saw()
    ensures { (r : LawfulRun) → PrepareSaw r.plan (history_of r) }
{}

/// What a recorded transaction read is of the last recorded writer before it, at every moment after.
pub fn reads_current()
    ensures { (r : LawfulRun) → ReadsCurrent r.plan (history_of r) }
{}

/// A transaction without a row whose prepares are there, and a recorded one with a later point, have nothing in common: so the
/// first may still be recorded, and come before the other.
pub fn middle()
    ensures { (r : LawfulRun) → Middle r.plan (history_of r) }
{}
