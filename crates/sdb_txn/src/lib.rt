//! One transaction: what it reads and writes, what it asks of the stores for that and for its COMMIT, and what the replies come to.
#![tactic(auto)]

mod commit_phases;
mod held;
mod progress;
mod read;
pub mod read_laws;
mod row_kinds;
mod txn;

pub use commit_phases::CommitPhases;
pub use progress::Progress;
pub use read::{ReadPhases, ReadStep};
pub use row_kinds::{Sort, sorted};
pub use sdb_record::Access;
pub use txn::Txn;
