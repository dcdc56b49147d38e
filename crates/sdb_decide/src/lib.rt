//! The decision of a COMMIT, and what follows it: each write is rolled forward, or back.
#![tactic(auto)]

mod abort;
mod commit;
mod decide;

pub use abort::Abort;
pub use commit::Commit;
pub use decide::Decide;
pub use sdb_phases::{AbortPhase, DecidePhase, DecideStep};
