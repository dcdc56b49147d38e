//! The first phase of a COMMIT: each write is prepared, in order.
#![tactic(auto)]

mod prepare;

pub use prepare::Prepare;
pub use sdb_phases::PrepareStep;
