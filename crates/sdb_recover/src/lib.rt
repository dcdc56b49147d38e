//! The recovery of a record that a transaction left unresolved.
#![tactic(auto)]

mod recover;

pub use recover::Recover;
pub use sdb_phases::{RecoverPhase, RecoverStep};
