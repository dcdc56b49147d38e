//! The extra reads of a COMMIT: whether what the transaction read is still there.
#![tactic(auto)]

mod checks;
mod key_map;
pub mod laws;
mod rescan;
mod validate;

pub use sdb_phases::ValidateStep;
pub use validate::Validate;
