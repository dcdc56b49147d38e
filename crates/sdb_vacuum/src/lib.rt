//! VACUUM: the tombstones of each table are removed, after each unresolved record was resolved.
#![tactic(auto)]

pub mod laws;
mod rows;
mod vacuum;
mod work;

pub use vacuum::Vacuum;
pub use work::VacuumStep;
