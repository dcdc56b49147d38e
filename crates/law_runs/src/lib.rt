//! What holds of every execution of a script's clients, whatever the stores reply; where events end, that they are a run of the script on its
//! stores; and that the outcome of a run is plain.
//!
//! Each law is the contract of a function with an empty body.
#![tactic(auto)]

pub mod decisions;
pub mod dirty_reads;
pub mod ending;
pub mod explained;
mod facts;
pub mod laws;
pub mod order;
pub mod plain;
pub mod points;
pub mod records;
pub mod stores;

pub use facts::outcome_facts;
