//! Whether the report of a script is what the program promises, by the checkers of runs.
#![tactic(auto)]

mod contents;
mod input;
mod moments;
mod order;
mod promises;
mod refused;
mod serial;
mod whole;

pub use promises::{Promise, Verdict};
pub use refused::JudgeRefused;
pub use whole::judge;
