//! The phases of a COMMIT and of the recovery of a record, as functions of the replies so far.
#![tactic(auto)]

mod check;
pub mod laws;
mod request;
mod step;

pub use check::{Check, Checks, Expectations, Expected, Target, Wanted};
pub use request::{abort_row, back, decisions, forward, look, prepare};
pub use step::{
    AbortPhase, DecidePhase, DecideStep, Outcome, PrepareStep, RecoverPhase, RecoverStep,
    ValidateStep,
};
