//! Why each statement of a run has its answer: a second invariant between events and clients, over whatever replies the stores give.
//!
//! Each law is the contract of a function with an empty body.
#![tactic(auto)]

pub mod clock;
pub mod commit_paths;
pub mod ending;
pub mod recovery_paths;
pub mod replies;
pub mod texts;
