//! The law of the protocol over events: what holds at every moment of a run whose events follow the protocol's rules; and that a run on one
//! store is a run on several.
//!
//! It speaks of lists of events, of the replies in them, and of a trace of the stores; of no machine. Each law is the contract of a
//! function with an empty body.
#![tactic(auto)]

pub mod explained;
pub mod images;
pub mod laws;
pub mod reads;
pub mod real_time;
pub mod rows;
pub mod runs;
pub mod serial;
pub mod worked;
