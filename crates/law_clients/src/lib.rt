//! An inductive invariant between the events of a run and the states of its clients, and the proof that every step of a client preserves it.
//!
//! In four parts. Knowledge (`turns`, `machines`, `moves`, `knowledge`): what a model of a client knows of its place in a COMMIT, a read or a
//! VACUUM, and that each of its turns obeys the rules of the protocol. Histories (`history`, `statements`, `stories`, `order`): each client's
//! history is cut into transactions, and the recorded ones, run whole one after the other, give the answers that clients had. The invariant
//! (`invariant`): both hold of the events so far, each step of a client preserves them, and where the events end they imply a run. Refinement
//! (`texts`, `replying`, `keeping`, `about`, `fitting`): the client of the program refines the model.
//!
//! It speaks of no store. Each law is the contract of a function with an empty body.
#![tactic(auto)]

pub mod about;
pub mod fitting;
pub mod history;
pub mod invariant;
pub mod keeping;
pub mod knowledge;
pub mod machines;
pub mod moves;
pub mod order;
pub mod replying;
pub mod sessions;
pub mod statements;
pub mod stories;
pub mod texts;
pub mod turns;
