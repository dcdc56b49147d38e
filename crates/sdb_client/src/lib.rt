//! One client: it takes statements, makes their calls one at a time, and answers them.
#![tactic(auto)]

mod answers;
mod call;
mod client;
mod finish;
mod gate;
pub mod laws;
mod next;
mod plan;
mod slot;
mod slots;
mod stored;
mod vacuum;

pub use client::Client;
pub use gate::Gate;
pub use slot::ClientSlot;
pub use slots::{fresh_slots, gate_at};
pub use stored::prove_order;
