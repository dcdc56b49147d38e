//! One store over several boxes, each a store of its own: a partition is in one of them, and can be moved to another.
#![tactic(auto)]

mod begins;
mod calls;
mod homes;
mod moved;
mod moves;
mod part;
mod parts;
mod refused;
mod shards;
mod version;

pub use part::Part;
pub use parts::Parts;
pub use refused::MoveRefused;
pub use shards::Shards;
