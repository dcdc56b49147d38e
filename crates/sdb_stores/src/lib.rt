//! Stores by name, and the namespaces that are placed on them.
#![tactic(auto)]

mod place;
mod places;
mod registry;
mod stores;

pub use place::{PlaceRefused, table_of};
pub use registry::Registry;
pub use stores::{AttachRefused, Stores};
