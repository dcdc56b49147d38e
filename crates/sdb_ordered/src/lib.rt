//! A store in memory that keeps its records in the order of their keys.
#![tactic(auto)]

mod tree;

use sdb_store::Memory;
pub use tree::{Tree, least_key};

/// The store in memory over a tree. Its contents are known.
pub type Ordered = Memory<Tree>;
