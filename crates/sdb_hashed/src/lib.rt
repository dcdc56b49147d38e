//! A store in memory that finds a table, and a partition in it, in trees, and keeps each partition in a bucket of its own.
#![tactic(auto)]

mod bucket;
mod buckets;
mod part;
mod parts;

pub use bucket::Bucket;
pub use buckets::{Bucketed, Buckets, Hashed};
