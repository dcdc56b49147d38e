//! The clients of a script at work on stores, one step at a time.
#![tactic(auto)]

mod delivery;
mod ending;
mod flights;
mod perform;
mod turns;
mod world;

pub use world::World;
