//! The words of the program, read by `clap`: which command they are.
#![tactic(auto)]

mod command;
pub mod laws;
mod names;
mod numbers;
mod parser;
mod places;
mod read;

pub use command::{Command, WordsRefused};
pub use read::command_of;
