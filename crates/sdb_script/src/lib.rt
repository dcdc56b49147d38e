//! Scripts as texts: read, refused and printed.
#![tactic(auto)]

mod blocks;
mod counted;
mod drafting;
mod fault;
pub mod laws;
mod lines;
mod moves;
mod placings;
mod print;
mod read;
mod schema;
mod words;

pub use fault::{LineFault, ScriptRefused};
pub use print::print_script;
pub use read::{MOST_SCRIPT_BYTES, last_line, read_script};
