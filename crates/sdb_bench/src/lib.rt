//! The bench: a script of any number of transactions, made from that number, and the five lines that count its run.
#![tactic(auto)]

mod clients;
mod counts;
mod draws;
pub mod laws;
mod script;
mod side;
mod texts;

pub use counts::bench_text;
pub use script::bench_script;
pub use side::Side;
