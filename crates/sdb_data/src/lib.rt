//! The rows of a table, read from a text of CSV and written as one.
#![tactic(auto)]

mod fault;
mod field;
mod header;
pub mod laws;
mod print;
mod read;
mod records;

pub use fault::{CsvFault, CsvRefused, Mode};
pub use print::print_table;
pub use read::read_table;
