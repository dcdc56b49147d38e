//! Records and keys as bytes, each in one spelling.
#![tactic(auto)]

mod columns;
mod fields;
pub mod laws;
mod lengths;
mod reading;
mod refused;
mod writing;

pub use lengths::{key_has_spelling, record_has_spelling};
pub use reading::{read_key, read_record};
pub use refused::{ReadRefused, Stopped};
pub use writing::{write_key, write_record};
