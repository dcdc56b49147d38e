//! Catalogs read from the JSON of a schema.
#![tactic(auto)]

mod fault;
mod fields;
pub mod laws;
mod load;
mod parts;
mod tables;
mod words;

pub use fault::SchemaFault;
pub use load::{catalog_of, catalog_with, table_of};
pub use words::{is_short_name, kind_named, known_name, table_named};
