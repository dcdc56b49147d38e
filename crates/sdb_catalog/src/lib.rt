//! The rows of the catalog: of each table one, with its definition as JSON and the name of the store that keeps it.
#![tactic(auto)]

mod alter;
mod alteration;
mod call;
mod definition;
mod entry;
pub mod laws;
mod open;
mod outcome;
mod read;
mod refused;
mod rows;
mod write;

pub use alter::alter_table;
pub use definition::definition_text;
pub use entry::{Entry, next_revision};
pub use open::{count_tables, is_coordinators, open_catalog};
pub use read::entry_of;
pub use refused::{AlterRefused, CatalogRefused};
pub use rows::{coordinators, metadata_table, row_of};
pub use write::store_catalog;
