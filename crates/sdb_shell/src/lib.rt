//! The session of one client: each line of its input is accepted as a statement and answered.
#![tactic(auto)]

pub mod account;
mod answering;
mod bytes;
mod drawn;
mod export_refused;
mod exports;
mod group;
mod lines;
mod literals;
mod load;
pub mod load_laws;
mod loaded_rows;
mod loads;
mod refused;
mod saying;
mod sessions;
mod statement;
mod texts;
mod turn;
mod writing;

pub use answering::answer;
pub use export_refused::ExportRefused;
pub use exports::export_table;
pub use loads::load_rows;
pub use refused::SessionRefused;
pub use sessions::session;
