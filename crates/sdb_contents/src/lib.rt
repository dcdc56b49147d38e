//! The stores of a run: one call on them, the scans of the run's tables, and whether these are empty; and what they hold in the end: the
//! transactions that are recorded, and the rows of each table.
#![tactic(auto)]

mod calls;
mod closing;
mod commits;
mod decisions;
mod dump_refused;
mod executed;
mod moving;
mod opening;
mod order;
mod prepares;
mod refused;
mod retire_call;
pub mod retire_laws;
mod retire_read;
mod retire_refused;
mod retire_whole;
mod retire_write;
mod retiring;
mod rows;
mod see;
mod seen;
mod survey;
mod tables;
mod version;

pub use calls::call;
pub use closing::{Closing, closing_dump};
pub use decisions::{Decisions, TxIds, decisions_of};
pub use dump_refused::ClosingRefused;
pub use executed::{Executed, begins, ends, is_word, statements_by};
pub use opening::{first_record, scan};
pub use order::order_of;
pub use refused::CallRefused;
pub use retire_refused::RetireRefused;
pub use retiring::{can_retire, retire};
pub use rows::dump_of;
pub use tables::{TableNames, run_tables, table_at};
