//! Reading reports back: what `report_text` of `sdb_texts` prints.
#![tactic(auto)]

mod alters;
mod answers;
mod events;
pub mod field_laws;
mod keys;
pub mod laws;
mod lines;
mod numbers;
mod parts;
mod refused;
mod report;
mod requests;
mod unread;
mod values;
mod words;

pub use answers::{answer_at, given_at};
pub use keys::{key_at, record_at, table_at};
pub use numbers::{id_at, integer_at, natural_at, u32_at};
pub use refused::ReportRefused;
pub use report::read_report;
pub use requests::{next_how_at, next_landed_how_at, reply_at, request_at};
pub use unread::Unread;
pub use values::{row_at, value_at};
pub use words::{after, expect, name_at, text_of};
