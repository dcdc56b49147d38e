//! What tests are made of: values, records, calls and events from constants, and the driver that goes through a table of
//! cases.
#![tactic(auto)]

mod answers;
mod asked;
mod cases;
mod cells;
mod events;
mod keys;
mod rows;

pub use answers::{AnswerCase, answer_of};
pub use asked::{Ask, ReplyCase, reply_of, request_of};
pub use cases::{Case, Otherwise, all_cases, hold};
pub use cells::{Cell, columns_of, names_of, set_column, set_columns, value_of, values_of};
pub use events::{Happening, event_of, events_of};
pub use keys::{Place, account, key_of, number_of, span_of, table_of};
pub use rows::{Row, account_with, record_of, records_of};
