//! Plain tables, and what a client did for one statement: the calls that it made, what they observed, and what a transaction read. Slow
//! functions that compute the definitions, for tests to compare.
#![tactic(auto)]

mod access;
mod catalogs;
mod clock;
mod finished;
mod made;
mod meaning;
mod open;
mod order;
mod points;
mod recorded_read;
mod reply;
mod request;
mod statement;
mod tables;
mod transaction;

pub use access::reads_at;
pub use catalogs::{add_event, catalog_after, column_refusal, is_short_name};
pub use clock::{clock_at, prefix};
pub use finished::has_finished;
pub use made::{Made, calls_of, end_of};
pub use meaning::meaning_of;
pub use open::{Work, has_stopped, is_open, runs_vacuum, someone_does, taker};
pub use order::{Answers, Bodies, Body, run_body, serial};
pub use points::{
    first_ending, from_begin, is_prepare, is_prepared_record, last_prepare, order_of, point,
};
pub use recorded_read::read_set_of;
pub use reply::{decision_at, decision_found_at, decision_learned_at, record_at_key};
pub use request::{asks_row, is_read, is_removal, key_asked, put_by, reads_rows};
pub use statement::exec;
pub use tables::PlainTables;
pub use transaction::{client_of, commit_of, id_of, inside_of, is_effective, ordinal_of, rest_of};
