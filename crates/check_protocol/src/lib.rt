//! The protocol's state after a list of events, newest first, and the records that they observed; and whether the list obeys the rules of the
//! protocol: the law's definitions decided, slowly, by search.
#![tactic(auto)]

mod commit;
mod keys;
mod labelled;
mod late;
mod lawful;
pub mod laws;
mod plan;
mod puts;
mod records;
mod rolls;
mod rules;
mod same;
pub mod tests;

pub use commit::prepared_if_sound;
pub use labelled::{
    Ack, Action, Keys, Labelled, is_acknowledged, is_asked, is_begun, is_checked,
    is_commit_started, is_dead, is_deciding, is_met_once, is_open, is_past_prepares, is_risked,
    is_stopped, is_won, owner,
};
pub use late::was_delayed;
pub use lawful::is_lawful;
pub use plan::{
    Plan, ReadItem, items_of, moment_of, version_among, version_read, write_of, writes_of,
};
pub use records::{
    before_writer, decided, has_no_before, is_before_image_of, is_committed, is_forward,
    is_prepared_by, is_settled, moments, observed, observes_abort, observes_bad_row,
    observes_commit, record_among, settles, settles_removed, writer,
};
pub use same::{
    is_same_action, is_same_key, is_same_put, is_same_record, is_same_request, is_same_span,
};
