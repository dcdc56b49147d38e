//! Whether the answers of a run have their causes, its calls are counted, unresolved records were rolled before a statement was answered from
//! them, and no read was dirty; and whether its events are an execution of the script's clients. The definitions decided, slowly, by
//! search, for tests.
#![tactic(auto)]

mod all;
mod answer;
mod bad;
mod busy;
mod caused;
mod clients;
mod commit;
mod conflict;
mod counts;
mod executed;
mod full;
mod had;
mod keys;
mod misfit;
mod plain;
mod puts;
mod reading;
mod replies;
mod rolls;
mod row;
mod same;
mod sign;
mod stores;
mod turn;
mod turned;

pub use all::{broken_in, calls_are_counted, have_no_dirty_reads, records_are_resolved};
pub use busy::{is_early, is_unresolved, prepared_moment};
pub use caused::{answers_have_causes, has_cause};
pub use commit::is_commit_of;
pub use executed::is_execution;
pub use reading::statement_in;
pub use same::{is_answered_alike, is_answered_so, is_same_executed};
pub use stores::{Shelves, StoreContents, Stores};
pub use turned::turned_away;
