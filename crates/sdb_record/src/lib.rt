//! Transactional records: their metadata, what a transaction writes, and the committed image of a record.
#![tactic(auto)]

mod access;
mod coordinator;
mod groups;
pub mod laws;
mod meta;
mod moved;
mod part;
mod roll;
mod row;
mod write;

pub use access::{Access, Image, Images, Read, Reads, Scan, Scans};
pub use coordinator::{Decided, Decision};
pub use groups::{Groups, grouped};
pub use meta::{Meta, MetaRefused, meta_of};
pub use moved::{condition_of, has_version, is_same_version, is_unchanged, version_of, writer_of};
pub use part::is_user_name;
pub use roll::{
    Back, committed, committed_image, has_state, is_tombstone, prepared, rolled_back,
    rolled_forward,
};
pub use row::{
    coordinator_key, coordinator_row, coordinator_table, decision_of, decision_row, expired,
    id_of_row, is_coordinator,
};
pub use write::{Change, Changes, Keyed, Write, Writes};
