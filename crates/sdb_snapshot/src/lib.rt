//! What a transaction has read and written, and the rows that it sees.
#![tactic(auto)]

mod difference;
mod key_map;
pub mod laws;
mod overlay;
mod prefix;
mod read_set;
mod row;
mod scan_list;
mod snapshot;
mod spans;
mod write_set;

pub use key_map::KeyMap;
pub use row::row_of;
pub use sdb_record::{Access, Read, Reads, Scan, Scans};
pub use snapshot::{Mark, NoteRefused, Snapshot};
pub use write_set::{MOST_WRITES, WriteRefused};
