//! The plain types of the data model: values, names, keys, records, requests to a store and their replies, and
//! the traits of what lies outside the program.
#![tactic(auto)]

mod batch;
mod calls;
mod columns;
mod columns_order;
mod exact;
mod facts;
mod feed;
mod hashes;
mod key;
mod known;
pub mod laws;
mod memory;
mod name;
mod numbers;
mod outside;
mod pair;
mod place;
mod record;
mod rising;
mod same_name;
mod seq;
mod seq_order;
mod shared;
mod shared_order;
mod text;
mod ticks;
mod tray;
mod txid;
mod value;
mod value_order;

pub use batch::{is_batch, is_well_formed, put_at, sent};
pub use calls::Calls;
pub use columns::{Columns, value_named};
pub use exact::{Exact, same};
pub use facts::{batch_facts, key_facts, name_facts, record_facts, table_facts, values_facts};
pub use feed::Feed;
pub use key::{Key, TableName};
pub use known::Known;
pub use memory::{Duplicate, NoMemory};
pub use name::{Name, NameRefused, is_identifier_text};
pub use numbers::Numbers;
pub use outside::{Clock, Failed, Ids, Sink, SinkRefused, Source};
pub use pair::Pair;
pub use place::Place;
pub use record::{Batch, Condition, Put, Record, Records, Reply, Request, Span, State};
pub use rising::find_rising;
pub use seq::Seq;
pub use shared::{AsList, SharedSeq};
pub use text::Txt;
pub use ticks::{Moments, Ticks};
pub use tray::Tray;
pub use txid::TxId;
pub use value::{Names, Octets, Value, Values};
