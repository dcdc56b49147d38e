//! A store of records: what each of its calls means, and what the stores in memory share.
#![tactic(auto)]

mod batch;
mod condition;
mod fail;
mod memory;
mod puppet;
mod replies;
mod rows;
mod store;

pub use condition::{holds, holds_of_columns};
pub use fail::{Fail, Fails};
pub use memory::Memory;
pub use puppet::{Puppet, Replies};
pub use replies::can_answer;
pub use rows::Rows;
pub use store::{Store, call};
