//! The top call of the program.
#![tactic(auto)]

mod alter;
mod bench;
mod export;
mod input;
mod load;
mod places;
mod play;
mod program;
mod replay;
mod retire;
mod schema;
mod sql;
mod status;
mod streams;
mod written;

pub use program::run;
pub use status::{InputFault, Status};
