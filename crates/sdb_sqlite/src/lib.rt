//! A store of records that keeps them in one table of an SQLite database.
#![tactic(auto)]

mod batch;
mod body;
mod calls;
mod facts;
mod held;
mod kept;
mod refused;
mod rows;
mod spelling;
mod statements;

pub use held::Held;
pub use kept::Kept;
pub use refused::KeptRefused;
