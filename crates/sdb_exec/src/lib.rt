//! Plans: a statement is refused, or asks for rows once and then has its answer and its changes; and rows of a table: what they give a column,
//! which tests they pass, and what a statement makes of them.
#![tactic(auto)]

mod access;
mod change;
mod column;
mod finish;
pub mod laws;
mod mention;
mod plan;
mod read;
mod refuse;
mod select;
mod show;

pub use change::{deletes, inserted_key, literal_at, named_columns, set_columns, updates};
pub use plan::{Plan, PlanRefused, PlanStep};
pub use read::{is_key_name, kind_of, passes, passing, value_at};
pub use show::{cut, observed, projected_all, projected_names};
