//! Tables and catalogs.
#![tactic(auto)]

mod added;
mod catalog;
mod column;
pub mod laws;
mod make;
mod order;
mod row;
mod table;

pub use added::ColumnRefused;
pub use catalog::{AddRefused, Catalog};
pub use column::{all_rise, find_column, find_column_near};
pub use make::TableRefused;
pub use row::RowRefused;
pub use table::{Column, ColumnList, Direction, Kind, Order, Orders, Table};
