//! What comes of a column that is to be added to a table.

/// What came of the table's row.
#[derive(Clone, Copy)]
pub enum Alteration {
    /// It was put, with the column.
    Altered,
    /// The table refuses the column, for the cause of this number.
    Refused(u8),
    /// Another row is there than was read, and stays.
    Differs,
}
