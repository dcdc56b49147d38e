//! What comes of a table that is to be written.

/// What came of a table's row.
#[derive(Clone, Copy)]
pub enum Outcome {
    /// It was put.
    Created,
    /// The row that is there has the same definition.
    Exists,
    /// The row that is there has another definition, and stays.
    Differs,
    /// The catalog has 64 tables and lacks this one, so no row was put.
    Full,
}
