//! Why a session stopped.
use sdb_model::Which;
use thiserror::Error;

/// Why a session stopped before the end of its input.
#[derive(Debug, Drop, Error)]
pub enum SessionRefused {
    /// The source failed.
    #[error("read fault")]
    ReadFault,
    /// The sink failed; a prefix of the answers was written.
    #[error("write fault")]
    WriteFault,
    /// The line of this number, from 1, is not UTF-8.
    #[error("bad input at {0}")]
    BadLine(u64),
    /// The line of this number is too long, or has the first byte past those that an input may have.
    #[error("limit at {0}")]
    Limit(u64, Which),
    #[error("out of memory")]
    NoMemory,
}
