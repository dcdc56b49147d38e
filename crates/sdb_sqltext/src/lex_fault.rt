//! Why no token is read.
ghost use Rattle.std.specs.Prelude.{◌≡◌};
ghost use Rattle.sdb_sqltext.specs.declared.lex_fault.LexError.TheVariants.{NoMemory as OutOfMemory};
ghost use Rattle.sdb_sqltext.specs.declared.lex_fault.LexRefused.TheVariants.{NoMemory as RefusedNoMemory};

use sdb_types::NoMemory;
use std::alloc::{AllocError, AllocFailed};
use thiserror::Error;

#[derive(Clone, Copy)]
pub enum LexError {
    NoMemory,
    /// No token begins here.
    Bad,
    /// A number outside 64 signed bits.
    Wide,
}

impl From<NoMemory> for LexError {
    ghost from_gives = { λ _ e. e ≡ OutOfMemory };

    fn from(_e: NoMemory) -> LexError {
        LexError::NoMemory
    }
}

impl From<AllocError> for LexError {
    ghost from_gives = { λ _ e. e ≡ OutOfMemory };

    fn from(_e: AllocError) -> LexError {
        LexError::NoMemory
    }
}

impl<T: Drop> From<AllocFailed<T>> for LexError {
    ghost from_gives = { λ _ e. e ≡ OutOfMemory };

    fn from(_e: AllocFailed<T>) -> LexError {
        LexError::NoMemory
    }
}

/// Why a text is not made of tokens. A place is an offset in bytes.
#[derive(Clone, Copy, Debug, PartialEq, Eq, Error)]
pub enum LexRefused {
    #[error("no token begins at {0}")]
    BadToken(usize),
    #[error("a number out of range at {0}")]
    TooWide(usize),
    #[error("out of memory")]
    NoMemory,
}

impl From<AllocError> for LexRefused {
    ghost from_gives = { λ _ e. e ≡ RefusedNoMemory };

    fn from(_e: AllocError) -> LexRefused {
        LexRefused::NoMemory
    }
}

impl From<NoMemory> for LexRefused {
    ghost from_gives = { λ _ e. e ≡ RefusedNoMemory };

    fn from(_e: NoMemory) -> LexRefused {
        LexRefused::NoMemory
    }
}
