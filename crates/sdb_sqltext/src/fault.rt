//! Why tokens are not read, and why a text is no statement.
ghost use Rattle.std.specs.Prelude.{◌≡◌, ◌<◌, ◌^◌, IfSome};
ghost use Rattle.sdb_sqltext.specs.declared.fault.StepError.TheVariants.{NoMemory as StepNoMemory};
ghost use Rattle.sdb_sqltext.specs.Answers.{refusal_of};

use sdb_model::Refusal;
use sdb_types::NoMemory;
use thiserror::Error;

#[derive(Clone, Copy)]
pub enum StepError {
    NoMemory,
    /// No statement goes on with the token at this offset, or with none at the text's end.
    Wrong(usize),
}

impl From<NoMemory> for StepError {
    ghost from_gives = { λ _ e. e ≡ StepNoMemory };

    fn from(_e: NoMemory) -> StepError {
        StepError::NoMemory
    }
}

/// Why a text is no statement. A place is an offset in bytes.
#[derive(Clone, Copy, Debug, PartialEq, Eq, Error)]
pub enum ParseRefused {
    #[error("no token begins at {0}")]
    BadToken(usize),
    #[error("no statement goes on at {0}")]
    NotAStatement(usize),
    #[error("a number out of range at {0}")]
    TooWide(usize),
    #[error("out of memory")]
    NoMemory,
}

impl ParseRefused {
    /// The number of the kind and the place, as answers give them; none where memory ran out.
    pub fn refusal(self) -> Option<Refusal>
        requires { IfSome (refusal_of self) (λ r. r.place < 2 ^ 32) }
        ensures { result ≡ refusal_of self }
    {
        match self {
            ParseRefused::BadToken(at) => Some(Refusal {
                kind: 1,
                place: at as u32,
            }),
            ParseRefused::NotAStatement(at) => Some(Refusal {
                kind: 2,
                place: at as u32,
            }),
            ParseRefused::TooWide(at) => Some(Refusal {
                kind: 3,
                place: at as u32,
            }),
            ParseRefused::NoMemory => None,
        }
    }
}
