//! The lines of a session's input.
ghost use Rattle.std.specs.Prelude.{◌≡◌, ◌≤◌, ◌∷◌, ◌++◌, [], IfOk, IfErr, IsErrOf, OnOk};
ghost use Rattle.sdb_types.specs.Bytes.{HasRisen};
ghost use Rattle.sdb_shell.specs.Ahead.{left};
ghost use Rattle.sdb_shell.specs.Lines.{IsCut, IsLine};

use crate::bytes::{ByteRefused, Bytes};
use sdb_types::Source;
use std::alloc::AllocError;

const MOST_LINE: u32 = 65_536;

/// How a line ends.
#[derive(Clone, Copy, Debug, PartialEq, Eq)]
pub(crate) enum LineEnd {
    /// With LF.
    Lf,
    /// With the input.
    Input,
}

/// Why a line was not read.
#[derive(Clone, Copy, Debug, PartialEq, Eq)]
pub(crate) enum LineStop {
    /// The source failed.
    Failed,
    /// It has more bytes than a line may have.
    Long,
    /// One of its bytes is the first past those that an input may have.
    TooMany,
    NoMemory,
}

impl From<ByteRefused> for LineStop {
    ghost use Rattle.std.specs.Prelude.{◌≡◌};
    ghost use Rattle.sdb_shell.specs.Lines.{stop_of};

    ghost from_gives = { λ r e. e ≡ stop_of r };

    fn from(refused: ByteRefused) -> LineStop {
        match refused {
            ByteRefused::Failed => LineStop::Failed,
            ByteRefused::TooMany => LineStop::TooMany,
        }
    }
}

impl From<AllocError> for LineStop {
    ghost use Rattle.std.specs.Prelude.{◌≡◌};
    ghost use Rattle.sdb_shell.specs.declared.lines.LineStop.TheVariants.{NoMemory as OutOfMemory};

    ghost from_gives = { λ _ e. e ≡ OutOfMemory };

    fn from(_e: AllocError) -> LineStop {
        LineStop::NoMemory
    }
}

// Adds a byte.
fn push(line: &mut Vec<u8>, byte: u8) -> Result<(), AllocError>
    ensures { OnOk result (line.new.items ≡ line.old.items ++ byte ∷ []) }
{
    line.push(byte)?;
    Ok(())
}

/// Reads the next line, without its LF.
#[tactic(auto, using(crate::proofs::Cut::cut_more))]
pub(crate) fn read_line<R: Source>(
    bytes: &mut Bytes,
    source: &mut R,
    line: &mut Vec<u8>,
) -> Result<LineEnd, LineStop>
    ensures line { IfOk result (λ end. IsLine (left bytes.old (R.remaining source.old)) (left bytes.new (R.remaining source.new)) bytes.old.used bytes.new.used end line.new.items) }
    ensures cut { IfErr result (IsCut (left bytes.old (R.remaining source.old)) (left bytes.new (R.remaining source.new)) bytes.old.used bytes.new.used) }
    ensures failed { IsErrOf result LineStop.Failed → HasRisen (R.faults source.old) (R.faults source.new) }
    ensures later { R.faults source.old ≤ R.faults source.new }
{
    line.clear();
    for _ in 0..=MOST_LINE {
        match bytes.next(source)? {
            None => return Ok(LineEnd::Input),
            Some(b'\n') => return Ok(LineEnd::Lf),
            Some(byte) => push(line, byte)?,
        }
    }
    Err(LineStop::Long)
}
