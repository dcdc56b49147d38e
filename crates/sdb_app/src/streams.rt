//! Reading all of the input, and writing all of the output.
ghost use Rattle.std.specs.Prelude.{◌≡◌, ◌≤◌, ◌<◌, ◌+◌, ◌^◌, ℕ, List, [], length, take, Ok, IfOk, OnOk, OnErr, IsErrOf};
ghost use Rattle.sdb_types.specs.Bytes.{HasRisen, Takes, Appends, IsAtEnd};
ghost use Rattle.sdb_app.specs.Streams.{IsRead};

use sdb_types::{Failed, Sink, SinkRefused, Source};
use std::alloc::{AllocError, Global};

/// What was read of an input.
#[derive(Drop)]
pub enum Input {
    /// All of it, to its end.
    Whole(Vec<u8>),
    /// More bytes than the limit.
    Longer(Vec<u8>),
}

#[derive(Clone, Copy, Debug, PartialEq, Eq)]
pub enum ReadRefused {
    Failed,
    NoMemory,
}

impl From<AllocError> for ReadRefused {
    ghost use Rattle.std.specs.Prelude.{◌≡◌};
    ghost use Rattle.sdb_app.specs.declared.streams.ReadRefused.TheVariants.{NoMemory};

    ghost from_gives = { λ _ e. e ≡ NoMemory };

    fn from(_e: AllocError) -> Self {
        ReadRefused::NoMemory
    }
}

impl From<Failed> for ReadRefused {
    ghost use Rattle.std.specs.Prelude.{◌≡◌};
    ghost use Rattle.sdb_app.specs.declared.streams.ReadRefused.TheVariants.{Failed};

    ghost from_gives = { λ _ e. e ≡ Failed };

    fn from(_e: Failed) -> Self {
        ReadRefused::Failed
    }
}

const PIECE: usize = 4096;

/// Reads to the end of the input, or past a limit.
pub fn read_input<R: Source>(
    alloc: Global,
    source: &mut R,
    limit: usize,
) -> Result<Input, ReadRefused>
    requires { limit < 2 ^ 32 }
    ensures read { IfOk result (IsRead limit (R.remaining source.old) (R.remaining source.new)) }
    ensures later { R.faults source.old ≤ R.faults source.new }
    ensures failed { IsErrOf result ReadRefused.Failed → HasRisen (R.faults source.old) (R.faults source.new) }
{
    let mut bytes = Vec::new(alloc);
    let mut piece = [0; PIECE];
    while bytes.len() <= limit {
        let n = source.read(&mut piece)?;
        if n == 0 {
            return Ok(Input::Whole(bytes));
        }
        bytes.extend_from_slice(&piece[..n])?;
    }
    Ok(Input::Longer(bytes))
}

/// Writes a whole text. Where that fails, a prefix of the text was written.
pub fn write_all<W: Sink>(sink: &mut W, bytes: &[u8]) -> Result<(), SinkRefused>
    ensures all { OnOk result (Appends bytes.now (W.written sink.old) (W.written sink.new)) }
    ensures prefix { OnErr result ((k : ℕ) × (k ≤ length bytes.now) × Appends (take k bytes.now) (W.written sink.old) (W.written sink.new)) }
    ensures later { W.faults sink.old ≤ W.faults sink.new }
    ensures failed { IsErrOf result SinkRefused.Failed → HasRisen (W.faults sink.old) (W.faults sink.new) }
{
    let mut at = 0;
    while at < bytes.len() {
        let n = sink.write(&bytes[at..])?;
        at += n;
    }
    Ok(())
}
