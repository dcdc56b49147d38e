//! The bytes of a source, one after the other.
ghost use Rattle.std.specs.Prelude.{◌≡◌, ◌≤◌, ◌<◌, ◌+◌, length, [], ◌∷◌, true, false, IfOk, IfSome, IfNone, IfErr, OnErr, IsErrOf};
ghost use Rattle.sdb_types.specs.Bytes.{HasRisen, IsAtEnd, Takes};
ghost use Rattle.sdb_shell.specs.Lines.{HasMore, most_input};

use sdb_types::{Failed, Source};

const PIECE: usize = 4096;

const MOST_INPUT: u32 = 1_073_741_824;

/// Why there is no next byte.
#[derive(Clone, Copy, Debug, PartialEq, Eq)]
pub(crate) enum ByteRefused {
    Failed,
    /// The input has more bytes than it may have.
    TooMany,
}

impl From<Failed> for ByteRefused {
    ghost use Rattle.std.specs.Prelude.{◌≡◌};
    ghost use Rattle.sdb_shell.specs.declared.bytes.ByteRefused.TheVariants.{Failed as SourceFailed};

    ghost from_gives = { λ _ e. e ≡ SourceFailed };

    fn from(_e: Failed) -> ByteRefused {
        ByteRefused::Failed
    }
}

/// Bytes of a source, which are read piece by piece, and how many were used.
#[derive(Drop)]
pub(crate) struct Bytes {
    pub(crate) piece: [u8; PIECE],
    pub(crate) at: usize,
    pub(crate) end: usize,
    pub(crate) used: u32,
    ghost whole: { length piece ≡ 4096 },
    ghost within: { at ≤ end },
    ghost ends: { end ≤ 4096 },
    ghost most: { used ≤ 1073741824 },
}

impl Bytes {
    ghost use Rattle.sdb_shell.specs.Ahead.{ahead, left};

    /// Nothing was read.
    pub(crate) fn new() -> Bytes
        ensures ahead { ahead result ≡ [] }
        ensures used { result.used ≡ 0 }
    {
        Bytes {
            piece: [0; PIECE],
            at: 0,
            end: 0,
            used: 0,
        }
    }

    // Where all bytes are used, reads more. Whether there is a byte.
    fn fill<R: Source>(&mut self, source: &mut R) -> Result<bool, Failed>
        ensures some { IfOk result (λ is. is ≡ true → self.new.at < self.new.end) }
        ensures end { IfOk result (λ is. is ≡ false → IsAtEnd (left self.new (R.remaining source.new))) }
        ensures same { left self.new (R.remaining source.new) ≡ left self.old (R.remaining source.old) }
        ensures used { self.new.used ≡ self.old.used }
        ensures cause { OnErr result (HasRisen (R.faults source.old) (R.faults source.new)) }
        ensures later { R.faults source.old ≤ R.faults source.new }
    {
        if self.at < self.end {
            return Ok(true);
        }
        let n = source.read(&mut self.piece)?;
        self.at = 0;
        self.end = n;
        Ok(n > 0)
    }

    /// The next byte, which is used then; none at the end of the source. Of an input that has more bytes than it may have, the first past
    /// them is refused.
    pub(crate) fn next<R: Source>(&mut self, source: &mut R) -> Result<Option<u8>, ByteRefused>
        ensures byte { IfOk result (λ next. IfSome next (λ b. Takes (b ∷ []) (left self.old (R.remaining source.old)) (left self.new (R.remaining source.new)))) }
        ensures used { IfOk result (λ next. IfSome next (λ b. self.new.used ≡ self.old.used + 1)) }
        ensures end { IfOk result (λ next. IfNone next (IsAtEnd (left self.new (R.remaining source.new)))) }
        ensures none { IfOk result (λ next. IfNone next ((left self.new (R.remaining source.new) ≡ left self.old (R.remaining source.old)) × (self.new.used ≡ self.old.used))) }
        ensures err { OnErr result ((left self.new (R.remaining source.new) ≡ left self.old (R.remaining source.old)) × (self.new.used ≡ self.old.used)) }
        ensures failed { IsErrOf result ByteRefused.Failed → HasRisen (R.faults source.old) (R.faults source.new) }
        ensures too_many { IsErrOf result ByteRefused.TooMany → (self.new.used ≡ most_input) × HasMore (left self.new (R.remaining source.new)) }
        ensures later { R.faults source.old ≤ R.faults source.new }
    {
        if !self.fill(source)? {
            return Ok(None);
        }
        if self.used == MOST_INPUT {
            return Err(ByteRefused::TooMany);
        }
        let byte = self.piece[self.at];
        self.at += 1;
        self.used += 1;
        Ok(Some(byte))
    }
}
