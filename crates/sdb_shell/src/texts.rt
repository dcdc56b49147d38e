//! The statements of a session's input, line by line.
ghost use Rattle.std.specs.Prelude.{◌≡◌, ◌≤◌, IfOk, IfErr, IfSome, IsErrOf, is_some};
ghost use Rattle.std.specs.Str.{is_utf8};
ghost use Rattle.sdb_types.specs.Bytes.{HasRisen};
ghost use Rattle.sdb_shell.specs.Ahead.{left};
ghost use Rattle.sdb_shell.specs.Texts.{IsBad, IsNext, IsRefusedAt, IsText, refused_at as refused_at_lem};

use crate::bytes::Bytes;
use crate::lines::{LineEnd, LineStop, read_line};
use crate::refused::SessionRefused;
use sdb_model::Which;
use sdb_types::{Source, Txt};
use std::alloc::Global;

/// The next line: its text, if it isn't empty, and how it ends.
pub(crate) struct Next {
    pub(crate) text: Option<Txt>,
    pub(crate) end: LineEnd,
}

// By hand: each drop is then one call, where a derived one is written out at each exit, with a call for each field.
impl Drop for Next {
    fn drop(self) {
        let Next { text: _, end: _ } = self;
    }
}

// What a line stops a session for.
fn refused_at(n: u64, stop: LineStop) -> SessionRefused
    ensures { result ≡ refused_at_lem n stop }
{
    match stop {
        LineStop::Failed => SessionRefused::ReadFault,
        LineStop::Long => SessionRefused::Limit(n, Which::LineBytes),
        LineStop::TooMany => SessionRefused::Limit(n, Which::InputBytes),
        LineStop::NoMemory => SessionRefused::NoMemory,
    }
}

// A line as a text, where it is UTF-8.
fn as_text(line: &[u8]) -> Option<&str>
    ensures text { IfSome result (λ text. text.now ≡ line.now) }
    ensures utf8 { is_some result ≡ is_utf8 line.now }
{
    match str::from_utf8(line) {
        Ok(text) => Some(text),
        Err(_) => None,
    }
}

// The text of the line of a number, if it isn't empty.
fn text_of(alloc: Global, line: &[u8], n: u64) -> Result<Option<Txt>, SessionRefused>
    ensures text { IfOk result (IsText line.now) }
    ensures bad { IfErr result (IsBad n line.now) }
{
    if line.is_empty() {
        return Ok(None);
    }
    let Some(text) = as_text(line) else {
        return Err(SessionRefused::BadLine(n));
    };
    match Txt::new(alloc, text) {
        Ok(text) => Ok(Some(text)),
        Err(_) => Err(SessionRefused::NoMemory),
    }
}

/// Reads the line of a number, into the bytes of a line.
#[tactic(auto, using(crate::proofs::Refusing::stops, crate::proofs::Refusing::refuses))]
pub(crate) fn next_text<R: Source>(
    alloc: Global,
    bytes: &mut Bytes,
    source: &mut R,
    line: &mut Vec<u8>,
    n: u64,
) -> Result<Next, SessionRefused>
    ensures next { IfOk result (IsNext (left bytes.old (R.remaining source.old)) (left bytes.new (R.remaining source.new)) bytes.old.used bytes.new.used) }
    ensures refused { IfErr result (IsRefusedAt n (left bytes.old (R.remaining source.old)) (left bytes.new (R.remaining source.new)) bytes.old.used bytes.new.used) }
    ensures failed { IsErrOf result SessionRefused.ReadFault → HasRisen (R.faults source.old) (R.faults source.new) }
    ensures later { R.faults source.old ≤ R.faults source.new }
{
    match read_line(bytes, source, line) {
        Ok(end) => match text_of(alloc, line.as_slice(), n) {
            Ok(text) => Ok(Next { text, end }),
            Err(refused) => Err(refused),
        },
        Err(stop) => Err(refused_at(n, stop)),
    }
}
