//! Writing a whole text.
ghost use Rattle.std.specs.Prelude.{◌≡◌, ◌≤◌, ◌++◌, ◌∷◌, ℕ, [], length, take, IfOk, OnOk, OnErr, IsErrOf, string_bytes};
ghost use Rattle.sdb_types.specs.Bytes.{Appends, HasRisen};
ghost use Rattle.sdb_model.specs.Texts.{answer_text_of};

use sdb_model::{Answer, put_answer};
use sdb_types::{NoMemory, Sink, SinkRefused};
use std::alloc::Global;

/// Writes a whole text. Where that fails, a prefix of the text was written.
pub(crate) fn write_all<W: Sink>(sink: &mut W, bytes: &[u8]) -> Result<(), SinkRefused>
    ensures all { OnOk result (Appends bytes.now (W.written sink.old) (W.written sink.new)) }
    ensures prefix { OnErr result ((k : ℕ) × (k ≤ length bytes.now) × Appends (take k bytes.now) (W.written sink.old) (W.written sink.new)) }
    ensures later { W.faults sink.old ≤ W.faults sink.new }
    ensures failed { IsErrOf result SinkRefused.Failed → HasRisen (W.faults sink.old) (W.faults sink.new) }
{
    let mut at = 0;
    while at < bytes.len() {
        let n = sink.write(&bytes[at..])?;
        at += n;
    }
    Ok(())
}

/// The line of an answer: its text and LF.
pub(crate) fn answer_line(alloc: Global, answer: &Answer) -> Result<String, NoMemory>
    ensures { IfOk result (λ line. string_bytes line ≡ answer_text_of answer.now ++ 10 ∷ []) }
{
    let mut line = String::new(alloc);
    put_answer(&mut line, answer)?;
    line.push_str("\n")?;
    Ok(line)
}
