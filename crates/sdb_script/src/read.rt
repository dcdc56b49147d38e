//! Reading scripts.
ghost use Rattle.std.specs.Prelude.{◌≡◌, ◌⊎◌, ◌+◌, ◌<◌, Ok, Err, IfOk, IfErr, length};
ghost use Rattle.sdb_model.specs.Form.{lines_of};
ghost use Rattle.sdb_script.specs.Lines.{most_bytes};
ghost use Rattle.sdb_script.specs.Begun.{nothing};
ghost use Rattle.sdb_script.specs.Whole.{IsScript, IsRefused, last_line as last_line_lem};
ghost use Rattle.sdb_script.specs.Reading as spec;

use crate::drafting::Drafting;
use crate::fault::{LineFault, LineRefused, ScriptRefused};
use crate::lines::{first_line, lf_count};
use sdb_model::{Script, Which};
use sdb_types::{Names, NoMemory};
use std::alloc::Global;

impl From<NoMemory> for ScriptRefused {
    ghost use Rattle.std.specs.Prelude.{◌≡◌};
    ghost use Rattle.sdb_script.specs.declared.fault.ScriptRefused.TheVariants.{NoMemory as OutOfMemory};

    ghost from_gives = { λ _ e. e ≡ OutOfMemory };

    fn from(_e: NoMemory) -> ScriptRefused {
        ScriptRefused::NoMemory
    }
}

/// The number of bytes that are read of a script.
pub const MOST_SCRIPT_BYTES: usize = 67_108_864;

// A line that is refused, with its number.
fn at_line(number: u64, refused: LineRefused) -> ScriptRefused
    ensures { result ≡ spec.at_line number refused }
{
    match refused {
        LineRefused::Bad(fault) => ScriptRefused::BadLine(number, fault),
        LineRefused::Limit(which) => ScriptRefused::Limit(number, which),
        LineRefused::NoMemory => ScriptRefused::NoMemory,
    }
}

// What all lines say, and the number of the line after the last.
fn read_lines(alloc: Global, bytes: &[u8], stores: &Names) -> Result<(Drafting, u64), ScriptRefused>
    ensures ok { IfOk result (λ d. (spec.read_from stores.now 1 nothing (lines_of bytes.now) ≡ Ok d.0) × (d.1 ≡ length (lines_of bytes.now) + 1)) }
    ensures bad { IfErr result (spec.Agrees (spec.read_from stores.now 1 nothing (lines_of bytes.now))) }
{
    let mut drafting = Drafting::new(alloc);
    let mut rest = bytes;
    let mut number: u64 = 1;
    while !rest.is_empty() {
        let (line, behind) = first_line(rest);
        match drafting.take(alloc, line, stores) {
            Ok(()) => {}
            Err(refused) => return Err(at_line(number, refused)),
        }
        rest = behind;
        number += 1;
    }
    Ok((drafting, number))
}

/// The number of the line that holds the first byte past the limit of an input.
pub fn last_line(bytes: &[u8]) -> u64
    requires { most_bytes < length bytes.now }
    ensures { result ≡ last_line_lem bytes.now }
{
    let (read, _) = bytes.split_at(MOST_SCRIPT_BYTES);
    lf_count(read) as u64 + 1
}

// The script of the lines that were read, where the last number is that of the line after them.
fn script_of(drafting: Drafting, number: u64) -> Result<Script, ScriptRefused>
    ensures ok { IfOk result (λ s. spec.ended number drafting ≡ Ok s) }
    ensures bad { IfErr result (spec.Agrees (spec.ended number drafting)) }
{
    if !drafting.has_run() {
        return Err(ScriptRefused::BadLine(number, LineFault::Missing));
    }
    Ok(drafting.into_script()?)
}

fn script_in(alloc: Global, bytes: &[u8], stores: &Names) -> Result<Script, ScriptRefused>
    ensures ok { IfOk result (λ s. spec.script_in stores.now bytes.now ≡ Ok s) }
    ensures bad { IfErr result (spec.Agrees (spec.script_in stores.now bytes.now)) }
{
    if bytes.len() > MOST_SCRIPT_BYTES {
        return Err(ScriptRefused::Limit(last_line(bytes), Which::InputBytes));
    }
    match read_lines(alloc, bytes, stores) {
        Ok((drafting, number)) => script_of(drafting, number),
        Err(refused) => Err(refused),
    }
}

/// The script that a text says, over the attached stores, of which the names are given.
///
/// The text has at most 67,108,864 bytes, in lines of UTF-8 of at most 65,536 bytes. They are any number of `place NS STORE`; at
/// most one `schema JSON`; at most 64 blocks of `client NAME` and at most 20,000 statements, each after two spaces; `run`; and
/// moves that count as at most 200,000. The first line that may not come is returned, with what is wrong with it.
/// Takes memory linear in the text's length, and time linear in it, but for the schema, whose JSON `catalog_of` reads; each place is
/// compared with the stores and with as many namespaces as the logarithm of their number, and each client with those before it.
pub fn read_script(alloc: Global, bytes: &[u8], stores: &Names) -> Result<Script, ScriptRefused>
    ensures ok { IfOk result (IsScript stores.now bytes.now) }
    ensures refused { IfErr result (λ r. (r ≡ ScriptRefused.NoMemory) ⊎ IsRefused stores.now bytes.now r) }
{
    script_in(alloc, bytes, stores)
}
