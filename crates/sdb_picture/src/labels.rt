//! Texts as XML has them.
ghost use Rattle.std.specs.Prelude.{◌≡◌, ◌++◌, OnOk, IfOk};
ghost use Rattle.std.specs.List.{flat_map};
ghost use Rattle.std.specs.Str.{chars};
ghost use Rattle.std.specs.String.{string_bytes};
ghost use Rattle.sdb_picture.specs.Labels as spec;

use sdb_types::NoMemory;
use std::alloc::Global;

// A character that XML doesn't have, or that controls what shows it.
fn is_control(c: char) -> bool
    ensures { result ≡ spec.is_control c }
{
    let n = u32::from(c);
    n < 32 || (n >= 127 && n <= 159) || n == 0xFFFE || n == 0xFFFF
}

fn put_char(out: &mut String, c: char) -> Result<(), NoMemory>
    ensures { OnOk result (string_bytes out.new ≡ string_bytes out.old ++ spec.escaped c) }
{
    if is_control(c) {
        out.push('\u{FFFD}')?;
        return Ok(());
    }
    match c {
        '&' => out.push_str("&amp;")?,
        '<' => out.push_str("&lt;")?,
        '>' => out.push_str("&gt;")?,
        '"' => out.push_str("&quot;")?,
        c => out.push(c)?,
    }
    Ok(())
}

fn chars_of(alloc: Global, text: &str) -> Result<Vec<char>, NoMemory>
    ensures { IfOk result (λ cs. cs.items ≡ chars text.now) }
{
    let cs = text.chars().collect(alloc)?;
    Ok(cs)
}

fn put_chars(out: &mut String, cs: &[char]) -> Result<(), NoMemory>
    ensures { OnOk result (string_bytes out.new ≡ string_bytes out.old ++ flat_map spec.escaped cs.now) }
{
    for c in cs {
        put_char(out, *c)?;
    }
    Ok(())
}

fn put_cut(out: &mut String, cs: &[char], width: usize) -> Result<(), NoMemory>
    ensures { OnOk result (string_bytes out.new ≡ string_bytes out.old ++ spec.cut_text width cs.now) }
{
    if cs.len() > width {
        put_chars(out, &cs[..width])?;
        out.push('…')?;
        Ok(())
    } else {
        put_chars(out, cs)
    }
}

/// Adds a text, escaped.
pub fn put_escaped(out: &mut String, text: &str) -> Result<(), NoMemory>
    ensures { OnOk result (string_bytes out.new ≡ string_bytes out.old ++ spec.escaped_text text.now) }
{
    let cs = chars_of(*out.allocator(), text)?;
    put_chars(out, cs.as_slice())
}

/// Adds a text, escaped, and cut to a width in characters.
pub fn put_label(out: &mut String, text: &str, width: usize) -> Result<(), NoMemory>
    ensures { OnOk result (string_bytes out.new ≡ string_bytes out.old ++ spec.label_text width text.now) }
{
    let cs = chars_of(*out.allocator(), text)?;
    put_cut(out, cs.as_slice(), width)
}
