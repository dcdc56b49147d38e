//! A script and the report of it, one after the other.
ghost use Rattle.std.specs.Prelude.{◌≡◌, ◌++◌, ◌≤◌, ◌<◌, ◌⊎◌, ℕ, true, false, length};
ghost use Rattle.sdb_judge.specs.Input.{IsSplit, begins_line as begins_line_lem, is_title_at as is_title_at_lem};

const TITLE: &[u8] = b"scalardb report 1\n";

fn begins_line(bytes: &[u8], i: usize) -> bool
    requires { i < length bytes.now }
    ensures { result ≡ begins_line_lem bytes.now i }
{
    i == 0 || bytes[i - 1] == b'\n'
}

// The title of a report is a line here.
fn is_title_at(bytes: &[u8], i: usize) -> bool
    requires { i < length bytes.now }
    ensures { result ≡ is_title_at_lem bytes.now i }
{
    begins_line(bytes, i) && bytes[i..].starts_with(TITLE)
}

// Where the first line that is a report's title begins; the length of the text where there is none.
fn title_at(bytes: &[u8]) -> usize
    ensures within { result ≤ length bytes.now }
    ensures here { (result ≡ length bytes.now) ⊎ (is_title_at_lem bytes.now result ≡ true) }
    ensures first { (i : ℕ) → i < result → is_title_at_lem bytes.now i ≡ false }
{
    for i in 0..bytes.len() {
        if is_title_at(bytes, i) {
            return i;
        }
    }
    bytes.len()
}

/// The text before the first line that is a report's title, and the text from there on.
pub fn split(bytes: &[u8]) -> (&[u8], &[u8])
    ensures { IsSplit bytes.now result.0.now result.1.now }
{
    bytes.split_at(title_at(bytes))
}
