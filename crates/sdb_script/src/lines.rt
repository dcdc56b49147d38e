//! The lines of a text.
ghost use Rattle.std.specs.Prelude.{◌≡◌, ◌<◌, ◌≤◌, ◌==◌, ◌∷◌, ◌+◌, IfSome, position, length, count_by};
ghost use Rattle.std.specs.List.{position_or_len};
ghost use Rattle.sdb_model.specs.Form.{lines_of};

fn lf_place(bytes: &[u8]) -> Option<usize>
    ensures value { result ≡ position (λ b. b == 10) bytes.now }
    ensures within { IfSome result (λ n. n < length bytes.now) }
{
    bytes.iter().position(|b| *b == b'\n')
}

// How long the first line is.
fn line_len(bytes: &[u8]) -> usize
    ensures len { result ≡ position_or_len (λ b. b == 10) bytes.now }
    ensures within { result ≤ length bytes.now }
{
    match lf_place(bytes) {
        Some(n) => n,
        None => bytes.len(),
    }
}

/// The first line, and what follows its LF.
pub fn first_line(bytes: &[u8]) -> (&[u8], &[u8])
    requires { 0 < length bytes.now }
    ensures lines { lines_of bytes.now ≡ result.0.now ∷ lines_of result.1.now }
    ensures shorter { length result.1.now < length bytes.now }
{
    let n = line_len(bytes);
    if n < bytes.len() {
        (&bytes[..n], &bytes[n + 1..])
    } else {
        (bytes, &[])
    }
}

/// How many LFs there are.
pub fn lf_count(bytes: &[u8]) -> usize
    ensures count { result ≡ count_by (λ b. b == 10) bytes.now }
    ensures bound { result ≤ length bytes.now }
{
    bytes.iter().filter(|b| **b == b'\n').count()
}
