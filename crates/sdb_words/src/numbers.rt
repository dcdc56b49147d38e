//! Numbers among the words.
ghost use Rattle.std.specs.Prelude.{◌≡◌, ◌≢◌, ◌<◌, ◌^◌, ◌↔◌, ℕ, IsTrue, decimal, MatchOption};
ghost use Rattle.sdb_words.specs.Commands.{IsWithin};

use itoa::Buffer;

fn is_decimal(n: u32, word: &str) -> bool
    ensures { IsTrue result ↔ word.now ≡ decimal n }
{
    Buffer::new().format(n) == word
}

// The number whose decimal a word is.
fn decimal_in(word: &str) -> Option<u32>
    ensures { MatchOption result ((n : ℕ) → n < 2 ^ 32 → word.now ≢ decimal n) (λ n. (n < 2 ^ 32) × (word.now ≡ decimal n)) }
{
    let n = word.parse::<u32>().ok()?;
    if !is_decimal(n, word) {
        return None;
    }
    Some(n)
}

/// The number that a word is: digits alone, without a leading zero, from 1 to the greatest.
pub fn number_in(word: &str, most: u32) -> Option<u32>
    ensures { MatchOption result ((n : ℕ) → IsWithin most n → word.now ≢ decimal n) (λ n. IsWithin most n × (word.now ≡ decimal n)) }
{
    let n = decimal_in(word)?;
    if n == 0 || n > most {
        return None;
    }
    Some(n)
}
