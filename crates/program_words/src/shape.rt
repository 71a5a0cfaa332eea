//! What is asked of a word besides what clap asks.
ghost use Rattle.std.specs.Prelude.{◌≡◌, ◌↔◌, ◌++◌, IsTrue, List, ℕ, codes, decimal};

use itoa::Buffer;

/// Whether a word begins with a dash: no word of a command does.
pub fn is_dashed(word: &str) -> bool
    ensures { IsTrue result ↔ ((rest : List ℕ) × (word.now ≡ codes "-" ++ rest)) }
{
    match word.as_bytes() {
        [b'-', ..] => true,
        _ => false,
    }
}

/// Whether a text writes a number in decimal digits, without a sign or a zero before it.
pub fn is_written(number: u64, text: &str) -> bool
    ensures { IsTrue result ↔ (text.now ≡ decimal number) }
{
    let mut buffer = Buffer::new();
    buffer.format(number) == text
}
