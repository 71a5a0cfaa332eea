//! The number of a soak, as a word.
ghost use Rattle.std.specs.Prelude.{◌≡◌, ℕ, ◌<◌, ◌^◌, ◌↔◌, decimal, IfSome, IsTrue, Some};

use itoa::Buffer;

/// The number below 2^60 that the word writes, in decimal digits without a sign or a leading zero.
pub fn number_in(word: &[u8]) -> Option<u64>
    ensures found { IfSome result (λ number. (number < 2 ^ 60) × (word.now ≡ decimal number)) }
    ensures only { (number : ℕ) → number < 2 ^ 60 → word.now ≡ decimal number → result ≡ Some number }
{
    let number = parsed(word)?;
    if number < 1 << 60 && is_written(number, word) {
        Some(number)
    } else {
        None
    }
}

fn is_written(number: u64, word: &[u8]) -> bool
    ensures { IsTrue result ↔ (word.now ≡ decimal number) }
{
    let mut buffer = Buffer::new();
    buffer.format(number).as_bytes() == word
}

// The number that the word may write: with a sign and leading zeros it is one too.
fn parsed(word: &[u8]) -> Option<u64>
    ensures { (number : ℕ) → number < 2 ^ 64 → word.now ≡ decimal number → result ≡ Some number }
{
    let Ok(text) = str::from_utf8(word) else {
        return None;
    };
    text.parse::<u64>().ok()
}
