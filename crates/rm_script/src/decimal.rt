//! Numbers in decimal digits.
ghost use Rattle.std.specs.Prelude.{◌≡◌, ◌<◌, ◌^◌, ℕ, decimal, IfSome, Some};

use itoa::Buffer;

/// The number that is written so: decimal digits without a sign or a leading zero.
pub fn number_of(digits: &[u8]) -> Option<u64>
    ensures found { IfSome result (λ number. digits.now ≡ decimal number) }
    ensures small { IfSome result (λ number. number < 2 ^ 64) }
    ensures only { (number : ℕ) → number < 2 ^ 64 → digits.now ≡ decimal number → result ≡ Some number }
{
    let Ok(text) = str::from_utf8(digits) else {
        return None;
    };
    let Ok(number) = text.parse::<u64>() else {
        return None;
    };
    let mut buffer = Buffer::new();
    if buffer.format(number).as_bytes() == digits {
        Some(number)
    } else {
        None
    }
}
