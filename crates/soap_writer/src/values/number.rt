//! Whole numbers: XML Schema Part 2, section 3.3.
ghost use Rattle.std.specs.Prelude.{◌≡◌, ◌+◌, ◌*◌, ◌-◌, ◌^◌, option_map, min, true};
ghost use Rattle.std.specs.Str.Parse.{without_leading_plus, digits_value};
ghost use Rattle.std.specs.Char.{is_ascii_digit, digit_value};
ghost use Rattle.std.specs.Str.{all_ascii_digits};
ghost use Rattle.soap_writer.specs.Values.Values.{whole_number};

/// A whole number, with or without a plus. `u64::MAX` stands for all greater ones too. It takes no memory.
pub fn read_number(bytes: &[u8]) -> Option<u64>
    ensures { result ≡ option_map (λ n. min n (2 ^ 64 - 1)) (whole_number bytes.now) }
{
    let digits = without_plus(bytes);
    if digits.is_empty() || !are_digits(digits) {
        return None;
    }
    Some(number_of(digits))
}

fn without_plus(bytes: &[u8]) -> &[u8]
    ensures { result.now ≡ without_leading_plus bytes.now }
{
    match bytes {
        [b'+', digits @ ..] => digits,
        _ => bytes,
    }
}

fn are_digits(digits: &[u8]) -> bool
    ensures { result ≡ all_ascii_digits digits.now }
{
    for digit in digits {
        if !digit.is_ascii_digit() {
            return false;
        }
    }
    true
}

/// The number that digits stand for, or the greatest where it is greater.
pub fn number_of(digits: &[u8]) -> u64
    requires { all_ascii_digits digits.now ≡ true }
    ensures { result ≡ min (digits_value 10 digits.now) (2 ^ 64 - 1) }
{
    let mut number: u64 = 0;
    for digit in digits {
        number = with_digit(number, *digit);
    }
    number
}

// The number with one digit more.
fn with_digit(number: u64, digit: u8) -> u64
    requires { is_ascii_digit digit ≡ true }
    ensures { result ≡ min (number * 10 + digit_value digit) (2 ^ 64 - 1) }
{
    number
        .saturating_mul(10)
        .saturating_add(u64::from(digit - b'0'))
}
