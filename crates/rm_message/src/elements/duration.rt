//! Durations as they are written: XML Schema Part 2, section 3.2.6.
ghost use Rattle.std.specs.Prelude.{◌≡◌, ◌<◌, ◌+◌, ◌*◌, option_map, true};
ghost use Rattle.std.specs.Char.{is_ascii_digit, digit_value};
ghost use Rattle.std.specs.Str.{all_ascii_digits};
ghost use Rattle.std.specs.Str.Parse.{digits_value};
ghost use Rattle.rm_message.specs.Elements.Capped.{capped, capped_span};
ghost use Rattle.rm_message.specs.Elements.Duration.{
  digits_of,
  behind_digits,
  behind_letter,
  field,
  seconds,
  thousandths as thousandths_of,
  is_some_part as is_some_part_of,
  time_in,
  time_behind,
  date_in,
  span_in,
  lapse_of,
  duration_in,
};

use rm_base::Lapse;
use soap_writer::values::number::number_of;

/// The most months of a duration.
pub const MOST_MONTHS: u64 = 100000;

/// The most milliseconds of a duration beside its months.
pub const MOST_MS: u64 = 1000000000000000;

/// What fields come to, before their limits. `is_part` says that a digit behind the point of the seconds is not zero.
#[derive(Clone, Copy, Debug)]
pub struct Span {
    pub months: u64,
    pub ms: u64,
    pub is_part: bool,
}

// One field: its number, which is 0 where the field is absent, and what stands behind it.
#[derive(Clone, Copy)]
struct Field<'a> {
    number: u64,
    is_there: bool,
    rest: &'a [u8],
}

#[derive(Clone, Copy)]
struct Seconds<'a> {
    ms: u64,
    is_part: bool,
    is_there: bool,
    rest: &'a [u8],
}

// The digits at the front of bytes, and what stands behind them.
fn split_digits(bytes: &[u8]) -> (&[u8], &[u8])
    ensures digits { result.0.now ≡ digits_of bytes.now }
    ensures rest { result.1.now ≡ behind_digits bytes.now }
    ensures all { all_ascii_digits result.0.now ≡ true }
{
    cut_digits(bytes)
}

fn cut_digits(bytes: &[u8]) -> (&[u8], &[u8])
    ensures digits { result.0.now ≡ digits_of bytes.now }
    ensures rest { result.1.now ≡ behind_digits bytes.now }
{
    for i in 0..bytes.len() {
        if !bytes[i].is_ascii_digit() {
            return bytes.split_at(i);
        }
    }
    (bytes, &[])
}

// What stands behind a letter at the front of bytes.
fn after_letter(letter: u8, bytes: &[u8]) -> Option<&[u8]>
    ensures { option_map (λ rest. rest.now) result ≡ behind_letter letter bytes.now }
{
    match bytes {
        [first, rest @ ..] if *first == letter => Some(rest),
        _ => None,
    }
}

fn read_field(letter: u8, bytes: &[u8]) -> Field<'_>
    ensures number { result.number ≡ capped (field letter bytes.now).number }
    ensures is_there { result.is_there ≡ (field letter bytes.now).is_there }
    ensures rest { result.rest.now ≡ (field letter bytes.now).rest }
{
    let (digits, behind) = split_digits(bytes);
    let absent = Field {
        number: 0,
        is_there: false,
        rest: bytes,
    };
    if digits.is_empty() {
        return absent;
    }
    match after_letter(letter, behind) {
        Some(rest) => Field {
            number: number_of(digits),
            is_there: true,
            rest,
        },
        None => absent,
    }
}

fn digit(byte: u8) -> u64
    requires { is_ascii_digit byte ≡ true }
    ensures same { result ≡ digit_value byte }
    ensures bound { result < 10 }
{
    u64::from(byte - b'0')
}

// The first three digits behind a point.
fn thousandths(fraction: &[u8]) -> u64
    requires { all_ascii_digits fraction.now ≡ true }
    ensures same { result ≡ thousandths_of fraction.now }
    ensures bound { result < 1000 }
{
    match fraction {
        [] => 0,
        [a] => digit(*a) * 100,
        [a, b] => digit(*a) * 100 + digit(*b) * 10,
        [a, b, c, ..] => digit(*a) * 100 + digit(*b) * 10 + digit(*c),
    }
}

fn is_some_part(fraction: &[u8]) -> bool
    ensures { result ≡ is_some_part_of fraction.now }
{
    fraction.iter().any(|digit| *digit != b'0')
}

// Seconds and thousandths in milliseconds.
fn seconds_ms(whole: &[u8], part: u64) -> u64
    requires { all_ascii_digits whole.now ≡ true }
    ensures { result ≡ capped (digits_value 10 whole.now * 1000 + part) }
{
    number_of(whole).saturating_mul(1000).saturating_add(part)
}

fn read_seconds(bytes: &[u8]) -> Seconds<'_>
    ensures ms { result.ms ≡ capped (seconds bytes.now).ms }
    ensures is_part { result.is_part ≡ (seconds bytes.now).is_part }
    ensures is_there { result.is_there ≡ (seconds bytes.now).is_there }
    ensures rest { result.rest.now ≡ (seconds bytes.now).rest }
{
    let (whole, behind) = split_digits(bytes);
    let absent = Seconds {
        ms: 0,
        is_part: false,
        is_there: false,
        rest: bytes,
    };
    if whole.is_empty() {
        return absent;
    }
    if let Some(rest) = after_letter(b'S', behind) {
        return Seconds {
            ms: seconds_ms(whole, 0),
            is_part: false,
            is_there: true,
            rest,
        };
    }
    let Some(behind_point) = after_letter(b'.', behind) else {
        return absent;
    };
    let (fraction, behind) = split_digits(behind_point);
    if fraction.is_empty() {
        return absent;
    }
    let Some(rest) = after_letter(b'S', behind) else {
        return absent;
    };
    Seconds {
        ms: seconds_ms(whole, thousandths(fraction)),
        is_part: is_some_part(fraction),
        is_there: true,
        rest,
    }
}

// Milliseconds of hours, minutes and what is left.
fn time_ms(hours: u64, minutes: u64, ms: u64) -> u64
    ensures { result ≡ capped (hours * 3600000 + minutes * 60000 + ms) }
{
    hours
        .saturating_mul(3600000)
        .saturating_add(minutes.saturating_mul(60000))
        .saturating_add(ms)
}

// Hours, minutes and seconds, one of them at least, to the end of the bytes.
fn read_time(bytes: &[u8]) -> Option<Span>
    ensures { result ≡ option_map capped_span (time_in bytes.now) }
{
    let hours = read_field(b'H', bytes);
    let minutes = read_field(b'M', hours.rest);
    let seconds = read_seconds(minutes.rest);
    if !seconds.rest.is_empty() {
        return None;
    }
    if !(hours.is_there || minutes.is_there || seconds.is_there) {
        return None;
    }
    Some(Span {
        months: 0,
        ms: time_ms(hours.number, minutes.number, seconds.ms),
        is_part: seconds.is_part,
    })
}

// What stands behind a date: a time, or nothing where the date has a field.
fn time_after(is_dated: bool, bytes: &[u8]) -> Option<Span>
    ensures { result ≡ option_map capped_span (time_behind is_dated bytes.now) }
{
    match bytes {
        [] if is_dated => Some(Span {
            months: 0,
            ms: 0,
            is_part: false,
        }),
        [b'T', rest @ ..] => read_time(rest),
        _ => None,
    }
}

fn date_months(years: u64, months: u64) -> u64
    ensures { result ≡ capped (years * 12 + months) }
{
    years.saturating_mul(12).saturating_add(months)
}

fn date_ms(days: u64, ms: u64) -> u64
    ensures { result ≡ capped (days * 86400000 + ms) }
{
    days.saturating_mul(86400000).saturating_add(ms)
}

// Years, months and days, and the time behind them.
fn read_date(bytes: &[u8]) -> Option<Span>
    ensures { result ≡ option_map capped_span (date_in bytes.now) }
{
    let years = read_field(b'Y', bytes);
    let months = read_field(b'M', years.rest);
    let days = read_field(b'D', months.rest);
    let is_dated = years.is_there || months.is_there || days.is_there;
    let time = time_after(is_dated, days.rest)?;
    Some(Span {
        months: date_months(years.number, months.number),
        ms: date_ms(days.number, time.ms),
        is_part: time.is_part,
    })
}

fn read_span(bytes: &[u8]) -> Option<Span>
    ensures { result ≡ option_map capped_span (span_in bytes.now) }
{
    match bytes {
        [b'P', rest @ ..] => read_date(rest),
        _ => None,
    }
}

// A span within its limits.
fn lapse_within(span: Span) -> Option<Lapse>
    ensures { result ≡ lapse_of span }
{
    if span.months > MOST_MONTHS || span.ms > MOST_MS {
        return None;
    }
    let months = span.months;
    if months == 0 && span.ms == 0 && span.is_part {
        return Some(Lapse { months, ms: 1 });
    }
    Some(Lapse {
        months,
        ms: span.ms,
    })
}

/// A duration of at most `MOST_MONTHS` and `MOST_MS`, and None for bytes that are no such duration.
/// Digits past the third behind the point of the seconds are dropped, but a duration that isn't zero is at least a
/// millisecond. It takes no memory. None exactly where the bytes are no duration of the grammar within its limits.
#[tactic(auto, unfolding(crate::specs::Elements::Duration::duration_in), using(crate::proofs::Spans::same_lapse))]
pub fn read_duration(bytes: &[u8]) -> Option<Lapse>
    ensures { result ≡ duration_in bytes.now }
{
    lapse_within(read_span(bytes)?)
}
