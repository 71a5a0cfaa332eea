//! The moment at which a duration ends.
ghost use Rattle.std.specs.Prelude.{◌≡◌, ◌/◌, ◌%◌, ◌<◌, ◌≤◌, pos, ◌≤ℤ◌, IfOk, IfSome, IfNone, IsOk, IsTrue, ◌↔◌};
ghost use Rattle.jiff_core.specs.Date.{epoch_day};
ghost use Rattle.jiff_span.specs.Months.{add_months as months_later, IsShiftable};
ghost use Rattle.rm_message.specs.Elements.Deadline.{IsDateOf, IsZero, EndsAt, IsDeadline};

use jiff_core::civil::Date;
use jiff_span::date::add_months;
use rm_base::{Lapse, Memory, NOW_MAX};

const DAY: u64 = 86400000;

// So many months are past the end of the calendar from each date.
const MANY_MONTHS: u64 = 500000;

// The date of a moment.
fn date_of(now: u64) -> Date
    requires { now ≤ NOW_MAX }
    ensures { IsDateOf now result }
{
    match Date::from_unix_epoch_day((now / DAY) as i64) {
        Ok(date) => date,
        Err(_) => unreachable!(),
    }
}

// The day number so many months later, and None where the calendar ends before it.
#[tactic(auto, using(crate::proofs::ElementsLemmas::Later::too_late))]
fn day_after(date: Date, months: u64) -> Option<u64>
    requires { pos 0 ≤ℤ epoch_day date }
    ensures some { IfSome result (λ day. IsShiftable date (pos months) × (pos day ≡ months_later date (pos months))
        × (day ≤ 2932896)) }
    ensures none { IfNone result (¬ (IsShiftable date (pos months))) }
{
    if months > MANY_MONTHS {
        return None;
    }
    match add_months(date, months as i32) {
        Ok(later) => Some(day_number(later)),
        Err(_) => None,
    }
}

// The number of a day that is not before 1970.
fn day_number(date: Date) -> u64
    requires { pos 0 ≤ℤ epoch_day date }
    ensures same { pos result ≡ epoch_day date }
    ensures bound { result ≤ 2932896 }
{
    date.to_unix_epoch_day() as u64
}

fn is_zero(lapse: Lapse) -> bool
    ensures { IsTrue result ↔ IsZero lapse }
{
    lapse.months == 0 && lapse.ms == 0
}

fn end_from(date: Date, now: u64, lapse: Lapse) -> Option<u64>
    requires now { now ≤ NOW_MAX }
    requires date { IsDateOf now date }
    ensures { EndsAt date now lapse result }
{
    if is_zero(lapse) {
        return None;
    }
    let day = day_after(date, lapse.months)?;
    let end = (day * DAY + now % DAY).saturating_add(lapse.ms);
    if end > NOW_MAX {
        return None;
    }
    Some(end)
}

/// When a duration ends that begins now; both moments are milliseconds since 1970 UTC. The months are added to the
/// date, as `jiff` adds them, and then the milliseconds. It is None where the duration is zero, where the calendar ends
/// before, and where the sum is later than any moment that a clock tells. It takes no memory.
/// - None: exactly where the lapse is zero, the date is refused, or the sum is above 200000000000000 (`end`, `ok`).
pub fn deadline(now: u64, lapse: Lapse) -> Result<Option<u64>, Memory>
    requires { now ≤ NOW_MAX }
    ensures end { IfOk result (IsDeadline now lapse) }
    ensures ok { IsOk result }
{
    Ok(end_from(date_of(now), now, lapse))
}
