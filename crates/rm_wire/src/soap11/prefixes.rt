//! The first prefix w with a number that bindings leave free.
ghost use Rattle.std.specs.Prelude.{◌≡◌, ◌≢◌, ◌<◌, ◌+◌, ◌^◌, ◌++◌, ◌∷◌, [], ℕ, List, Some, Contains, IfOk, IfSome};
ghost use Rattle.std.specs.Prelude.{MatchOption, OnOk, codes, decimal};
ghost use Rattle.std.specs.List.Sorted.{IsSorted};
ghost use Rattle.std.specs.Ordering.{nat_cmp};
ghost use Rattle.rm_base.specs.declared.message.Binding.{Binding as Bound};
ghost use Rattle.rm_wire.specs.Soap11.Lift.{numbered_prefix, AreNumbers, IsFirstFree};

use itoa::Buffer;
use rm_base::{Binding, Bindings, Memory};
use soap_writer::values::{number_is_read_back, read_number, trim};
use std::alloc::Global;

// What stands behind a w.
fn behind_w(prefix: &[u8]) -> Option<&[u8]>
    ensures { MatchOption result ((rest : List ℕ) → prefix.now ≢ codes "w" ++ rest)
        (λ digits. prefix.now ≡ codes "w" ++ digits.now) }
{
    match prefix {
        [b'w', digits @ ..] => Some(digits),
        _ => None,
    }
}

// The number that these digits are, without a zero in front.
fn number_of(digits: &[u8]) -> Option<u64>
    ensures some { IfSome result (λ k. digits.now ≡ decimal k) }
    ensures all { (k : ℕ) → k < 2 ^ 64 → digits.now ≡ decimal k → result ≡ Some k }
{
    number_is_read_back();
    let Some(number) = read_number(trim(digits)) else {
        return None;
    };
    if digits == Buffer::new().format(number).as_bytes() {
        return Some(number);
    }
    None
}

// The number behind a w, where that is all of a prefix.
fn number_in(prefix: &[u8]) -> Option<u64>
    ensures some { IfSome result (λ k. prefix.now ≡ numbered_prefix k) }
    ensures all { (k : ℕ) → k < 2 ^ 64 → prefix.now ≡ numbered_prefix k → result ≡ Some k }
{
    match behind_w(prefix) {
        Some(digits) => number_of(digits),
        None => None,
    }
}

fn push_number(binding: &Binding, numbers: &mut Vec<u64>) -> Result<(), Memory>
    ensures { OnOk result ((before : List Bound) → AreNumbers before numbers.old.items
        → AreNumbers (before ++ binding.now ∷ []) numbers.new.items) }
{
    let Some(number) = number_in(binding.prefix.as_slice()) else {
        return Ok(());
    };
    numbers.push(number)?;
    Ok(())
}

// The numbers of all prefixes that are w with a number.
fn numbers_in(alloc: Global, scope: &[Binding]) -> Result<Vec<u64>, Memory>
    ensures { IfOk result (λ numbers. AreNumbers scope.now numbers.items) }
{
    let mut numbers = Vec::new(alloc);
    for binding in scope {
        push_number(binding, &mut numbers)?;
    }
    Ok(numbers)
}

fn gap_after(gap: u64, number: u64) -> u64
    requires { gap + 1 < 2 ^ 64 }
    ensures same { number ≡ gap → result ≡ gap + 1 }
    ensures other { number ≢ gap → result ≡ gap }
{
    if number == gap {
        return gap + 1;
    }
    gap
}

// The least number that is none of these, which don't fall.
fn first_gap(numbers: &[u64]) -> u64
    requires { IsSorted nat_cmp numbers.now }
    ensures free { ¬ (Contains numbers.now result) }
    ensures least { (j : ℕ) → j < result → Contains numbers.now j }
{
    let mut gap: u64 = 0;
    for number in numbers {
        gap = gap_after(gap, *number);
    }
    gap
}

/// The least number with which w is a prefix that is not bound.
pub(crate) fn first_free(alloc: Global, scope: &Bindings) -> Result<u64, Memory>
    ensures { IfOk result (λ number. IsFirstFree number scope.now) }
{
    let mut numbers = numbers_in(alloc, scope.as_slice())?;
    numbers.sort()?;
    Ok(first_gap(numbers.as_slice()))
}
