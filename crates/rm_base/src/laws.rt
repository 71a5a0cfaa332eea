//! What the definitions of sets of message numbers, of counts and of texts mean.
ghost use Rattle.std.specs.Prelude.{◌≡◌, ◌+◌, ◌≤◌, ◌^◌, ◌<◌, ℕ, List, Bool, true, false, ◌||◌, ◌==◌, ◌↔◌};
ghost use Rattle.rm_base.specs.Count.{RoseBy, raised_by};
ghost use Rattle.rm_base.specs.NumberSet.{IsRising, has_number, with_number};
ghost use Rattle.rm_base.specs.Text.{IsText, is_text};

/// A set with one number more has that number and those that it had.
pub fn one_more_is_added()
    ensures { (xs : List ℕ) (n m : ℕ) → has_number (with_number xs n) m ≡ (has_number xs m || (n == m)) }
{}

/// Two sets with the same numbers are one list.
pub fn same_numbers_same_list()
    ensures { (xs ys : List ℕ) → IsRising xs → IsRising ys → ((n : ℕ) → has_number xs n ≡ has_number ys n) → xs ≡ ys }
{}

/// A count that rose by m, and then by n, rose by both together.
pub fn rises_add_up()
    ensures { (old mid new m n : ℕ) → RoseBy old mid m → RoseBy mid new n → RoseBy old new (m + n) }
{}

/// What a count is raised by, it rose by.
pub fn a_raised_count_rose()
    ensures { (count n : ℕ) → RoseBy count (raised_by count n) n }
{}

/// The test of a text tells what a text is.
pub fn texts_are_tested()
    ensures { (limit : ℕ) (bytes : List ℕ) → (is_text limit bytes ≡ true) ↔ IsText limit bytes }
{}
