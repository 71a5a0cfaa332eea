//! Laws of values, each the contract of a function that does nothing.

ghost use Rattle.std.specs.Prelude.{◌≡◌, ◌<◌, ◌^◌, ℕ, List, Some, decimal};
ghost use Rattle.rm_base.specs.Text.{IsText};
ghost use Rattle.soap_writer.specs.Values.Values.{trimmed, text_within, whole_number};

/// A text is read back as it is, also where it is trimmed.
pub fn text_is_read_back()
    ensures { (limit : ℕ) (bytes : List ℕ) → IsText limit bytes → text_within limit (trimmed bytes) ≡ Some bytes }
{}

/// A number that is written in decimal is read back.
pub fn number_is_read_back()
    ensures { (n : ℕ) → n < 2 ^ 64 → whole_number (trimmed (decimal n)) ≡ Some n }
{}
