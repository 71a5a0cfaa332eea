//! Laws of wires.

ghost use Rattle.std.specs.Prelude.{◌≡◌, ℕ, List};
ghost use Rattle.rm_base.specs.Wire.Wire.{has_room, texts_in};

/// Whether there is room goes by the bytes of the packets, and not by where they go.
pub fn room_goes_by_the_bytes()
    ensures { (one two : List (ℕ × List ℕ)) (more : ℕ) → texts_in one ≡ texts_in two
        → has_room one more ≡ has_room two more }
{}
