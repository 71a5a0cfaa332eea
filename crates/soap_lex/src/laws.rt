//! Laws of the grammar, each the contract of a function that does nothing.

ghost use Rattle.std.specs.Prelude.{◌≡◌, ◌⊎◌, ◌↔◌, ℕ, List, [], ◌∷◌, ◌++◌, codes, true, None, Some};
ghost use Rattle.soap_lex.specs.Characters.{IsChars};
ghost use Rattle.soap_lex.specs.Cut.{IsTextFirst, IsValueFirst};
ghost use Rattle.soap_lex.specs.Escapes.{escaped_text, escaped_value};
ghost use Rattle.soap_lex.specs.References.{IsReference};
ghost use Rattle.soap_lex.specs.Tests.{is_comment, without};
ghost use Rattle.soap_lex.specs.Text.{IsComment, IsText};
ghost use Rattle.soap_lex.specs.TextMachine.{TextEnds, begun, reads};
ghost use Rattle.soap_lex.specs.Value.{IsInner, IsValue};
ghost use Rattle.soap_lex.specs.ValueMachine.{Takes as TakesValue, begun as begun_value, closed_with};
ghost use Rattle.soap_lex.specs.ValueMachine.{reads as reads_value};

/// What `write_text` appends is text that means what was written.
pub fn text_is_read_back()
    ensures { (bytes : List ℕ) → IsChars bytes → IsText (escaped_text bytes) bytes }
{}

/// What `write_attr` appends is, between double quotes, a value that means what was written.
pub fn value_is_read_back()
    ensures { (bytes : List ℕ) → IsChars bytes → IsValue (34 ∷ (escaped_value bytes ++ 34 ∷ [])) bytes }
{}

/// Bytes begin with one text, which means one thing.
pub fn text_is_one()
    ensures { (bytes text rest meaning other left value : List ℕ) → IsTextFirst bytes text rest meaning
        → IsTextFirst bytes other left value → (text ≡ other) × (meaning ≡ value) × (rest ≡ left) }
{}

/// Bytes begin with one attribute value, which means one thing.
pub fn value_is_one()
    ensures { (bytes value rest meaning other left means : List ℕ) → IsValueFirst bytes value rest meaning
        → IsValueFirst bytes other left means → (value ≡ other) × (meaning ≡ means) × (rest ≡ left) }
{}

/// What bytes begin with as text is what the machine of text reads, and all that it reads.
pub fn text_is_read()
    ensures only { (bytes text rest meaning before : List ℕ) → IsTextFirst bytes text rest meaning
        → reads (begun before) bytes ≡ Some (before ++ meaning, rest) }
    ensures found { (bytes before all rest : List ℕ) → reads (begun before) bytes ≡ Some (all, rest)
        → (text : List ℕ) × (meaning : List ℕ) × IsTextFirst bytes text rest meaning × (all ≡ before ++ meaning) }
{}

/// What stands before a closing quote is what the machine of values reads, and all that it reads.
pub fn value_is_read()
    ensures only { (quote : ℕ) (inner rest meaning before : List ℕ) → (quote ≡ 34) ⊎ (quote ≡ 39)
        → IsInner quote inner meaning
        → reads_value (begun_value quote before) (inner ++ quote ∷ rest) ≡ Some (before ++ meaning, rest) }
    ensures found { (quote : ℕ) (bytes before all rest : List ℕ)
        → reads_value (begun_value quote before) bytes ≡ Some (all, rest)
        → (inner : List ℕ) × (meaning : List ℕ) × (bytes ≡ inner ++ quote ∷ rest) × IsInner quote inner meaning
        × (all ≡ before ++ meaning) }
{}

/// The machine of text takes text, up to the run of characters that it ends with.
pub fn text_is_taken()
    ensures { (bytes meaning before : List ℕ) → IsText bytes meaning → TextEnds before bytes meaning }
{}

/// The machine of values takes what stands before a closing quote, and that.
pub fn value_is_taken()
    ensures { (quote : ℕ) (inner meaning before : List ℕ) → (quote ≡ 34) ⊎ (quote ≡ 39) → IsInner quote inner meaning
        → TakesValue (begun_value quote before) (inner ++ quote ∷ []) (closed_with quote (before ++ meaning)) }
{}

/// What may stand in a comment is tested so, and a comment does not end before its end.
pub fn comment_is_tested()
    ensures test { (bytes : List ℕ) → (is_comment bytes ≡ true) ↔ IsComment bytes }
    ensures end { (bytes front rest : List ℕ) → IsComment bytes → bytes ++ codes "--" ≡ front ++ 62 ∷ rest
        → without (codes "--") front ≡ None }
{}

/// Bytes begin with one reference, to one character.
pub fn reference_is_one()
    ensures { (token rest other left : List ℕ) (c d : ℕ) → IsReference token c → IsReference other d
        → token ++ rest ≡ other ++ left → (token ≡ other) × (c ≡ d) × (rest ≡ left) }
{}
