//! The classes of characters of XML 1.0, each as a test of one character or byte.
//! `is_char` tells what a document may hold, `is_space` what is white space.
//! `is_name_start` and `is_name_char` tell what may begin a name and what may go on in one.
#![tactic(auto)]

ghost use Rattle.std.specs.Prelude.{◌≡◌};
ghost use Rattle.xml_chars.specs.Classes.{is_within, is_char, is_space, is_name_start, is_name_char};

/// Production 2, Char.
const CHARS: [(u32, u32); 5] = [
    (0x9, 0xA),
    (0xD, 0xD),
    (0x20, 0xD7FF),
    (0xE000, 0xFFFD),
    (0x10000, 0x10FFFF),
];

/// Production 3, S.
const SPACES: [(u32, u32); 3] = [(0x9, 0xA), (0xD, 0xD), (0x20, 0x20)];

/// Production 4, NameStartChar, without the colon.
const NAME_STARTS: [(u32, u32); 15] = [
    (0x41, 0x5A),
    (0x5F, 0x5F),
    (0x61, 0x7A),
    (0xC0, 0xD6),
    (0xD8, 0xF6),
    (0xF8, 0x2FF),
    (0x370, 0x37D),
    (0x37F, 0x1FFF),
    (0x200C, 0x200D),
    (0x2070, 0x218F),
    (0x2C00, 0x2FEF),
    (0x3001, 0xD7FF),
    (0xF900, 0xFDCF),
    (0xFDF0, 0xFFFD),
    (0x10000, 0xEFFFF),
];

/// What production 4a, NameChar, has besides.
const NAME_MORE: [(u32, u32); 5] = [
    (0x2D, 0x2E),
    (0x30, 0x39),
    (0xB7, 0xB7),
    (0x300, 0x36F),
    (0x203F, 0x2040),
];

/// A character that a document may hold: XML 1.0, section 2.2, production 2.
pub fn is_char(c: char) -> bool
    ensures { result ≡ is_char c }
{
    is_within(&CHARS, c as u32)
}

/// White space: XML 1.0, section 2.3, production 3.
pub fn is_space(byte: u8) -> bool
    ensures { result ≡ is_space byte }
{
    is_within(&SPACES, byte as u32)
}

/// The first character of a name without a colon: XML 1.0, section 2.3, production 4.
pub fn is_name_start(c: char) -> bool
    ensures { result ≡ is_name_start c }
{
    is_within(&NAME_STARTS, c as u32)
}

/// A further character of a name without a colon: XML 1.0, section 2.3, production 4a.
pub fn is_name_char(c: char) -> bool
    ensures { result ≡ is_name_char c }
{
    is_name_start(c) || is_within(&NAME_MORE, c as u32)
}

// One of the ranges has the character; its ends belong to it.
fn is_within(ranges: &[(u32, u32)], c: u32) -> bool
    ensures { result ≡ is_within ranges.now c }
{
    for range in ranges {
        if range.0 <= c && c <= range.1 {
            return true;
        }
    }
    false
}
