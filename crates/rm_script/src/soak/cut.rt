//! Bytes that are cut at a byte: into lines, and a line into words.
ghost use Rattle.std.specs.Prelude.{◌≡◌, ◌<◌, ◌==◌, length, position, IfSome};
ghost use Rattle.std.specs.Iterator.{YieldsFirstRef, at_most};
ghost use Rattle.std.specs.List.{before_first, after_first};
ghost use Rattle.rm_script.specs.Script.{lines_of};

/// The lines of bytes, from the first to the last.
#[derive(Drop)]
pub(crate) struct Lines<'a> {
    pub rest: &'a [u8],
}

impl<'a> Iterator for Lines<'a> {
    type Item = &'a [u8];

    ghost next_gives = { YieldsFirstRef (λ s. lines_of s.rest.now) };

    ghost remaining = { λ s. at_most (length s.rest.now) };

    fn next(&mut self) -> Option<&'a [u8]> {
        if self.rest.is_empty() {
            return None;
        }
        let (line, rest) = cut(self.rest, b'\n');
        self.rest = rest;
        Some(line)
    }
}

/// The bytes before the first that is `end`, and those behind it; all and none where there is none.
pub(crate) fn cut(bytes: &[u8], end: u8) -> (&[u8], &[u8])
    ensures before { result.0.now ≡ before_first (λ byte. byte == end) bytes.now }
    ensures after { result.1.now ≡ after_first (λ byte. byte == end) bytes.now }
    ensures shorter { 0 < length bytes.now → length result.1.now < length bytes.now }
{
    match place_of(bytes, end) {
        Some(place) => (&bytes[..place], &bytes[place + 1..]),
        None => (bytes, &[]),
    }
}

// Where the first byte stands that is `end`.
fn place_of(bytes: &[u8], end: u8) -> Option<usize>
    ensures within { IfSome result (λ place. place < length bytes.now) }
    ensures place { result ≡ position (λ byte. byte == end) bytes.now }
{
    bytes.iter().position(|byte| *byte == end)
}
