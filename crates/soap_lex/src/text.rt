//! Text, read in pieces.
ghost use Rattle.std.specs.Prelude.{◌≡◌, ◌≤◌, ◌∷◌, ◌++◌, ℕ, List, [], not, length, take, drop, encode_utf8};
ghost use Rattle.std.specs.Prelude.{IfOk, OnOk, OnErr, IsTrue, ◌↔◌, codes, true, option_map, if◌then◌else◌};
ghost use Rattle.std.specs.Str.{bytes_eq};
ghost use Rattle.memchr.specs.Find.{IsFirstByte};
ghost use Rattle.soap_lex.specs.Tests.{is_char_data, is_cdata};
ghost use Rattle.soap_lex.specs.Tests.{is_comment, without};
ghost use Rattle.soap_lex.specs.Text.{with_line_ends};
ghost use Rattle.soap_lex.specs.TextMachine.{
  begun,
  stops,
  halts,
  longer,
  at_chars,
  at_opening,
  after_token,
  to_stop,
  ended,
  counted,
  opens,
  is_less,
  is_refused,
  cdata_meaning,
  text_in,
  Takes,
};
ghost use Rattle.soap_lex.specs.Readers.{text_state, text_mode};

use crate::decide::{goes_on, is_cdata, is_char_data, is_comment, reference};
use crate::references::push_character;
use crate::search::{before, first, first_of_two};
use crate::visible::{append, is_visible};
use crate::{Memory, push_line_ends};
use memchr::memchr;
use std::alloc::Global;

// Where the reader stands.
#[derive(Clone, Copy, Debug, PartialEq, Eq)]
pub(crate) enum TextMode {
    Chars,
    Referring,
    Opening,
    Commenting,
    Quoting,
    Refused,
}

/// A reader of text that is fed its bytes in pieces: XML 1.0, section 2.4. It holds the bytes of the token that is not
/// ended, and nothing of the meaning, which is appended where the caller says.
#[derive(Debug, Drop)]
pub struct TextReader {
    mode: TextMode,
    token: Vec<u8>,
}

impl TextReader {
    /// A reader that was fed nothing. It takes no memory.
    pub fn new(alloc: Global) -> Self
        ensures { (text : List ℕ) → text_state result text ≡ begun text }
    {
        TextReader {
            mode: TextMode::Chars,
            token: Vec::new(alloc),
        }
    }

    /// Begins another text; the memory of the last one is kept.
    pub fn restart(&mut self)
        ensures { (text : List ℕ) → text_state self.new text ≡ begun text }
    {
        self.mode = TextMode::Chars;
        self.token.clear();
    }

    /// Reads on to the end of a token, or of the piece: appends what was read, and says how many bytes were taken.
    /// Where none of a piece is taken, the text ends there, or was refused. After an error the reader is of no more
    /// use.
    /// - `ok`: text is read as by the machine of texts, however the pieces are cut.
    pub fn feed(&mut self, piece: &[u8], out: &mut Vec<u8>) -> Result<usize, Memory>
        ensures ok { IfOk result (λ n. (n ≤ length piece.now)
            × (to_stop (text_state self.old out.old.items) piece.now
            ≡ (text_state self.new out.new.items, drop n piece.now))) }
        ensures front { take (length out.old.items) out.new.items ≡ out.old.items }
    {
        let Some(end) = first_stop(self.mode, piece) else {
            self.token.extend_from_slice(piece)?;
            return Ok(piece.len());
        };
        if self.halts(piece[end]) {
            return Ok(0);
        }
        self.at_token(&piece[..end], piece[end], out)?;
        Ok(end + 1)
    }

    /// Where a `<` was read last and the piece goes on to a comment or a CDATA section, takes what begins it at once,
    /// and says how many bytes these are. It takes none elsewhere.
    pub fn open(&mut self, piece: &[u8]) -> usize
        ensures within { result ≤ length piece.now }
        ensures takes { (text : List ℕ)
            → Takes (text_state self.old text) (take result piece.now) (text_state self.new text) }
    {
        if !self.is_less() {
            return 0;
        }
        if begins_comment(piece) {
            self.begin(TextMode::Commenting);
            return 3;
        }
        if begins_cdata(piece) {
            self.begin(TextMode::Quoting);
            return 8;
        }
        0
    }

    /// Appends what is still to be appended where the text ends, and says how many of the last bytes are no more of it;
    /// none where it was no text.
    /// - None: exactly where the machine of texts takes what it was fed for no text (`ok`).
    pub fn finish(self, out: &mut Vec<u8>) -> Result<Option<usize>, Memory>
        ensures ok { IfOk result (λ end. counted (ended (text_state self out.old.items))
            ≡ option_map {U = List ℕ × ℕ} (λ n. (out.new.items, n)) end) }
        ensures front { take (length out.old.items) out.new.items ≡ out.old.items }
    {
        match self.mode {
            TextMode::Chars => {
                if push_data(&self.token, out)? {
                    Ok(Some(0))
                } else {
                    Ok(None)
                }
            }
            TextMode::Opening => Ok(Some(self.token.len())),
            _ => Ok(None),
        }
    }

    /// A `<` was read last: where nothing more is taken, the text ended before it.
    pub fn is_less(&self) -> bool
        ensures { (text : List ℕ) → result ≡ is_less (text_state self.now text) }
    {
        self.mode == TextMode::Opening && is_less_sign(&self.token)
    }

    /// What was fed is no text, whatever follows.
    pub fn is_refused(&self) -> bool
        ensures { (text : List ℕ) → result ≡ is_refused (text_state self.now text).mode }
    {
        self.mode == TextMode::Refused
    }

    /// No token is begun: it stands as `restart` leaves it.
    pub fn is_fresh(&self) -> bool
        ensures { (text : List ℕ) → IsTrue result ↔ (text_state self.now text ≡ begun text) }
    {
        self.mode == TextMode::Chars && self.token.is_empty()
    }

    // Nothing is read yet of what this mode reads.
    fn begin(&mut self, mode: TextMode)
        ensures { (text : List ℕ) → text_state self.new text ≡ text_in text (text_mode mode) [] }
    {
        self.mode = mode;
        self.token.clear();
    }

    // Nothing more is read before this byte.
    fn halts(&self, byte: u8) -> bool
        ensures { (text : List ℕ) → result ≡ halts (text_state self.now text) byte }
    {
        match self.mode {
            TextMode::Opening => !opens(&self.token, byte),
            TextMode::Refused => true,
            _ => false,
        }
    }

    // The bytes of the run end the token, with this byte behind them.
    fn at_token(&mut self, run: &[u8], byte: u8, out: &mut Vec<u8>) -> Result<(), Memory>
        ensures ok { OnOk result (text_state self.new out.new.items
            ≡ after_token (text_mode self.old.mode) (longer (text_state self.old out.old.items) run.now) byte) }
        ensures front { take (length out.old.items) out.new.items ≡ out.old.items }
    {
        match self.mode {
            TextMode::Chars => self.at_chars(run, byte, out),
            TextMode::Referring => self.at_referring(run, out),
            TextMode::Opening => self.at_opening(run, byte),
            TextMode::Commenting => self.at_commenting(run),
            TextMode::Quoting => self.at_quoting(run, out),
            TextMode::Refused => {
                self.refuse();
                Ok(())
            }
        }
    }

    fn refuse(&mut self)
        ensures mode { self.new.mode ≡ TextMode.Refused }
        ensures token { self.new.token.items ≡ [] }
    {
        self.mode = TextMode::Refused;
        self.token.clear();
    }

    // A run of characters ends.
    fn at_chars(&mut self, run: &[u8], byte: u8, out: &mut Vec<u8>) -> Result<(), Memory>
        ensures ok { OnOk result (text_state self.new out.new.items
            ≡ at_chars (longer (text_state self.old out.old.items) run.now) byte) }
        ensures front { take (length out.old.items) out.new.items ≡ out.old.items }
    {
        if !self.push_chars(run, out)? {
            self.refuse();
            return Ok(());
        }
        self.token.clear();
        if byte == b'<' {
            self.mode = TextMode::Opening;
            self.token.push(b'<')?;
        } else {
            self.mode = TextMode::Referring;
            self.token.push(b'&')?;
        }
        Ok(())
    }

    // What the token means with the run behind it, where it is character data; a run alone is not copied first.
    fn push_chars(&mut self, run: &[u8], out: &mut Vec<u8>) -> Result<bool, Memory>
        ensures passes { IfOk result (λ passes. passes ≡ is_char_data (self.old.token.items ++ run.now)) }
        ensures ok { IfOk result (λ passes. out.new.items ≡ (if passes then
            out.old.items ++ with_line_ends (self.old.token.items ++ run.now) else out.old.items)) }
        ensures err { OnErr result (out.new.items ≡ out.old.items) }
    {
        if self.token.is_empty() {
            return push_data(run, out);
        }
        self.token.extend_from_slice(run)?;
        push_data(&self.token, out)
    }

    fn at_referring(&mut self, run: &[u8], out: &mut Vec<u8>) -> Result<(), Memory>
        ensures ok { OnOk result (text_state self.new out.new.items
            ≡ after_token (text_mode TextMode.Referring) (longer (text_state self.old out.old.items) run.now) 59) }
        ensures front { take (length out.old.items) out.new.items ≡ out.old.items }
    {
        self.token.extend_from_slice(run)?;
        self.token.push(b';')?;
        let Some(c) = reference(&self.token) else {
            self.refuse();
            return Ok(());
        };
        push_character(c, out)?;
        self.leave(true);
        Ok(())
    }

    // Behind a <.
    fn at_opening(&mut self, run: &[u8], byte: u8) -> Result<(), Memory>
        ensures { OnOk result ((text : List ℕ) → text_state self.new text
            ≡ at_opening (text_state self.old text) ((self.old.token.items ++ run.now) ++ byte ∷ [])) }
    {
        self.token.extend_from_slice(run)?;
        self.token.push(byte)?;
        let token = self.token.as_slice();
        if token == b"<!--".as_slice() {
            self.mode = TextMode::Commenting;
            self.token.clear();
        } else if token == b"<![CDATA[".as_slice() {
            self.mode = TextMode::Quoting;
            self.token.clear();
        }
        Ok(())
    }

    // Back in a run of characters, where the markup passed.
    fn leave(&mut self, passes: bool)
        ensures mode { self.new.mode ≡ (if passes then TextMode.Chars else TextMode.Refused) }
        ensures token { self.new.token.items ≡ [] }
    {
        if passes {
            self.mode = TextMode::Chars;
            self.token.clear();
        } else {
            self.refuse();
        }
    }

    // The comment ends here, or holds a >.
    fn at_commenting(&mut self, run: &[u8]) -> Result<(), Memory>
        ensures { OnOk result ((text : List ℕ) → text_state self.new text
            ≡ after_token (text_mode TextMode.Commenting) (longer (text_state self.old text) run.now) 62) }
    {
        if self.token.is_empty() {
            if let Some(passes) = ended_comment(run) {
                self.leave(passes);
                return Ok(());
            }
        }
        self.token.extend_from_slice(run)?;
        match ended_comment(&self.token) {
            Some(passes) => self.leave(passes),
            None => self.token.push(b'>')?,
        }
        Ok(())
    }

    // The CDATA section ends here, or holds a >.
    fn at_quoting(&mut self, run: &[u8], out: &mut Vec<u8>) -> Result<(), Memory>
        ensures ok { OnOk result (text_state self.new out.new.items
            ≡ after_token (text_mode TextMode.Quoting) (longer (text_state self.old out.old.items) run.now) 62) }
        ensures front { take (length out.old.items) out.new.items ≡ out.old.items }
    {
        if self.token.is_empty() {
            if let Some(passes) = push_cdata(run, out)? {
                self.leave(passes);
                return Ok(());
            }
        }
        self.token.extend_from_slice(run)?;
        match push_cdata(&self.token, out)? {
            Some(passes) => self.leave(passes),
            None => self.token.push(b'>')?,
        }
        Ok(())
    }
}

// Appends what a run of characters means, where it is character data.
fn push_data(bytes: &[u8], out: &mut Vec<u8>) -> Result<bool, Memory>
    ensures passes { IfOk result (λ passes. passes ≡ is_char_data bytes.now) }
    ensures ok { IfOk result (λ passes. out.new.items ≡ (if passes then out.old.items ++ with_line_ends bytes.now else
        out.old.items)) }
    ensures err { OnErr result (out.new.items ≡ out.old.items) }
{
    if is_visible(bytes, b']') {
        append(bytes, out)?;
        return Ok(true);
    }
    push_any_data(bytes, out)
}

// The same; it stands apart, so that the common case is short.
#[inline(never)]
fn push_any_data(bytes: &[u8], out: &mut Vec<u8>) -> Result<bool, Memory>
    ensures passes { IfOk result (λ passes. passes ≡ is_char_data bytes.now) }
    ensures ok { IfOk result (λ passes. out.new.items ≡ (if passes then out.old.items ++ with_line_ends bytes.now else
        out.old.items)) }
    ensures err { OnErr result (out.new.items ≡ out.old.items) }
{
    if !is_char_data(bytes) {
        return Ok(false);
    }
    push_line_ends(bytes, out)?;
    Ok(true)
}

// Whether the bytes before a > are a comment, where they end in two dashes.
fn ended_comment(bytes: &[u8]) -> Option<bool>
    ensures { result ≡ option_map is_comment (without (codes "--") bytes.now) }
{
    match before(b"--", bytes) {
        Some(comment) => Some(is_comment(comment)),
        None => None,
    }
}

// Appends what the bytes before a > mean, where they end a CDATA section.
fn push_cdata(bytes: &[u8], out: &mut Vec<u8>) -> Result<Option<bool>, Memory>
    ensures passes { IfOk result (λ passes. passes ≡ option_map is_cdata (without (codes "]]") bytes.now)) }
    ensures ok { IfOk result (λ passes. out.new.items ≡ out.old.items ++ cdata_meaning (without
        (codes "]]") bytes.now)) }
    ensures err { OnErr result (out.new.items ≡ out.old.items) }
{
    let Some(inside) = before(b"]]", bytes) else {
        return Ok(None);
    };
    if !is_cdata(inside) {
        return Ok(Some(false));
    }
    push_line_ends(inside, out)?;
    Ok(Some(true))
}

// The token with this byte is the beginning of a comment or of a CDATA section, or a part of one; mostly the token is
// a < alone.
fn opens(token: &[u8], byte: u8) -> bool
    ensures { result ≡ opens (token.now ++ byte ∷ []) }
{
    match token {
        [first] => *first == b'<' && byte == b'!',
        _ => goes_on(b"<!--", token, byte) || goes_on(b"<![CDATA[", token, byte),
    }
}

// Behind a <, a comment begins.
#[inline]
fn begins_comment(bytes: &[u8]) -> bool
    ensures within { IsTrue result → 3 ≤ length bytes.now }
    ensures word { IsTrue result → take 3 bytes.now ≡ codes "!--" }
{
    match bytes {
        [b'!', b'-', b'-', ..] => true,
        _ => false,
    }
}

// Behind a <, a CDATA section begins.
#[inline]
fn begins_cdata(bytes: &[u8]) -> bool
    ensures within { IsTrue result → 8 ≤ length bytes.now }
    ensures word { IsTrue result → take 8 bytes.now ≡ codes "![CDATA[" }
{
    match bytes {
        [b'!', b'[', b'C', b'D', b'A', b'T', b'A', b'[', ..] => true,
        _ => false,
    }
}

fn is_less_sign(token: &[u8]) -> bool
    ensures { result ≡ bytes_eq token.now (codes "<") }
{
    match token {
        [first] => *first == b'<',
        _ => false,
    }
}

// Where the first byte stands that ends the token.
fn first_stop(mode: TextMode, bytes: &[u8]) -> Option<usize>
    ensures { IsFirstByte (stops (text_mode mode)) bytes.now result }
{
    match mode {
        TextMode::Chars => first_of_two(b'<', b'&', bytes),
        TextMode::Referring => memchr(b';', bytes),
        TextMode::Commenting | TextMode::Quoting => memchr(b'>', bytes),
        TextMode::Opening | TextMode::Refused => first(bytes),
    }
}
