//! Attribute values, read in pieces.
ghost use Rattle.std.specs.Prelude.{◌≡◌, ◌≢◌, ◌⊎◌, ◌≤◌, ◌∷◌, ◌++◌, ◌==◌, ℕ, List, [], length, take, drop};
ghost use Rattle.std.specs.Prelude.{encode_utf8, true};
ghost use Rattle.std.specs.Prelude.{IfOk, IfSome, IfNone, OnOk, OnErr, if◌then◌else◌};
ghost use Rattle.memchr.specs.Find.{IsFirstByte};
ghost use Rattle.soap_lex.specs.Tests.{is_plain};
ghost use Rattle.soap_lex.specs.Value.{with_spaces};
ghost use Rattle.soap_lex.specs.ValueMachine.{
  begun,
  stops,
  halts,
  is_closed,
  is_refused,
  longer,
  at_plain,
  after_token,
  to_stop,
};
ghost use Rattle.soap_lex.specs.Readers.{quote_byte, value_mode, value_state};

use crate::decide::{is_plain, reference};
use crate::references::push_character;
use crate::search::{first, first_of_two};
use crate::visible::{append, is_visible};
use crate::{Memory, push_spaces};
use memchr::memchr;
use std::alloc::Global;

/// The two kinds of quotes that a value may stand in.
#[derive(Clone, Copy, Debug, PartialEq, Eq)]
pub enum Quote {
    Double,
    Single,
}

impl Quote {
    /// The quote that a byte is.
    pub fn from_byte(byte: u8) -> Option<Quote>
        ensures some { IfSome result (λ quote. quote_byte quote ≡ byte) }
        ensures none { IfNone result ((byte ≢ 34) × (byte ≢ 39)) }
    {
        match byte {
            b'"' => Some(Quote::Double),
            b'\'' => Some(Quote::Single),
            _ => None,
        }
    }

    fn byte(self) -> u8
        ensures is { result ≡ quote_byte self }
        ensures kind { (result ≡ 34) ⊎ (result ≡ 39) }
    {
        match self {
            Quote::Double => b'"',
            Quote::Single => b'\'',
        }
    }
}

// Where the reader stands.
#[derive(Clone, Copy, Debug, PartialEq, Eq)]
pub(crate) enum ValueMode {
    Plain,
    Referring,
    Closed,
    Refused,
}

/// A reader of what stands behind an opening quote, up to the closing one, that is fed its bytes in pieces: XML 1.0,
/// section 2.3, production 10. It holds the bytes of the token that is not ended; the meaning is appended where the
/// caller says.
#[derive(Debug, Drop)]
pub struct ValueReader {
    mode: ValueMode,
    quote: Quote,
    token: Vec<u8>,
}

impl ValueReader {
    /// A reader that was fed nothing. It takes no memory.
    pub fn new(alloc: Global, quote: Quote) -> Self
        ensures { (value : List ℕ) → value_state result value ≡ begun (quote_byte quote) value }
    {
        ValueReader {
            mode: ValueMode::Plain,
            quote,
            token: Vec::new(alloc),
        }
    }

    /// Begins another value; the memory of the last one is kept.
    pub fn restart(&mut self, quote: Quote)
        ensures { (value : List ℕ) → value_state self.new value ≡ begun (quote_byte quote) value }
    {
        self.mode = ValueMode::Plain;
        self.quote = quote;
        self.token.clear();
    }

    /// Reads on to the end of a token, or of the piece: appends what was read, and says how many bytes were taken.
    /// Where none of a piece is taken, the value is closed, or was refused. After an error the reader is of no more
    /// use.
    /// - `ok`: values are read as by the machine of values, however the pieces are cut.
    pub fn feed(&mut self, piece: &[u8], out: &mut Vec<u8>) -> Result<usize, Memory>
        ensures ok { IfOk result (λ n. (n ≤ length piece.now)
            × (to_stop (value_state self.old out.old.items) piece.now
            ≡ (value_state self.new out.new.items, drop n piece.now))) }
        ensures front { take (length out.old.items) out.new.items ≡ out.old.items }
    {
        if self.halts() {
            return Ok(0);
        }
        let Some(end) = first_stop(self.mode, self.quote.byte(), piece) else {
            self.token.extend_from_slice(piece)?;
            return Ok(piece.len());
        };
        self.at_token(&piece[..end], piece[end], out)?;
        Ok(end + 1)
    }

    /// The closing quote was read.
    pub fn is_closed(&self) -> bool
        ensures { (value : List ℕ) → result ≡ is_closed (value_state self.now value).mode }
    {
        self.mode == ValueMode::Closed
    }

    /// What was fed is no value, whatever follows.
    pub fn is_refused(&self) -> bool
        ensures { (value : List ℕ) → result ≡ is_refused (value_state self.now value).mode }
    {
        self.mode == ValueMode::Refused
    }

    fn halts(&self) -> bool
        ensures { (value : List ℕ) → result ≡ halts (value_state self.now value).mode }
    {
        self.mode == ValueMode::Closed || self.mode == ValueMode::Refused
    }

    // The bytes of the run end the token, with this byte behind them.
    fn at_token(&mut self, run: &[u8], byte: u8, out: &mut Vec<u8>) -> Result<(), Memory>
        ensures ok { OnOk result (value_state self.new out.new.items
            ≡ after_token (value_mode self.old.mode) (longer (value_state self.old out.old.items) run.now) byte) }
        ensures front { take (length out.old.items) out.new.items ≡ out.old.items }
    {
        match self.mode {
            ValueMode::Plain => self.at_plain(run, byte, out),
            ValueMode::Referring => self.at_referring(run, out),
            ValueMode::Closed | ValueMode::Refused => {
                self.refuse();
                Ok(())
            }
        }
    }

    fn refuse(&mut self)
        ensures mode { self.new.mode ≡ ValueMode.Refused }
        ensures token { self.new.token.items ≡ [] }
        ensures quote { self.new.quote ≡ self.old.quote }
    {
        self.mode = ValueMode::Refused;
        self.token.clear();
    }

    // A run of characters ends.
    fn at_plain(&mut self, run: &[u8], byte: u8, out: &mut Vec<u8>) -> Result<(), Memory>
        ensures ok { OnOk result (value_state self.new out.new.items
            ≡ at_plain (longer (value_state self.old out.old.items) run.now) byte) }
        ensures front { take (length out.old.items) out.new.items ≡ out.old.items }
    {
        if !self.push_plain(run, out)? {
            self.refuse();
            return Ok(());
        }
        self.token.clear();
        if byte == b'&' {
            self.mode = ValueMode::Referring;
            self.token.push(b'&')?;
        } else {
            self.mode = ValueMode::Closed;
        }
        Ok(())
    }

    // What the token means with the run behind it, where it may stand in quotes; a run alone is not copied first.
    fn push_plain(&mut self, run: &[u8], out: &mut Vec<u8>) -> Result<bool, Memory>
        ensures same { IfOk result (λ _. self.new.quote ≡ self.old.quote) }
        ensures passes { IfOk result (λ passes. passes
            ≡ is_plain (quote_byte self.old.quote) (self.old.token.items ++ run.now)) }
        ensures ok { IfOk result (λ passes. out.new.items ≡ (if passes then
            out.old.items ++ with_spaces (self.old.token.items ++ run.now) else out.old.items)) }
        ensures err { OnErr result (out.new.items ≡ out.old.items) }
    {
        if self.token.is_empty() {
            return push_run(run, self.quote, out);
        }
        self.token.extend_from_slice(run)?;
        push_run(&self.token, self.quote, out)
    }

    fn at_referring(&mut self, run: &[u8], out: &mut Vec<u8>) -> Result<(), Memory>
        ensures ok { OnOk result (value_state self.new out.new.items
            ≡ after_token (value_mode ValueMode.Referring) (longer (value_state self.old out.old.items) run.now) 59) }
        ensures front { take (length out.old.items) out.new.items ≡ out.old.items }
    {
        self.token.extend_from_slice(run)?;
        self.token.push(b';')?;
        let Some(c) = reference(&self.token) else {
            self.refuse();
            return Ok(());
        };
        push_character(c, out)?;
        self.mode = ValueMode::Plain;
        self.token.clear();
        Ok(())
    }
}

// Appends what a run of characters means, where it may stand between these quotes.
fn push_run(bytes: &[u8], quote: Quote, out: &mut Vec<u8>) -> Result<bool, Memory>
    ensures passes { IfOk result (λ passes. passes ≡ is_plain (quote_byte quote) bytes.now) }
    ensures ok { IfOk result (λ passes. out.new.items ≡ (if passes then out.old.items ++ with_spaces bytes.now else
        out.old.items)) }
    ensures err { OnErr result (out.new.items ≡ out.old.items) }
{
    if is_visible(bytes, quote.byte()) {
        append(bytes, out)?;
        return Ok(true);
    }
    push_any_run(bytes, quote, out)
}

// The same; it stands apart, so that the common case is short.
#[inline(never)]
fn push_any_run(bytes: &[u8], quote: Quote, out: &mut Vec<u8>) -> Result<bool, Memory>
    ensures passes { IfOk result (λ passes. passes ≡ is_plain (quote_byte quote) bytes.now) }
    ensures ok { IfOk result (λ passes. out.new.items ≡ (if passes then out.old.items ++ with_spaces bytes.now else
        out.old.items)) }
    ensures err { OnErr result (out.new.items ≡ out.old.items) }
{
    if !is_plain(bytes, quote.byte()) {
        return Ok(false);
    }
    push_spaces(bytes, out)?;
    Ok(true)
}

// Where the first byte stands that ends the token.
fn first_stop(mode: ValueMode, quote: u8, bytes: &[u8]) -> Option<usize>
    ensures { IsFirstByte (stops (value_mode mode) quote) bytes.now result }
{
    match mode {
        ValueMode::Plain => first_of_two(quote, b'&', bytes),
        ValueMode::Referring => memchr(b';', bytes),
        ValueMode::Closed | ValueMode::Refused => first(bytes),
    }
}
