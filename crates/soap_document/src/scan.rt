//! What of a document is read between its elements' events: the token that is not ended.
ghost use Rattle.std.specs.Prelude.{◌≡◌, ◌≢◌, ◌++◌, ◌+◌, ◌<◌, ◌≤◌, ◌^◌, ◌∷◌, [], List, length, OnOk, IfOk, true};
ghost use Rattle.std.specs.Prelude.{◌||◌, ◌==◌};
ghost use Rattle.soap_lex.specs.Tests.{is_nil};
ghost use Rattle.soap_document.specs.Machine.{
  Frame,
  nothing_open,
  start,
  stops,
  after_token,
  refuse,
  calm,
  is_name_end,
  at_beginning,
  at_declaring,
  at_outside,
  at_marking,
  at_named,
  at_naming,
  at_valuing,
  after_text,
  after_value,
  value_inner,
};
ghost use Rattle.memchr.specs.Find.{IsFirstByte};
ghost use Rattle.xml_chars.specs.Classes.{is_space};
ghost use Rattle.soap_document.specs.Seen.{seen, mode_of, Taken};

use crate::attribute::WrittenAttribute;
use crate::declaration::is_declaration;
use crate::tokens::{is_comment, is_mark, is_qname, is_white};
use memchr::memchr;
use rm_base::{Bytes, Memory};
use soap_lex::{Quote, TextReader, ValueReader, before, first_byte};
use std::alloc::Global;
use std::mem;
use xml_chars::is_space;

// Where the reader stands.
#[derive(Clone, Copy, Debug, PartialEq, Eq)]
pub(crate) enum Mode {
    Beginning,
    Declaring,
    Outside,
    Marking,
    Commenting,
    Chars,
    Less,
    Tagging,
    Naming,
    Named,
    Valuing,
    ValueInner,
    Slashed,
    Ending,
    Refused,
}

/// The token that is not ended, and what was read of a tag.
pub(crate) struct Scan {
    pub(crate) mode: Mode,
    // No text, comment or tag was read.
    pub(crate) fresh: bool,
    // How many bytes were read; where the < of the markup stands.
    pub(crate) at: usize,
    pub(crate) markup: usize,
    pub(crate) token: Vec<u8>,
    pub(crate) words: TextReader,
    pub(crate) text: Vec<u8>,
    pub(crate) name: Bytes,
    pub(crate) attributes: Vec<WrittenAttribute>,
    pub(crate) attribute: Bytes,
    valued: ValueReader,
    value: Vec<u8>,
    pub(crate) alloc: Global,
}

impl Drop for Scan {
    fn drop(self) {
        let Scan {
            mode: _,
            fresh: _,
            at: _,
            markup: _,
            token: _,
            words: _,
            text: _,
            name: _,
            attributes: _,
            attribute: _,
            valued: _,
            value: _,
            alloc: _,
        } = self;
    }
}

impl Scan {
    /// Nothing was read. It takes no memory.
    pub(crate) fn new(alloc: Global) -> Self
        ensures { seen result nothing_open [] ≡ start }
    {
        Scan {
            mode: Mode::Beginning,
            fresh: true,
            at: 0,
            markup: 0,
            token: Vec::new(alloc),
            words: TextReader::new(alloc),
            text: Vec::new(alloc),
            name: Bytes::new(),
            attributes: Vec::new(alloc),
            attribute: Bytes::new(),
            valued: ValueReader::new(alloc, Quote::Double),
            value: Vec::new(alloc),
            alloc,
        }
    }

    // Bytes that end no token lengthen it.
    pub(crate) fn keep(&mut self, run: &[u8]) -> Result<(), Memory>
        requires { self.old.at + length run.now < 2 ^ 64 }
        ensures { (top : Frame) (below : List Frame)
            → OnOk result (seen self.new top below ≡ record (seen self.old top below) {
              at = self.old.at + length run.now;
              token = (seen self.old top below).token ++ run.now;
            }) }
    {
        if run.is_empty() {
            return Ok(());
        }
        self.token.extend_from_slice(run)?;
        self.at += run.len();
        Ok(())
    }

    pub(crate) fn refuse(&mut self)
        ensures { (top : Frame) (below : List Frame) → seen self.new top below ≡ refuse (seen self.old top below) }
    {
        self.mode = Mode::Refused;
        self.token.clear();
    }

    // Back in text, or outside of the root.
    pub(crate) fn calm(&mut self, outside: bool)
        ensures { (top : Frame) (below : List Frame) → outside ≡ is_nil below
            → seen self.new top below ≡ calm (seen self.old top below) }
    {
        self.mode = if outside { Mode::Outside } else { Mode::Chars };
        self.fresh = false;
        self.markup = 0;
        self.token.clear();
    }

    pub(crate) fn at_beginning(&mut self, byte: u8, outside: bool)
        ensures { (top : Frame) (below : List Frame) → outside ≡ is_nil below
            → seen self.new top below ≡ at_beginning (seen self.old top below) byte }
    {
        if !is_mark(&self.token) {
            self.refuse();
            return;
        }
        if byte != b'<' {
            self.calm(outside);
            return;
        }
        self.mode = Mode::Less;
        self.markup = self.at;
        self.token.clear();
    }

    pub(crate) fn at_declaring(&mut self, outside: bool)
        ensures { (top : Frame) (below : List Frame) → outside ≡ is_nil below
            → seen self.new top below ≡ at_declaring (seen self.old top below) }
    {
        if is_declaration(&self.token) {
            self.calm(outside);
        } else {
            self.refuse();
        }
    }

    // White space outside of the root ends here.
    pub(crate) fn at_outside(&mut self, byte: u8)
        ensures { (top : Frame) (below : List Frame)
            → seen self.new top below ≡ at_outside (seen self.old top below) byte }
    {
        if is_white(&self.token) && byte == b'<' {
            self.mode = Mode::Less;
            self.markup = self.at;
            self.token.clear();
        } else {
            self.refuse();
        }
    }

    pub(crate) fn at_marking(&mut self, byte: u8) -> Result<(), Memory>
        ensures { (top : Frame) (below : List Frame)
            → OnOk result (seen self.new top below ≡ at_marking (seen self.old top below)
            ((seen self.old top below).token ++ byte ∷ [])) }
    {
        self.token.push(byte)?;
        let token = self.token.as_slice();
        if token == b"-".as_slice() {
            return Ok(());
        }
        if token == b"--".as_slice() {
            self.mode = Mode::Commenting;
            self.token.clear();
        } else {
            self.refuse();
        }
        Ok(())
    }

    pub(crate) fn at_commenting(&mut self, outside: bool) -> Result<(), Memory>
        ensures { (top : Frame) (below : List Frame) → outside ≡ is_nil below
            → OnOk result (seen self.new top below
            ≡ after_token (mode_of Mode.Commenting) (seen self.old top below) 62) }
    {
        match before(b"--", &self.token) {
            None => self.token.push(b'>')?,
            Some(comment) => {
                if is_comment(comment) {
                    self.calm(outside);
                } else {
                    self.refuse();
                }
            }
        }
        Ok(())
    }

    // The name of an attribute ends.
    pub(crate) fn at_attribute(&mut self, byte: u8) -> Result<(), Memory>
        requires { self.old.token.items ≢ [] }
        ensures { (top : Frame) (below : List Frame)
            → OnOk result (seen self.new top below ≡ at_naming (seen self.old top below) byte) }
    {
        if !is_qname(&self.token) {
            self.refuse();
            return Ok(());
        }
        self.attribute = Bytes::from_slice(self.alloc, &self.token)?;
        self.token.clear();
        self.at_named(byte);
        Ok(())
    }

    pub(crate) fn at_named(&mut self, byte: u8)
        ensures { (top : Frame) (below : List Frame)
            → seen self.new top below ≡ at_named (seen self.old top below) byte }
    {
        if is_space(byte) {
            self.mode = Mode::Named;
        } else if byte == b'=' {
            self.mode = Mode::Valuing;
        } else {
            self.refuse();
        }
    }

    pub(crate) fn at_valuing(&mut self, byte: u8)
        ensures { (top : Frame) (below : List Frame)
            → seen self.new top below ≡ at_valuing (seen self.old top below) byte }
    {
        if is_space(byte) {
            return;
        }
        let Some(quote) = Quote::from_byte(byte) else {
            self.refuse();
            return;
        };
        self.mode = Mode::ValueInner;
        self.valued.restart(quote);
        self.value.clear();
    }

    // Where text was refuse, so are the bytes.
    pub(crate) fn at_text(&mut self)
        ensures { (top : Frame) (below : List Frame)
            → seen self.new top below ≡ after_text (seen self.old top below) }
    {
        if self.words.is_refused() {
            self.refuse();
        }
    }

    // Within a value, up to the end of a token of it.
    pub(crate) fn take_value(&mut self, bytes: &[u8]) -> Result<usize, Memory>
        requires inside { mode_of self.old.mode ≡ value_inner }
        requires some { 0 < length bytes.now }
        requires fits { self.old.at + length bytes.now < 2 ^ 64 }
        ensures place { IfOk result (λ n. (0 < n) × (n ≤ length bytes.now) × (self.new.at ≡ self.old.at + n)) }
        ensures taken { (top : Frame) (below : List Frame)
            → IfOk result (λ n. Taken (seen self.old top below) (seen self.new top below) bytes.now n) }
    {
        let Ok(taken) = self.valued.feed(bytes, &mut self.value) else {
            return Err(Memory);
        };
        if taken == 0 {
            self.refuse();
            self.at += 1;
            return Ok(1);
        }
        self.at += taken;
        self.at_value()?;
        Ok(taken)
    }

    // The attribute ends where its value is closed; where that was refuse, so are the bytes.
    fn at_value(&mut self) -> Result<(), Memory>
        ensures { (top : Frame) (below : List Frame)
            → OnOk result (seen self.new top below ≡ after_value (seen self.old top below)) }
    {
        if self.valued.is_refused() {
            self.refuse();
            return Ok(());
        }
        if !self.valued.is_closed() {
            return Ok(());
        }
        let value = Bytes::from_slice(self.alloc, &self.value)?;
        let name = mem::replace(&mut self.attribute, Bytes::new());
        self.attributes.push(WrittenAttribute { name, value })?;
        self.value.clear();
        self.valued.restart(Quote::Double);
        self.mode = Mode::Tagging;
        self.token.clear();
        Ok(())
    }
}

/// Where the first byte stands that ends the token.
pub(crate) fn first_stop(mode: Mode, bytes: &[u8]) -> Option<usize>
    ensures { IsFirstByte (stops (mode_of mode)) bytes.now result }
{
    match mode {
        Mode::Outside => memchr(b'<', bytes),
        Mode::Declaring | Mode::Commenting => memchr(b'>', bytes),
        Mode::Ending => first_byte(b'>', bytes),
        Mode::Less | Mode::Naming => first_name_end(bytes),
        Mode::Beginning => first_less_or_space(bytes),
        Mode::Chars
        | Mode::Marking
        | Mode::Tagging
        | Mode::Named
        | Mode::Valuing
        | Mode::ValueInner
        | Mode::Slashed
        | Mode::Refused => first(bytes),
    }
}

fn first(bytes: &[u8]) -> Option<usize>
    ensures { IsFirstByte (λ _. true) bytes.now result }
{
    if bytes.is_empty() { None } else { Some(0) }
}

fn first_name_end(bytes: &[u8]) -> Option<usize>
    ensures { IsFirstByte is_name_end bytes.now result }
{
    for i in 0..bytes.len() {
        if is_name_end(bytes[i]) {
            return Some(i);
        }
    }
    None
}

pub(crate) fn is_name_end(byte: u8) -> bool
    ensures { result ≡ is_name_end byte }
{
    byte < 64
        && (is_space(byte)
            || byte == b'>'
            || byte == b'/'
            || byte == b'='
            || byte == b'!'
            || byte == b'?')
}

fn first_less_or_space(bytes: &[u8]) -> Option<usize>
    ensures { IsFirstByte (λ byte. is_space byte || byte == 60) bytes.now result }
{
    for i in 0..bytes.len() {
        if is_less_or_space(bytes[i]) {
            return Some(i);
        }
    }
    None
}

fn is_less_or_space(byte: u8) -> bool
    ensures { result ≡ (is_space byte || byte == 60) }
{
    is_space(byte) || byte == b'<'
}
