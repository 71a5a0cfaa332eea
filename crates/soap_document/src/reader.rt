//! The reader of documents, which is fed pieces.
ghost use Rattle.std.specs.Prelude.{◌≡◌, ◌≢◌, ◌+◌, ◌<◌, ◌≤◌, ◌^◌, List, [], ℕ, length, get_or, OnOk, IfOk, MatchOption};
ghost use Rattle.std.specs.Prelude.{None, true};
ghost use Rattle.soap_lex.specs.TextMachine.{begun, halts};
ghost use Rattle.soap_lex.specs.Readers.{text_state};
ghost use Rattle.soap_document.specs.Machine.{
  State,
  start,
  run,
  root_of,
  only_child,
  nothing_open,
  counted,
  after_token,
  settle,
  opened,
  closed,
  at_chars,
  at_less,
  in_less,
  is_refused,
  at_tagging,
  at_naming,
  chars,
  value_inner,
};
ghost use Rattle.soap_document.specs.Seen.{mode_of, fed_len, is_ended, IsTold, Sees, TakenBy};

use crate::handler::Handler;
use crate::open_elements::OpenElements;
use crate::scan::{Mode, Scan, first_stop, is_name_end};
use crate::tokens::{is_end, is_qname, is_white};
use rm_base::{Bytes, Memory};
use std::alloc::Global;
use std::mem;
use xml_chars::is_space;

/// A reader of a document that is fed its bytes in pieces, and tells a handler of the document's elements.
#[derive(Drop)]
pub struct Reader<H> {
    scan: Scan,
    stack: OpenElements<H>,
}

impl<H: Handler> Reader<H> {
    /// A reader that was fed nothing, with a handler that has made nothing. It takes no memory.
    pub fn new(alloc: Global, handler: H) -> Self
        requires outside { H.depth handler ≡ 0 }
        ensures told { IsTold H.depth result }
        ensures fed { fed_len result ≡ 0 }
        ensures sees { H.stands handler nothing_open [] → Sees H.stands result start }
    {
        Reader {
            scan: Scan::new(alloc),
            stack: OpenElements::new(alloc, handler),
        }
    }

    /// Takes the next piece of the document. After an error the reader is of no more use.
    /// - `sees`: the reader stands for the state that the machine goes on to, and its handler for the elements that are
    ///   open there, however the pieces are cut.
    /// - `told`: a handler is told no empty text, and of the end of an element only where one is open by what it was
    ///   told.
    pub fn feed(&mut self, piece: &[u8]) -> Result<(), Memory>
        requires told { IsTold H.depth self.old }
        requires fits { fed_len self.old + length piece.now < 2 ^ 64 }
        ensures told { OnOk result (IsTold H.depth self.new) }
        ensures fed { OnOk result (fed_len self.new ≡ fed_len self.old + length piece.now) }
        ensures sees { (s : State) → Sees H.stands self.old s → OnOk result (Sees H.stands self.new (run s piece.now)) }
    {
        let mut rest = piece;
        while !rest.is_empty() {
            let taken = self.take(rest)?;
            rest = &rest[taken..];
        }
        Ok(())
    }

    /// What was fed begins no document, whatever follows.
    pub fn is_refused(&self) -> bool
        ensures { (s : State) → Sees H.stands self.now s → result ≡ is_refused s.mode }
    {
        self.scan.mode == Mode::Refused
    }

    /// The root has ended, whatever stands behind it.
    pub fn is_ended(&self) -> bool
        ensures { (s : State) → Sees H.stands self.now s → result ≡ is_ended s.top s.below }
    {
        self.stack.is_ended()
    }

    /// The handler, where what was fed may be a document: it is one where the handler has one element and nothing else.
    pub fn finish(self) -> Option<H>
        ensures { (s : State) → Sees H.stands self s → MatchOption result (root_of s ≡ None)
            (λ handler. (root_of s ≡ only_child s.top.parts) × H.stands handler s.top []) }
    {
        if self.scan.mode == Mode::Outside
            && self.stack.is_outside()
            && is_white(&self.scan.token)
        {
            Some(self.stack.into_handler())
        } else {
            None
        }
    }

    // Takes some of the bytes, and says how many.
    fn take(&mut self, bytes: &[u8]) -> Result<usize, Memory>
        requires some { 0 < length bytes.now }
        requires fits { self.old.scan.at + length bytes.now < 2 ^ 64 }
        requires told { IsTold H.depth self.old }
        ensures told { OnOk result (IsTold H.depth self.new) }
        ensures place { IfOk result (λ n. (0 < n) × (n ≤ length bytes.now)
            × (fed_len self.new ≡ fed_len self.old + n)) }
        ensures sees { (s : State) → Sees H.stands self.old s → IfOk result (TakenBy H.stands s self.new bytes.now) }
    {
        match self.scan.mode {
            Mode::Chars => self.take_chars(bytes),
            Mode::ValueInner => self.scan.take_value(bytes),
            _ => self.take_token(bytes),
        }
    }

    // Up to the end of a token, or to the end of the bytes.
    fn take_token(&mut self, bytes: &[u8]) -> Result<usize, Memory>
        requires text { mode_of self.old.scan.mode ≢ chars }
        requires value { mode_of self.old.scan.mode ≢ value_inner }
        requires some { 0 < length bytes.now }
        requires fits { self.old.scan.at + length bytes.now < 2 ^ 64 }
        requires told { IsTold H.depth self.old }
        ensures told { OnOk result (IsTold H.depth self.new) }
        ensures place { IfOk result (λ n. (0 < n) × (n ≤ length bytes.now)
            × (fed_len self.new ≡ fed_len self.old + n)) }
        ensures sees { (s : State) → Sees H.stands self.old s → IfOk result (TakenBy H.stands s self.new bytes.now) }
    {
        let Some(end) = first_stop(self.scan.mode, bytes) else {
            self.scan.keep(bytes)?;
            return Ok(bytes.len());
        };
        self.scan.keep(&bytes[..end])?;
        self.at_token(bytes[end])?;
        Ok(end + 1)
    }

    // Within text, up to the end of a token of it, or one byte behind its end.
    fn take_chars(&mut self, bytes: &[u8]) -> Result<usize, Memory>
        requires inside { mode_of self.old.scan.mode ≡ chars }
        requires some { 0 < length bytes.now }
        requires fits { self.old.scan.at + length bytes.now < 2 ^ 64 }
        requires told { IsTold H.depth self.old }
        ensures told { OnOk result (IsTold H.depth self.new) }
        ensures place { IfOk result (λ n. (0 < n) × (n ≤ length bytes.now)
            × (fed_len self.new ≡ fed_len self.old + n)) }
        ensures sees { (s : State) → Sees H.stands self.old s → IfOk result (TakenBy H.stands s self.new bytes.now) }
    {
        if bytes.len() > 1 && bytes[0] == b'<' && bytes[1] != b'!' && self.scan.words.is_fresh() {
            return self.take_less(bytes);
        }
        if bytes[0] == b'!' {
            return self.take_bang(bytes);
        }
        self.take_text(bytes)
    }

    // A !, behind which a comment or a CDATA section may begin; what begins it is taken at once.
    fn take_bang(&mut self, bytes: &[u8]) -> Result<usize, Memory>
        requires inside { mode_of self.old.scan.mode ≡ chars }
        requires some { 0 < length bytes.now }
        requires fits { self.old.scan.at + length bytes.now < 2 ^ 64 }
        requires told { IsTold H.depth self.old }
        ensures told { OnOk result (IsTold H.depth self.new) }
        ensures place { IfOk result (λ n. (0 < n) × (n ≤ length bytes.now)
            × (fed_len self.new ≡ fed_len self.old + n)) }
        ensures sees { (s : State) → Sees H.stands self.old s → IfOk result (TakenBy H.stands s self.new bytes.now) }
    {
        let opened = self.scan.words.open(bytes);
        if opened == 0 {
            return self.take_text(bytes);
        }
        self.scan.at += opened;
        self.scan.at_text();
        Ok(opened)
    }

    // The same, of any text.
    fn take_text(&mut self, bytes: &[u8]) -> Result<usize, Memory>
        requires inside { mode_of self.old.scan.mode ≡ chars }
        requires some { 0 < length bytes.now }
        requires fits { self.old.scan.at + length bytes.now < 2 ^ 64 }
        requires told { IsTold H.depth self.old }
        ensures told { OnOk result (IsTold H.depth self.new) }
        ensures place { IfOk result (λ n. (0 < n) × (n ≤ length bytes.now)
            × (fed_len self.new ≡ fed_len self.old + n)) }
        ensures sees { (s : State) → Sees H.stands self.old s → IfOk result (TakenBy H.stands s self.new bytes.now) }
    {
        let Ok(taken) = self.scan.words.feed(bytes, &mut self.scan.text) else {
            return Err(Memory);
        };
        if taken == 0 {
            let at = self.scan.at;
            self.at_chars(bytes[0])?;
            self.scan.at = at + 1;
            return Ok(1);
        }
        self.scan.at += taken;
        self.scan.at_text();
        Ok(taken)
    }

    // A < where no text is begun, and the byte behind it, which begins no comment and no CDATA section.
    fn take_less(&mut self, bytes: &[u8]) -> Result<usize, Memory>
        requires inside { mode_of self.old.scan.mode ≡ chars }
        requires fresh { (text : List ℕ) → text_state self.old.scan.words text ≡ begun text }
        requires some { 1 < length bytes.now }
        requires first { get_or bytes.now 0 0 ≡ 60 }
        requires second { get_or bytes.now 1 0 ≢ 33 }
        requires fits { self.old.scan.at + length bytes.now < 2 ^ 64 }
        requires told { IsTold H.depth self.old }
        ensures told { OnOk result (IsTold H.depth self.new) }
        ensures place { IfOk result (λ n. (0 < n) × (n ≤ length bytes.now)
            × (fed_len self.new ≡ fed_len self.old + n)) }
        ensures sees { (s : State) → Sees H.stands self.old s → IfOk result (TakenBy H.stands s self.new bytes.now) }
    {
        self.scan.mode = Mode::Less;
        self.scan.markup = self.scan.at;
        self.scan.token.clear();
        let at = self.scan.at + 1;
        self.scan.at = at;
        self.go_on(bytes[1])?;
        self.scan.at = at + 1;
        Ok(2)
    }

    // A byte that ends the token.
    fn at_token(&mut self, byte: u8) -> Result<(), Memory>
        requires text { mode_of self.old.scan.mode ≢ chars }
        requires value { mode_of self.old.scan.mode ≢ value_inner }
        requires fits { self.old.scan.at + 1 < 2 ^ 64 }
        requires told { IsTold H.depth self.old }
        ensures told { OnOk result (IsTold H.depth self.new) }
        ensures place { OnOk result (fed_len self.new ≡ fed_len self.old + 1) }
        ensures sees { (s : State) → Sees H.stands self.old s
            → OnOk result (Sees H.stands self.new (counted (after_token s.mode s byte))) }
    {
        let at = self.scan.at;
        self.end(byte)?;
        self.scan.at = at + 1;
        Ok(())
    }

    // What it does, by where the reader stands.
    fn end(&mut self, byte: u8) -> Result<(), Memory>
        requires text { mode_of self.old.scan.mode ≢ chars }
        requires value { mode_of self.old.scan.mode ≢ value_inner }
        requires fits { self.old.scan.at + 1 < 2 ^ 64 }
        requires told { IsTold H.depth self.old }
        ensures told { OnOk result (IsTold H.depth self.new) }
        ensures sees { (s : State) → Sees H.stands self.old s
            → OnOk result (Sees H.stands self.new (after_token s.mode s byte)) }
    {
        let outside = self.stack.is_outside();
        match self.scan.mode {
            Mode::Beginning => self.scan.at_beginning(byte, outside),
            Mode::Declaring => self.scan.at_declaring(outside),
            Mode::Outside => self.scan.at_outside(byte),
            Mode::Marking => self.scan.at_marking(byte)?,
            Mode::Commenting => self.scan.at_commenting(outside)?,
            Mode::Less => self.at_less(byte)?,
            Mode::Tagging => self.at_tagging(byte)?,
            Mode::Naming => self.at_naming(byte)?,
            Mode::Named => self.scan.at_named(byte),
            Mode::Valuing => self.scan.at_valuing(byte),
            Mode::Chars | Mode::ValueInner => unreachable!(),
            Mode::Slashed => self.at_slashed(byte)?,
            Mode::Ending => self.at_ending()?,
            Mode::Refused => {}
        }
        Ok(())
    }

    // Nothing more of the text is read before this byte.
    fn at_chars(&mut self, byte: u8) -> Result<(), Memory>
        requires fits { self.old.scan.at + 1 < 2 ^ 64 }
        requires told { IsTold H.depth self.old }
        ensures told { OnOk result (IsTold H.depth self.new) }
        ensures sees { (s : State) → Sees H.stands self.old s → halts s.words byte ≡ true
            → OnOk result (Sees H.stands self.new (at_chars s byte)) }
    {
        if !self.scan.words.is_less() {
            self.scan.refuse();
            return Ok(());
        }
        self.scan.words.restart();
        self.scan.mode = Mode::Less;
        self.scan.markup = self.scan.at.saturating_sub(1);
        self.scan.token.clear();
        self.go_on(byte)
    }

    // A byte behind a <, or in a name there.
    fn go_on(&mut self, byte: u8) -> Result<(), Memory>
        requires fits { self.old.scan.at + 1 < 2 ^ 64 }
        requires told { IsTold H.depth self.old }
        ensures told { OnOk result (IsTold H.depth self.new) }
        ensures sees { (s : State) → Sees H.stands self.old s → OnOk result (Sees H.stands self.new (in_less s byte)) }
    {
        if is_name_end(byte) {
            return self.at_less(byte);
        }
        self.scan.token.push(byte)?;
        Ok(())
    }

    fn at_less(&mut self, byte: u8) -> Result<(), Memory>
        requires fits { self.old.scan.at + 1 < 2 ^ 64 }
        requires told { IsTold H.depth self.old }
        ensures told { OnOk result (IsTold H.depth self.new) }
        ensures sees { (s : State) → Sees H.stands self.old s → OnOk result (Sees H.stands self.new (at_less s byte)) }
    {
        if self.scan.token.is_empty() {
            return self.begin_markup(byte);
        }
        if !is_qname(&self.scan.token) || !self.stack.has_room() {
            self.scan.refuse();
            return Ok(());
        }
        self.settle()?;
        self.scan.name = Bytes::from_slice(self.scan.alloc, &self.scan.token)?;
        self.at_tagging(byte)
    }

    // The byte behind a <, which begins no name.
    fn begin_markup(&mut self, byte: u8) -> Result<(), Memory>
        requires told { IsTold H.depth self.old }
        ensures told { OnOk result (IsTold H.depth self.new) }
        ensures sees { (s : State) → Sees H.stands self.old s → s.token ≡ []
            → OnOk result (Sees H.stands self.new (at_less s byte)) }
    {
        if byte == b'/' && !self.stack.is_outside() {
            self.settle()?;
            self.scan.mode = Mode::Ending;
        } else if byte == b'!' {
            self.scan.mode = Mode::Marking;
        } else if byte == b'?' && self.scan.fresh {
            self.scan.mode = Mode::Declaring;
        } else {
            self.scan.refuse();
        }
        Ok(())
    }

    // The text becomes a part.
    fn settle(&mut self) -> Result<(), Memory>
        requires told { IsTold H.depth self.old }
        ensures told { OnOk result (IsTold H.depth self.new) }
        ensures at { OnOk result (self.new.scan.at ≡ self.old.scan.at) }
        ensures sees { (s : State) → Sees H.stands self.old s → OnOk result (Sees H.stands self.new (settle s)) }
    {
        self.scan.words.restart();
        if self.scan.text.is_empty() {
            return Ok(());
        }
        self.stack.text(&self.scan.text)?;
        self.scan.text.clear();
        Ok(())
    }

    fn at_tagging(&mut self, byte: u8) -> Result<(), Memory>
        requires fits { self.old.scan.at + 1 < 2 ^ 64 }
        requires told { IsTold H.depth self.old }
        ensures told { OnOk result (IsTold H.depth self.new) }
        ensures sees { (s : State) → Sees H.stands self.old s → OnOk result (Sees H.stands self.new
            (at_tagging s byte)) }
    {
        if is_space(byte) {
            self.scan.mode = Mode::Naming;
            self.scan.token.clear();
        } else if byte == b'>' {
            return self.open();
        } else if byte == b'/' {
            self.scan.mode = Mode::Slashed;
            self.scan.token.clear();
        } else {
            self.scan.refuse();
        }
        Ok(())
    }

    // The start tag ends: an element is open.
    fn open(&mut self) -> Result<(), Memory>
        requires fits { self.old.scan.at + 1 < 2 ^ 64 }
        requires told { IsTold H.depth self.old }
        ensures told { OnOk result (IsTold H.depth self.new) }
        ensures sees { (s : State) → Sees H.stands self.old s → OnOk result (Sees H.stands self.new (opened s)) }
    {
        let name = mem::replace(&mut self.scan.name, Bytes::new());
        self.stack
            .open(name, &self.scan.attributes, self.scan.at + 1)?;
        self.scan.attributes.clear();
        self.scan.calm(false);
        Ok(())
    }

    fn at_naming(&mut self, byte: u8) -> Result<(), Memory>
        requires fits { self.old.scan.at + 1 < 2 ^ 64 }
        requires told { IsTold H.depth self.old }
        ensures told { OnOk result (IsTold H.depth self.new) }
        ensures sees { (s : State) → Sees H.stands self.old s → OnOk result (Sees H.stands self.new
            (at_naming s byte)) }
    {
        if self.scan.token.is_empty() {
            return self.at_tagging(byte);
        }
        self.scan.at_attribute(byte)
    }

    // The empty-element tag ends, where it does.
    fn at_slashed(&mut self, byte: u8) -> Result<(), Memory>
        requires fits { self.old.scan.at + 1 < 2 ^ 64 }
        requires told { IsTold H.depth self.old }
        ensures told { OnOk result (IsTold H.depth self.new) }
        ensures sees { (s : State) → Sees H.stands self.old s
            → OnOk result (Sees H.stands self.new (after_token (mode_of Mode.Slashed) s byte)) }
    {
        if byte != b'>' {
            self.scan.refuse();
            return Ok(());
        }
        let name = mem::replace(&mut self.scan.name, Bytes::new());
        self.stack
            .empty(name.as_slice(), &self.scan.attributes, self.scan.at + 1)?;
        self.scan.attributes.clear();
        self.scan.calm(self.stack.is_outside());
        Ok(())
    }

    // The end tag ends, which names the innermost element.
    fn at_ending(&mut self) -> Result<(), Memory>
        requires told { IsTold H.depth self.old }
        ensures told { OnOk result (IsTold H.depth self.new) }
        ensures sees { (s : State) → Sees H.stands self.old s
            → OnOk result (Sees H.stands self.new (closed s.below s)) }
    {
        if self.stack.is_outside() || !is_end(self.stack.name(), &self.scan.token) {
            self.scan.refuse();
            return Ok(());
        }
        self.stack.close(self.scan.markup)?;
        self.scan.calm(self.stack.is_outside());
        Ok(())
    }
}
