//! The syntax tree of a script, byte by byte.

ghost use Rattle.std.specs.Prelude.{◌≡◌, ◌<◌, ◌≤◌, ◌+◌, ◌-◌, ℕ, List, [], ◌∷◌, take, drop, length, slice_index, OnOk, IfOk, IfErr, Some, None, if◌then◌else◌};
ghost use Rattle.alg_core.specs.Names.{is_name_byte};
ghost use Rattle.finvar_text.specs.declared.scan.Mode.TheVariants as modes;
ghost use Rattle.finvar_text.specs.Syntax.{IsText, is_blank};
ghost use Rattle.finvar_text.specs.Trees.{script_of};
ghost use Rattle.finvar_text.specs.Parsers.{state_of, Takes, Finishes};
ghost use Rattle.finvar_text.specs.Grammar.{takes_text, takes_number, word_front};
ghost use Rattle.finvar_text.specs.Scanning.{start_scan, at, InText, InWord, InNumber, between, in_slash, in_word, in_number, in_text, step, finish};
ghost use Rattle.finvar_text.specs.Scanners.{scan_of, IsOrdered, fault_at, IsSyntaxFault};

use crate::scan_tokens::{Parser, ScanError};
use crate::syntax::ScriptText;
use std::alloc::Global;

/// Why the bytes are no script.
#[derive(Clone, Copy, Debug, PartialEq, Eq)]
pub(crate) enum SyntaxFault {
    /// The number of bytes that some script begins with.
    Syntax { place: u64 },
    Memory,
}

/// What the last bytes belong to: of a token the place of its first byte, of a string that after the quote; a comment
/// between `/*` and `*/` tells whether a `*` was just read.
#[derive(Clone, Copy, Debug)]
pub(crate) enum Mode {
    Between,
    Slash,
    Line,
    Block(bool),
    Word(usize),
    Number(usize),
    Text(usize),
}

/// The tokens that were read whole, and the one at hand.
#[derive(Debug, Drop)]
pub(crate) struct Scanner<'a> {
    parser: Parser<'a>,
    mode: Mode,
}

/// Whether the byte may stand in a name.
fn is_name_byte(byte: u8) -> bool
    ensures is { result ≡ is_name_byte byte }
{
    byte.is_ascii_alphanumeric() || byte == b'_'
}

/// Whether the byte is a space, a tab, a newline or a carriage return.
fn is_blank(byte: u8) -> bool
    ensures is { result ≡ is_blank byte }
{
    byte == b' ' || byte == b'\t' || byte == b'\n' || byte == b'\r'
}

impl<'a> Scanner<'a> {
    /// A scanner before the first byte.
    pub(crate) fn new(alloc: Global) -> Scanner<'a>
        ensures is { (text : List ℕ) → scan_of text 0 result ≡ start_scan }
        ensures ordered { IsOrdered 0 result }
    {
        Scanner {
            parser: Parser::new(alloc),
            mode: Mode::Between,
        }
    }

    /// Takes a byte where nothing is open.
    #[tactic(auto, unfolding(crate::specs::Scanning::between))]
    fn between(&mut self, alloc: Global, text: &[u8], place: usize) -> Result<(), ScanError>
        requires within { place < length text.now }
        ensures is { Takes result (scan_of text.now (place + 1) self.new)
            (between (state_of self.old.parser) (slice_index text.now place)) }
        ensures ordered { OnOk result (IsOrdered (place + 1) self.new) }
    {
        let byte = text[place];
        if is_blank(byte) {
            self.mode = Mode::Between;
            return Ok(());
        }
        if byte == b'/' {
            self.mode = Mode::Slash;
            return Ok(());
        }
        if byte == b'"' {
            return self.open_text(place + 1);
        }
        if byte.is_ascii_alphabetic() {
            return self.open_word(text, place);
        }
        if byte.is_ascii_digit() {
            return self.open_number(place);
        }
        self.parser.take_symbol(alloc, byte)?;
        self.mode = Mode::Between;
        Ok(())
    }

    /// Opens a string, whose bytes begin at the place.
    fn open_text(&mut self, place: usize) -> Result<(), ScanError>
        ensures is { (text : List ℕ) → Takes result (scan_of text place self.new)
            (if takes_text (state_of self.old.parser) then Some (at (state_of self.old.parser) (InText [])) else None) }
        ensures ordered { OnOk result (IsOrdered place self.new) }
    {
        if !self.parser.takes_text() {
            return Err(ScanError::Unexpected);
        }
        self.mode = Mode::Text(place);
        Ok(())
    }

    /// Opens a word.
    fn open_word(&mut self, text: &[u8], place: usize) -> Result<(), ScanError>
        requires within { place < length text.now }
        ensures is { let word = slice_index text.now place ∷ [] in Takes result (scan_of text.now (place + 1) self.new)
            (if word_front (state_of self.old.parser) word then Some (at (state_of self.old.parser) (InWord word)) else None) }
        ensures ordered { OnOk result (IsOrdered (place + 1) self.new) }
    {
        if !self.parser.word_front(&text[place..place + 1]) {
            return Err(ScanError::Unexpected);
        }
        self.mode = Mode::Word(place);
        Ok(())
    }

    /// Opens a number, whose first digit stands at the place.
    fn open_number(&mut self, place: usize) -> Result<(), ScanError>
        ensures is { (text : List ℕ) → place < length text →
            Takes result (scan_of text (place + 1) self.new)
            (if takes_number (state_of self.old.parser)
            then Some (at (state_of self.old.parser) (InNumber (slice_index text place ∷ []))) else None) }
        ensures ordered { OnOk result (IsOrdered (place + 1) self.new) }
    {
        if !self.parser.takes_number() {
            return Err(ScanError::Unexpected);
        }
        self.mode = Mode::Number(place);
        Ok(())
    }

    /// Takes the byte after a `/`.
    #[tactic(auto, unfolding(crate::specs::Scanning::in_slash))]
    fn in_slash(&mut self, byte: u8) -> Result<(), ScanError>
        ensures is { (text : List ℕ) (i : ℕ) → Takes result (scan_of text i self.new) (in_slash (state_of self.old.parser) byte) }
        ensures ordered { (i : ℕ) → OnOk result (IsOrdered i self.new) }
    {
        self.mode = match byte {
            b'/' => Mode::Line,
            b'*' => Mode::Block(false),
            _ => return Err(ScanError::Unexpected),
        };
        Ok(())
    }

    /// Takes the byte after the first bytes of a word, which begins at `start`.
    #[tactic(auto, unfolding(crate::specs::Scanning::in_word))]
    fn in_word(
        &mut self,
        alloc: Global,
        start: usize,
        text: &'a [u8],
        place: usize,
    ) -> Result<(), ScanError>
        requires within { place < length text.now }
        requires begins { start < place }
        requires mode { self.old.mode ≡ modes.Word start }
        ensures is { Takes result (scan_of text.now (place + 1) self.new)
            (in_word (take (place - start) (drop start text.now)) (state_of self.old.parser) (slice_index text.now place)) }
        ensures ordered { OnOk result (IsOrdered (place + 1) self.new) }
    {
        if is_name_byte(text[place]) {
            if !self.parser.word_front(&text[start..place + 1]) {
                return Err(ScanError::Unexpected);
            }
            return Ok(());
        }
        self.parser.take_word(alloc, &text[start..place])?;
        self.between(alloc, text, place)
    }

    /// Takes the byte after the first digits of a number, which begins at `start`.
    #[tactic(auto, unfolding(crate::specs::Scanning::in_number))]
    fn in_number(
        &mut self,
        alloc: Global,
        start: usize,
        text: &'a [u8],
        place: usize,
    ) -> Result<(), ScanError>
        requires within { place < length text.now }
        requires begins { start < place }
        requires mode { self.old.mode ≡ modes.Number start }
        ensures is { Takes result (scan_of text.now (place + 1) self.new)
            (in_number (take (place - start) (drop start text.now)) (state_of self.old.parser) (slice_index text.now place)) }
        ensures ordered { OnOk result (IsOrdered (place + 1) self.new) }
    {
        let byte = text[place];
        if byte.is_ascii_digit() {
            return Ok(());
        }
        if byte.is_ascii_alphabetic() {
            return Err(ScanError::Unexpected);
        }
        self.parser.take_number(&text[start..place])?;
        self.between(alloc, text, place)
    }

    /// Takes the byte after the first bytes of a string, which begins at `start`.
    #[tactic(auto, unfolding(crate::specs::Scanning::in_text))]
    fn in_text(&mut self, start: usize, text: &'a [u8], place: usize) -> Result<(), ScanError>
        requires within { place < length text.now }
        requires begins { start ≤ place }
        requires mode { self.old.mode ≡ modes.Text start }
        ensures is { Takes result (scan_of text.now (place + 1) self.new)
            (in_text (take (place - start) (drop start text.now)) (state_of self.old.parser) (slice_index text.now place)) }
        ensures ordered { OnOk result (IsOrdered (place + 1) self.new) }
    {
        let byte = text[place];
        if byte == b'"' {
            self.parser.take_text(&text[start..place])?;
            self.mode = Mode::Between;
            return Ok(());
        }
        if byte == b'\n' {
            return Err(ScanError::Unexpected);
        }
        Ok(())
    }

    /// Takes the next byte.
    #[tactic(auto, unfolding(crate::specs::Scanning::step_in, crate::specs::Scanning::in_block))]
    pub(crate) fn step(
        &mut self,
        alloc: Global,
        text: &'a [u8],
        place: usize,
    ) -> Result<(), ScanError>
        requires within { place < length text.now }
        requires ordered { IsOrdered place self.old }
        ensures is { Takes result (scan_of text.now (place + 1) self.new)
            (step (scan_of text.now place self.old) (slice_index text.now place)) }
        ensures ordered { OnOk result (IsOrdered (place + 1) self.new) }
    {
        let byte = text[place];
        match self.mode {
            Mode::Between => self.between(alloc, text, place),
            Mode::Slash => self.in_slash(byte),
            Mode::Line => {
                if byte == b'\n' {
                    self.mode = Mode::Between;
                }
                Ok(())
            }
            Mode::Block(star) => {
                if star && byte == b'/' {
                    self.mode = Mode::Between;
                } else {
                    self.mode = Mode::Block(byte == b'*');
                }
                Ok(())
            }
            Mode::Word(start) => self.in_word(alloc, start, text, place),
            Mode::Number(start) => self.in_number(alloc, start, text, place),
            Mode::Text(start) => self.in_text(start, text, place),
        }
    }

    /// The script, where it may end here.
    pub(crate) fn finish(
        mut self,
        alloc: Global,
        text: &'a [u8],
    ) -> Result<ScriptText<'a>, ScanError>
        requires ordered { IsOrdered (length text.now) self }
        ensures is { Finishes result (finish (scan_of text.now (length text.now) self.entry)) }
    {
        match self.mode {
            Mode::Between | Mode::Line => self.parser.finish(),
            Mode::Word(start) => {
                self.parser.take_word(alloc, &text[start..text.len()])?;
                self.parser.finish()
            }
            Mode::Number(start) => {
                self.parser.take_number(&text[start..text.len()])?;
                self.parser.finish()
            }
            Mode::Slash | Mode::Block(_) | Mode::Text(_) => Err(ScanError::Unexpected),
        }
    }
}

/// The syntax tree of a script, or its first fault.
pub(crate) fn syntax_tree(alloc: Global, text: &[u8]) -> Result<ScriptText<'_>, SyntaxFault>
    ensures tree { IfOk result (λ s. IsText (script_of s) text.now) }
    ensures fault { IfErr result (IsSyntaxFault text.now) }
{
    let mut scanner = Scanner::new(alloc);
    for place in 0..text.len() {
        match scanner.step(alloc, text, place) {
            Ok(()) => {}
            Err(error) => return Err(fault_at(error, place)),
        }
    }
    match scanner.finish(alloc, text) {
        Ok(script) => Ok(script),
        Err(error) => Err(fault_at(error, text.len())),
    }
}

/// The fault of a text whose byte at this place, or whose end, was not taken.
fn fault_at(error: ScanError, place: usize) -> SyntaxFault
    ensures is { result ≡ fault_at error place }
{
    match error {
        ScanError::Unexpected => SyntaxFault::Syntax {
            place: place as u64,
        },
        ScanError::Memory => SyntaxFault::Memory,
    }
}
