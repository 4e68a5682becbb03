//! The words, numbers and strings of a script.

ghost use Rattle.finvar_text.specs.Trees.{bytes_of, script_of};
ghost use Rattle.finvar_text.specs.Grammar.{next_word, body_word, opening_word, call_word, next_number, matrix_number, next_text, Items};
ghost use Rattle.finvar_text.specs.Parsers.{state_of, opening_of, matrix_of, call_of, Takes};

use crate::number::NumberText;
use crate::scan_tokens::{
    CallPosition, MatrixPosition, OpeningPosition, Parser, Position, PrintPosition, ScanError,
    expect_name, expect_word,
};
use crate::syntax::EntryText;
use std::alloc::Global;

impl<'a> Parser<'a> {
    /// Takes a word up to the ring's end.
    #[tactic(auto, unfolding(crate::specs::Grammar::opening_word))]
    fn opening_word(
        &mut self,
        alloc: Global,
        opening: OpeningPosition,
        word: &'a [u8],
    ) -> Result<(), ScanError>
        ensures is { Takes result (state_of self.new)
            (opening_word (bytes_of self.old.script.libs.items) (opening_of self.old opening) word.now) }
    {
        let next = match opening {
            OpeningPosition::Libs if word == b"LIB".as_slice() => OpeningPosition::LibText,
            OpeningPosition::Libs => {
                expect_word(word, b"ring")?;
                OpeningPosition::RingName
            }
            OpeningPosition::RingName => {
                expect_name(word)?;
                self.script.ring = word;
                OpeningPosition::RingEquals
            }
            OpeningPosition::Variables => {
                expect_name(word)?;
                self.script.in_parentheses = false;
                self.script.variables = Vec::new(alloc);
                self.script.variables.push(word)?;
                OpeningPosition::VariablesEnd
            }
            OpeningPosition::Variable => {
                expect_name(word)?;
                self.script.variables.push(word)?;
                OpeningPosition::VariableEnd
            }
            OpeningPosition::Order => {
                expect_word(word, b"dp")?;
                OpeningPosition::RingEnd
            }
            _ => return Err(ScanError::Unexpected),
        };
        self.position = Position::Opening(next);
        Ok(())
    }

    /// Takes a word where an item may begin.
    #[tactic(auto, unfolding(crate::specs::Grammar::body_word))]
    fn item_word(&mut self, word: &'a [u8]) -> Result<(), ScanError>
        ensures is { Takes result (state_of self.new) (body_word (script_of self.old.script) self.old.has_call Items word.now) }
    {
        if word == b"LIB".as_slice() {
            self.position = Position::ItemText;
            return Ok(());
        }
        if word == b"matrix".as_slice() {
            self.position = Position::MatrixName;
            return Ok(());
        }
        if word == b"print".as_slice() {
            self.position = Position::Print(PrintPosition::Open);
            return Ok(());
        }
        expect_name(word)?;
        self.name = word;
        self.position = Position::Print(PrintPosition::PrintEnd(false));
        Ok(())
    }

    /// Takes a word in a call.
    #[tactic(auto, unfolding(crate::specs::Grammar::call_word))]
    fn call_word(&mut self, call: CallPosition, word: &'a [u8]) -> Result<(), ScanError>
        ensures is { Takes result (state_of self.new)
            (call_word (script_of self.old.script) self.old.has_call (call_of self.old call) word.now) }
    {
        let next = match call {
            CallPosition::Second => {
                expect_name(word)?;
                self.second = word;
                CallPosition::SecondEnd
            }
            CallPosition::Third => {
                expect_name(word)?;
                self.third = word;
                CallPosition::ThirdEnd
            }
            CallPosition::InvariantRing => {
                expect_word(word, b"invariant_ring")?;
                CallPosition::Open
            }
            CallPosition::Argument => {
                expect_name(word)?;
                self.arguments.push(word)?;
                CallPosition::ArgumentEnd
            }
            _ => return Err(ScanError::Unexpected),
        };
        self.position = Position::Call(next);
        Ok(())
    }

    /// Takes a word.
    #[tactic(auto, unfolding(crate::specs::Grammar::next_word, crate::specs::Grammar::body_word, crate::specs::Grammar::printing_word))]
    pub(crate) fn take_word(&mut self, alloc: Global, word: &'a [u8]) -> Result<(), ScanError>
        ensures is { Takes result (state_of self.new) (next_word (state_of self.old) word.now) }
    {
        match self.position {
            Position::Opening(opening) => self.opening_word(alloc, opening, word),
            Position::Items => self.item_word(word),
            Position::MatrixName => {
                expect_name(word)?;
                self.name = word;
                self.position = Position::MatrixNamed;
                Ok(())
            }
            Position::Call(call) => self.call_word(call, word),
            Position::Print(PrintPosition::Name) => {
                expect_name(word)?;
                self.name = word;
                self.position = Position::Print(PrintPosition::Close);
                Ok(())
            }
            _ => Err(ScanError::Unexpected),
        }
    }

    /// Takes a number in a matrix.
    #[tactic(auto, unfolding(crate::specs::Grammar::matrix_number))]
    fn matrix_number(&mut self, matrix: MatrixPosition, digits: &'a [u8]) -> Result<(), ScanError>
        ensures is { Takes result (state_of self.new)
            (matrix_number (script_of self.old.script) self.old.has_call (matrix_of self.old matrix) digits.now) }
    {
        let next = match matrix {
            MatrixPosition::Rows => {
                self.rows = NumberText::of(digits);
                MatrixPosition::RowsEnd
            }
            MatrixPosition::Cols => {
                self.cols = NumberText::of(digits);
                MatrixPosition::ColsEnd
            }
            MatrixPosition::Entry => {
                self.entries.push(EntryText {
                    is_negative: false,
                    number: NumberText::of(digits),
                })?;
                MatrixPosition::EntryEnd
            }
            MatrixPosition::Digits => {
                self.entries.push(EntryText {
                    is_negative: true,
                    number: NumberText::of(digits),
                })?;
                MatrixPosition::EntryEnd
            }
            _ => return Err(ScanError::Unexpected),
        };
        self.position = Position::Matrix(next);
        Ok(())
    }

    /// Takes a number.
    #[tactic(auto, unfolding(crate::specs::Grammar::next_number, crate::specs::Grammar::opening_number, crate::specs::Grammar::body_number))]
    pub(crate) fn take_number(&mut self, digits: &'a [u8]) -> Result<(), ScanError>
        ensures is { Takes result (state_of self.new) (next_number (state_of self.old) digits.now) }
    {
        match self.position {
            Position::Opening(OpeningPosition::Characteristic) => {
                self.script.characteristic = NumberText::of(digits);
                self.position = Position::Opening(OpeningPosition::CharacteristicEnd);
                Ok(())
            }
            Position::Matrix(matrix) => self.matrix_number(matrix, digits),
            _ => Err(ScanError::Unexpected),
        }
    }

    /// Takes a string, by the bytes between its quotes.
    #[tactic(auto, unfolding(crate::specs::Grammar::next_text, crate::specs::Grammar::opening_text, crate::specs::Grammar::body_text))]
    pub(crate) fn take_text(&mut self, bytes: &'a [u8]) -> Result<(), ScanError>
        ensures is { Takes result (state_of self.new) (next_text (state_of self.old) bytes.now) }
    {
        match self.position {
            Position::Opening(OpeningPosition::LibText) => {
                self.name = bytes;
                self.position = Position::Opening(OpeningPosition::LibEnd);
                Ok(())
            }
            Position::ItemText => {
                self.name = bytes;
                self.position = Position::ItemTextEnd;
                Ok(())
            }
            _ => Err(ScanError::Unexpected),
        }
    }
}
