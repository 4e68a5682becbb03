//! The symbols of a script.

ghost use Rattle.std.specs.Prelude.{true};
ghost use Rattle.finvar_text.specs.declared.scan_tokens.OpeningPosition.TheVariants as openings;
ghost use Rattle.finvar_text.specs.Syntax.{Declared, Called};
ghost use Rattle.finvar_text.specs.Trees.{bytes_of, entries_of, script_of};
ghost use Rattle.finvar_text.specs.Grammar.{symbol, with_item, MatrixNamed, next_symbol, body_symbol, opening_symbol, matrix_symbol, call_symbol, print_symbol, After, Items};
ghost use Rattle.finvar_text.specs.Parsers.{state_of, opening_of, matrix_of, call_of, print_of, Takes};

use crate::scan_tokens::{
    CallPosition, MatrixPosition, OpeningPosition, Parser, Position, PrintPosition, ScanError,
    expect_symbol,
};
use crate::syntax::{CallText, ItemText, MatrixText};
use std::alloc::Global;
use std::mem;

impl<'a> Parser<'a> {
    /// Takes a symbol up to the ring's end.
    #[tactic(auto, unfolding(crate::specs::Grammar::opening_symbol))]
    fn opening_symbol(
        &mut self,
        alloc: Global,
        opening: OpeningPosition,
        byte: u8,
    ) -> Result<(), ScanError>
        ensures is { Takes result (state_of self.new)
            (opening_symbol (bytes_of self.old.script.libs.items) (opening_of self.old opening) byte) }
    {
        let next = match opening {
            OpeningPosition::LibEnd => {
                expect_symbol(byte, b';')?;
                self.script.libs.push(self.name)?;
                OpeningPosition::Libs
            }
            OpeningPosition::RingEquals => {
                expect_symbol(byte, b'=')?;
                OpeningPosition::Characteristic
            }
            OpeningPosition::CharacteristicEnd => {
                expect_symbol(byte, b',')?;
                OpeningPosition::Variables
            }
            OpeningPosition::Variables => {
                expect_symbol(byte, b'(')?;
                self.script.variables = Vec::new(alloc);
                OpeningPosition::Variable
            }
            OpeningPosition::VariableEnd => return self.after_variable(byte),
            OpeningPosition::VariablesEnd => {
                expect_symbol(byte, b',')?;
                OpeningPosition::Order
            }
            OpeningPosition::RingEnd => return self.end_ring(alloc, byte),
            _ => return Err(ScanError::Unexpected),
        };
        self.position = Position::Opening(next);
        Ok(())
    }

    /// Takes the symbol after a variable in parentheses.
    #[tactic(auto, unfolding(crate::specs::Grammar::opening_symbol))]
    fn after_variable(&mut self, byte: u8) -> Result<(), ScanError>
        ensures is { Takes result (state_of self.new)
            (opening_symbol (bytes_of self.old.script.libs.items) (opening_of self.old openings.VariableEnd) byte) }
    {
        if byte == b',' {
            self.position = Position::Opening(OpeningPosition::Variable);
            return Ok(());
        }
        expect_symbol(byte, b')')?;
        self.script.in_parentheses = true;
        self.position = Position::Opening(OpeningPosition::VariablesEnd);
        Ok(())
    }

    /// Takes the symbol after the ring.
    #[tactic(auto, unfolding(crate::specs::Grammar::opening_symbol))]
    fn end_ring(&mut self, alloc: Global, byte: u8) -> Result<(), ScanError>
        ensures is { Takes result (state_of self.new)
            (opening_symbol (bytes_of self.old.script.libs.items) (opening_of self.old openings.RingEnd) byte) }
    {
        expect_symbol(byte, b';')?;
        self.script.items = Vec::new(alloc);
        self.has_call = false;
        self.position = Position::Items;
        Ok(())
    }

    /// Takes a symbol in a matrix.
    #[tactic(auto, unfolding(crate::specs::Grammar::matrix_symbol))]
    fn matrix_symbol(
        &mut self,
        alloc: Global,
        matrix: MatrixPosition,
        byte: u8,
    ) -> Result<(), ScanError>
        ensures is { Takes result (state_of self.new)
            (matrix_symbol (script_of self.old.script) self.old.has_call (matrix_of self.old matrix) byte) }
    {
        let next = match matrix {
            MatrixPosition::RowsEnd => {
                expect_symbol(byte, b']')?;
                MatrixPosition::ColsStart
            }
            MatrixPosition::ColsStart => {
                expect_symbol(byte, b'[')?;
                MatrixPosition::Cols
            }
            MatrixPosition::ColsEnd => {
                expect_symbol(byte, b']')?;
                MatrixPosition::Equals
            }
            MatrixPosition::Equals => {
                expect_symbol(byte, b'=')?;
                self.entries = Vec::new(alloc);
                MatrixPosition::Entry
            }
            MatrixPosition::Entry => {
                expect_symbol(byte, b'-')?;
                MatrixPosition::Digits
            }
            MatrixPosition::EntryEnd if byte == b',' => MatrixPosition::Entry,
            MatrixPosition::EntryEnd => return self.end_matrix(alloc, byte),
            _ => return Err(ScanError::Unexpected),
        };
        self.position = Position::Matrix(next);
        Ok(())
    }

    /// Takes the symbol after the last entry.
    fn end_matrix(&mut self, alloc: Global, byte: u8) -> Result<(), ScanError>
        ensures is { Takes result (state_of self.new)
            (symbol 59 byte (After (with_item (script_of self.old.script) (Declared (record {
              name = self.old.name.now;
              rows = self.old.rows.digits.now;
              cols = self.old.cols.digits.now;
              entries = entries_of self.old.entries.items;
            }))) self.old.has_call Items)) }
    {
        expect_symbol(byte, b';')?;
        let entries = mem::replace(&mut self.entries, Vec::new(alloc));
        self.script.items.push(ItemText::Declared(MatrixText {
            name: self.name,
            rows: self.rows,
            cols: self.cols,
            entries,
        }))?;
        self.position = Position::Items;
        Ok(())
    }

    /// Takes a symbol in a call.
    #[tactic(auto, unfolding(crate::specs::Grammar::call_symbol))]
    fn call_symbol(&mut self, alloc: Global, call: CallPosition, byte: u8) -> Result<(), ScanError>
        ensures is { Takes result (state_of self.new)
            (call_symbol (script_of self.old.script) self.old.has_call (call_of self.old call) byte) }
    {
        let next = match call {
            CallPosition::SecondEnd => {
                expect_symbol(byte, b',')?;
                CallPosition::Third
            }
            CallPosition::ThirdEnd => {
                expect_symbol(byte, b'=')?;
                CallPosition::InvariantRing
            }
            CallPosition::Open => {
                expect_symbol(byte, b'(')?;
                self.arguments = Vec::new(alloc);
                CallPosition::Argument
            }
            CallPosition::ArgumentEnd if byte == b',' => CallPosition::Argument,
            CallPosition::ArgumentEnd => {
                expect_symbol(byte, b')')?;
                CallPosition::CallEnd
            }
            CallPosition::CallEnd => return self.end_call(alloc, byte),
            _ => return Err(ScanError::Unexpected),
        };
        self.position = Position::Call(next);
        Ok(())
    }

    /// Takes the symbol after a call.
    fn end_call(&mut self, alloc: Global, byte: u8) -> Result<(), ScanError>
        ensures is { Takes result (state_of self.new)
            (symbol 59 byte (After (with_item (script_of self.old.script) (Called (record {
              first = self.old.name.now;
              second = self.old.second.now;
              third = self.old.third.now;
              arguments = bytes_of self.old.arguments.items;
            }))) true Items)) }
    {
        expect_symbol(byte, b';')?;
        let arguments = mem::replace(&mut self.arguments, Vec::new(alloc));
        self.script.items.push(ItemText::Called(CallText {
            first: self.name,
            second: self.second,
            third: self.third,
            arguments,
        }))?;
        self.has_call = true;
        self.position = Position::Items;
        Ok(())
    }

    /// Takes a symbol in a print.
    #[tactic(auto, unfolding(crate::specs::Grammar::print_symbol))]
    fn print_symbol(&mut self, print: PrintPosition, byte: u8) -> Result<(), ScanError>
        ensures is { Takes result (state_of self.new)
            (print_symbol (script_of self.old.script) self.old.has_call (print_of self.old print) byte) }
    {
        let next = match print {
            PrintPosition::Open => {
                expect_symbol(byte, b'(')?;
                PrintPosition::Name
            }
            PrintPosition::Name => return Err(ScanError::Unexpected),
            PrintPosition::Close => {
                expect_symbol(byte, b')')?;
                PrintPosition::PrintEnd(true)
            }
            PrintPosition::PrintEnd(with_word) => {
                expect_symbol(byte, b';')?;
                self.script.items.push(ItemText::Printed {
                    name: self.name,
                    with_word,
                })?;
                self.position = Position::Items;
                return Ok(());
            }
        };
        self.position = Position::Print(next);
        Ok(())
    }

    /// Takes the symbol after the name of a matrix or of a call's first result.
    #[tactic(auto, unfolding(crate::specs::Grammar::body_symbol))]
    fn after_name(&mut self, byte: u8) -> Result<(), ScanError>
        ensures is { Takes result (state_of self.new)
            (body_symbol (script_of self.old.script) self.old.has_call (MatrixNamed self.old.name.now) byte) }
    {
        if byte == b'[' {
            self.position = Position::Matrix(MatrixPosition::Rows);
            return Ok(());
        }
        if self.has_call {
            return Err(ScanError::Unexpected);
        }
        expect_symbol(byte, b',')?;
        self.position = Position::Call(CallPosition::Second);
        Ok(())
    }

    /// Takes a symbol.
    #[tactic(auto, unfolding(crate::specs::Grammar::next_symbol, crate::specs::Grammar::body_symbol))]
    pub(crate) fn take_symbol(&mut self, alloc: Global, byte: u8) -> Result<(), ScanError>
        ensures is { Takes result (state_of self.new) (next_symbol (state_of self.old) byte) }
    {
        match self.position {
            Position::Opening(opening) => self.opening_symbol(alloc, opening, byte),
            Position::Items | Position::ItemText | Position::MatrixName => {
                Err(ScanError::Unexpected)
            }
            Position::ItemTextEnd => {
                expect_symbol(byte, b';')?;
                self.script.items.push(ItemText::Lib(self.name))?;
                self.position = Position::Items;
                Ok(())
            }
            Position::MatrixNamed => self.after_name(byte),
            Position::Matrix(matrix) => self.matrix_symbol(alloc, matrix, byte),
            Position::Call(call) => self.call_symbol(alloc, call, byte),
            Position::Print(print) => self.print_symbol(print, byte),
        }
    }
}
