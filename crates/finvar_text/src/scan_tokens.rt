//! The syntax tree of a script, token by token.

ghost use Rattle.std.specs.Prelude.{◌≡◌};
ghost use Rattle.alg_core.specs.Names.{is_reserved};
ghost use Rattle.finvar_text.specs.declared.scan_tokens.ScanError.TheVariants as errors;
ghost use Rattle.finvar_text.specs.Grammar.{start, symbol, keyword, named, begins, word_front, takes_number, takes_text, whole};
ghost use Rattle.finvar_text.specs.Parsers.{state_of, Expects, Finishes};

use crate::number::NumberText;
use crate::syntax::{EntryText, ScriptText};
use alg_core::Memory;
use std::alloc::{AllocError, AllocFailed, Global};

/// Why the next byte was not taken.
#[derive(Clone, Copy, Debug, PartialEq, Eq)]
pub(crate) enum ScanError {
    Unexpected,
    Memory,
}

impl From<Memory> for ScanError {
    ghost from_gives = { λ _ e. e ≡ errors.Memory };

    fn from(_: Memory) -> ScanError {
        ScanError::Memory
    }
}

impl From<AllocError> for ScanError {
    ghost from_gives = { λ _ e. e ≡ errors.Memory };

    fn from(_: AllocError) -> ScanError {
        ScanError::Memory
    }
}

impl<T: Drop> From<AllocFailed<T>> for ScanError {
    ghost from_gives = { λ _ e. e ≡ errors.Memory };

    fn from(_: AllocFailed<T>) -> ScanError {
        ScanError::Memory
    }
}

/// What stands next up to the ring's `;`.
#[derive(Clone, Copy, Debug)]
pub(crate) enum OpeningPosition {
    Libs,
    LibText,
    LibEnd,
    RingName,
    RingEquals,
    Characteristic,
    CharacteristicEnd,
    Variables,
    Variable,
    VariableEnd,
    VariablesEnd,
    Order,
    RingEnd,
}

/// What stands next in a matrix after its name.
#[derive(Clone, Copy, Debug)]
pub(crate) enum MatrixPosition {
    Rows,
    RowsEnd,
    ColsStart,
    Cols,
    ColsEnd,
    Equals,
    Entry,
    Digits,
    EntryEnd,
}

/// What stands next in a call after its first name.
#[derive(Clone, Copy, Debug)]
pub(crate) enum CallPosition {
    Second,
    SecondEnd,
    Third,
    ThirdEnd,
    InvariantRing,
    Open,
    Argument,
    ArgumentEnd,
    CallEnd,
}

/// What stands next in a print; the last tells whether the word `print` was read.
#[derive(Clone, Copy, Debug)]
pub(crate) enum PrintPosition {
    Open,
    Name,
    Close,
    PrintEnd(bool),
}

/// What stands next.
#[derive(Clone, Copy, Debug)]
pub(crate) enum Position {
    Opening(OpeningPosition),
    Items,
    ItemText,
    ItemTextEnd,
    MatrixName,
    MatrixNamed,
    Matrix(MatrixPosition),
    Call(CallPosition),
    Print(PrintPosition),
}

/// The script that was read so far, and the parts of the item at hand.
#[derive(Debug, Drop)]
pub(crate) struct Parser<'a> {
    pub script: ScriptText<'a>,
    pub has_call: bool,
    pub name: &'a [u8],
    pub rows: NumberText<'a>,
    pub cols: NumberText<'a>,
    pub entries: Vec<EntryText<'a>>,
    pub second: &'a [u8],
    pub third: &'a [u8],
    pub arguments: Vec<&'a [u8]>,
    pub position: Position,
}

/// Whether the word has a meaning of its own in scripts.
fn is_reserved(word: &[u8]) -> bool
    ensures is { result ≡ is_reserved word.now }
{
    word == b"LIB".as_slice()
        || word == b"ring".as_slice()
        || word == b"matrix".as_slice()
        || word == b"print".as_slice()
        || word == b"invariant_ring".as_slice()
        || word == b"dp".as_slice()
}

/// Takes the byte where it is the one that is wanted.
pub(crate) fn expect_symbol(byte: u8, wanted: u8) -> Result<(), ScanError>
    ensures is { Expects result (symbol wanted byte) }
{
    if byte == wanted {
        return Ok(());
    }
    Err(ScanError::Unexpected)
}

/// Takes the word where it is the one that is wanted.
pub(crate) fn expect_word(word: &[u8], wanted: &[u8]) -> Result<(), ScanError>
    ensures is { Expects result (keyword wanted.now word.now) }
{
    if word == wanted {
        return Ok(());
    }
    Err(ScanError::Unexpected)
}

/// Takes the word where it is a name.
pub(crate) fn expect_name(word: &[u8]) -> Result<(), ScanError>
    ensures is { Expects result (named word.now) }
{
    if is_reserved(word) {
        return Err(ScanError::Unexpected);
    }
    Ok(())
}

/// Whether the keyword begins with the word.
fn begins(word: &[u8], keyword: &[u8]) -> bool
    ensures is { result ≡ begins word.now keyword.now }
{
    keyword.starts_with(word)
}

impl<'a> Parser<'a> {
    /// A parser before the first token.
    pub(crate) fn new(alloc: Global) -> Parser<'a>
        ensures is { state_of result ≡ start }
    {
        let none = b"".as_slice();
        let no_number = NumberText::of(none);
        Parser {
            script: ScriptText {
                libs: Vec::new(alloc),
                ring: none,
                characteristic: no_number,
                in_parentheses: false,
                variables: Vec::new(alloc),
                items: Vec::new(alloc),
            },
            has_call: false,
            name: none,
            rows: no_number,
            cols: no_number,
            entries: Vec::new(alloc),
            second: none,
            third: none,
            arguments: Vec::new(alloc),
            position: Position::Opening(OpeningPosition::Libs),
        }
    }

    /// Whether some word that may follow begins so.
    #[tactic(auto, unfolding(crate::specs::Grammar::word_front))]
    pub(crate) fn word_front(&self, word: &[u8]) -> bool
        ensures is { result ≡ word_front (state_of self.now) word.now }
    {
        match self.position {
            Position::Opening(OpeningPosition::Libs) => {
                begins(word, b"LIB") || begins(word, b"ring")
            }
            Position::Opening(OpeningPosition::Order) => begins(word, b"dp"),
            Position::Opening(
                OpeningPosition::RingName | OpeningPosition::Variables | OpeningPosition::Variable,
            ) => true,
            Position::Items | Position::MatrixName | Position::Print(PrintPosition::Name) => true,
            Position::Call(CallPosition::InvariantRing) => begins(word, b"invariant_ring"),
            Position::Call(CallPosition::Second | CallPosition::Third | CallPosition::Argument) =>
                true,
            _ => false,
        }
    }

    /// Whether a number may follow.
    #[tactic(auto, unfolding(crate::specs::Grammar::next_number, crate::specs::Grammar::opening_number, crate::specs::Grammar::body_number, crate::specs::Grammar::matrix_number))]
    pub(crate) fn takes_number(&self) -> bool
        ensures is { result ≡ takes_number (state_of self.now) }
    {
        matches!(
            self.position,
            Position::Opening(OpeningPosition::Characteristic)
                | Position::Matrix(
                    MatrixPosition::Rows
                        | MatrixPosition::Cols
                        | MatrixPosition::Entry
                        | MatrixPosition::Digits
                )
        )
    }

    /// Whether a string may follow.
    #[tactic(auto, unfolding(crate::specs::Grammar::next_text, crate::specs::Grammar::opening_text, crate::specs::Grammar::body_text))]
    pub(crate) fn takes_text(&self) -> bool
        ensures is { result ≡ takes_text (state_of self.now) }
    {
        matches!(
            self.position,
            Position::Opening(OpeningPosition::LibText) | Position::ItemText
        )
    }

    /// The script, where it may end here.
    pub(crate) fn finish(self) -> Result<ScriptText<'a>, ScanError>
        ensures is { Finishes result (whole (state_of self.entry)) }
    {
        match self.position {
            Position::Items => Ok(self.script),
            _ => Err(ScanError::Unexpected),
        }
    }
}
