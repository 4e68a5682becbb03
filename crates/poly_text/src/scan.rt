//! The syntax tree of a text, byte by byte.

ghost use Rattle.std.specs.Prelude.{◌≡◌, ◌<◌, ◌+◌, ℕ, length, slice_index, OnOk, IfOk, IfErr, Some, false, List, take, drop, ◌-◌};
ghost use Rattle.alg_core.specs.Names.{is_letter, is_reserved, is_name_byte};
ghost use Rattle.poly_text.specs.declared.scan.ScanError.TheVariants as errors;
ghost use Rattle.poly_text.specs.Syntax.{IsText};
ghost use Rattle.poly_text.specs.Faults.{IsSyntaxFault, fault_at};
ghost use Rattle.poly_text.specs.Trees.{terms_of, variable_of};
ghost use Rattle.poly_text.specs.Scanning.{Finishes, finish, state_of, with_factor, IsOrdered, Scans, Grows, grown, first_digit, step, term_start, factor_start, after_variable, after_factor, next_term, in_start, in_coefficient, in_name, in_index, in_exponent, closed, start};
ghost use Rattle.poly_text.specs.declared.scan.Stage.TheVariants as stages;

use crate::fault::TextFault;
use crate::syntax::{FactorText, Mark, TermText, VariableText};
use alg_core::Memory;
use std::alloc::{AllocError, AllocFailed, Global};
use std::mem;

/// Why the next byte was not taken.
#[derive(Clone, Copy, Debug, PartialEq, Eq)]
pub(crate) enum ScanError {
    Unexpected,
    Memory,
}

impl From<Memory> for ScanError {
    ghost from_gives = { λ _ e. e ≡ errors.Memory };

    fn from(_: Memory) -> ScanError {
        ScanError::Memory
    }
}

impl From<AllocError> for ScanError {
    ghost from_gives = { λ _ e. e ≡ errors.Memory };

    fn from(_: AllocError) -> ScanError {
        ScanError::Memory
    }
}

impl<T: Drop> From<AllocFailed<T>> for ScanError {
    ghost from_gives = { λ _ e. e ≡ errors.Memory };

    fn from(_: AllocFailed<T>) -> ScanError {
        ScanError::Memory
    }
}

/// What was read last, and so what may follow.
#[derive(Clone, Copy, Debug)]
pub(crate) enum Stage<'a> {
    Start,
    Zero,
    Signed,
    Coefficient,
    Starred,
    Name(usize),
    Sign(Mark),
    Index(Mark, u32),
    Raised(VariableText<'a>),
    Exponent(VariableText<'a>, u32),
}

/// The terms that were read whole, and the sign, coefficient and factors of the one at hand.
#[derive(Debug, Drop)]
pub(crate) struct Scanner<'a> {
    terms: Vec<TermText<'a>>,
    is_negative: bool,
    coefficient: u32,
    factors: Vec<FactorText<'a>>,
    stage: Stage<'a>,
}

/// The number with one more digit, where it has at most five.
fn grown(number: u32, byte: u8) -> Result<u32, ScanError>
    ensures is { Grows result (grown number byte) }
{
    if !byte.is_ascii_digit() || number > 9999 {
        return Err(ScanError::Unexpected);
    }
    Ok(10 * number + u32::from(byte - b'0'))
}

/// The value of a digit other than 0.
fn first_digit(byte: u8) -> Result<u32, ScanError>
    ensures is { Grows result (first_digit byte) }
{
    if byte < b'1' || byte > b'9' {
        return Err(ScanError::Unexpected);
    }
    Ok(u32::from(byte - b'0'))
}

/// Whether the byte may stand in a name.
fn is_name_byte(byte: u8) -> bool
    ensures is { result ≡ is_name_byte byte }
{
    byte.is_ascii_alphanumeric() || byte == b'_'
}

/// Whether the word has a meaning of its own in scripts.
fn is_reserved(word: &[u8]) -> bool
    ensures is { result ≡ is_reserved word.now }
{
    word == b"LIB".as_slice()
        || word == b"ring".as_slice()
        || word == b"matrix".as_slice()
        || word == b"print".as_slice()
        || word == b"invariant_ring".as_slice()
        || word == b"dp".as_slice()
}

impl<'a> Scanner<'a> {
    /// A scanner before the first byte.
    pub(crate) fn new(alloc: Global) -> Scanner<'a>
        ensures is { (text : List ℕ) → state_of text 0 result ≡ start }
        ensures ordered { IsOrdered 0 result }
    {
        Scanner {
            terms: Vec::new(alloc),
            is_negative: false,
            coefficient: 1,
            factors: Vec::new(alloc),
            stage: Stage::Start,
        }
    }

    /// Takes the first byte of a factor.
    #[tactic(auto, unfolding(crate::specs::Scanning::factor_start))]
    fn factor_start(&mut self, text: &[u8], place: usize) -> Result<(), ScanError>
        requires within { place < length text.now }
        ensures is { Scans result (state_of text.now (place + 1) self.new) (factor_start (state_of text.now place self.old)
            (slice_index text.now place)) }
        ensures ordered { OnOk result (IsOrdered (place + 1) self.new) }
    {
        let byte = text[place];
        self.stage = match byte {
            b'@' => Stage::Sign(Mark::Primary),
            b'$' => Stage::Sign(Mark::Irreducible),
            b'%' => Stage::Sign(Mark::Secondary),
            _ if byte.is_ascii_alphabetic() => Stage::Name(place),
            _ => return Err(ScanError::Unexpected),
        };
        Ok(())
    }

    /// Takes the first byte of a term after its sign.
    #[tactic(auto, unfolding(crate::specs::Scanning::term_start))]
    fn term_start(&mut self, text: &[u8], place: usize) -> Result<(), ScanError>
        requires within { place < length text.now }
        ensures is { Scans result (state_of text.now (place + 1) self.new) (term_start (state_of text.now place self.old)
            (slice_index text.now place)) }
        ensures ordered { OnOk result (IsOrdered (place + 1) self.new) }
    {
        let byte = text[place];
        if byte >= b'1' && byte <= b'9' {
            self.coefficient = u32::from(byte - b'0');
            self.stage = Stage::Coefficient;
            return Ok(());
        }
        self.factor_start(text, place)
    }

    /// Ends the term at hand.
    fn close(&mut self, alloc: Global, is_negative: bool) -> Result<(), Memory>
        ensures is { OnOk result ((text : List ℕ) (i j : ℕ) → closed (state_of text j self.old) is_negative ≡ state_of text i self.new) }
        ensures ordered { (i : ℕ) → OnOk result (IsOrdered i self.new) }
    {
        let factors = mem::replace(&mut self.factors, Vec::new(alloc));
        self.terms.push(TermText {
            is_negative: self.is_negative,
            coefficient: self.coefficient,
            factors,
        })?;
        self.is_negative = is_negative;
        self.coefficient = 1;
        self.stage = Stage::Signed;
        Ok(())
    }

    /// Takes the sign after a term.
    #[tactic(auto, unfolding(crate::specs::Scanning::next_term))]
    fn next_term(&mut self, alloc: Global, text: &[u8], place: usize) -> Result<(), ScanError>
        requires within { place < length text.now }
        ensures is { Scans result (state_of text.now (place + 1) self.new) (next_term (state_of text.now place self.old)
            (slice_index text.now place)) }
        ensures ordered { OnOk result (IsOrdered (place + 1) self.new) }
    {
        let byte = text[place];
        match byte {
            b'+' => self.close(alloc, false)?,
            b'-' => self.close(alloc, true)?,
            _ => return Err(ScanError::Unexpected),
        }
        Ok(())
    }

    /// Takes the byte after a factor that is whole.
    #[tactic(auto, unfolding(crate::specs::Scanning::after_factor))]
    fn after_factor(
        &mut self,
        alloc: Global,
        variable: VariableText<'a>,
        exponent: u32,
        text: &[u8],
        place: usize,
    ) -> Result<(), ScanError>
        requires within { place < length text.now }
        ensures is { Scans result (state_of text.now (place + 1) self.new) (after_factor (with_factor (state_of text.now place self.old)
            (variable_of variable.entry) exponent) (slice_index text.now place)) }
        ensures ordered { OnOk result (IsOrdered (place + 1) self.new) }
    {
        self.factors.push(FactorText { variable, exponent })?;
        if text[place] == b'*' {
            self.stage = Stage::Starred;
            return Ok(());
        }
        self.next_term(alloc, text, place)
    }

    /// Takes the byte after a variable.
    #[tactic(auto, unfolding(crate::specs::Scanning::after_variable))]
    fn after_variable(
        &mut self,
        alloc: Global,
        variable: VariableText<'a>,
        text: &[u8],
        place: usize,
    ) -> Result<(), ScanError>
        requires within { place < length text.now }
        ensures is { Scans result (state_of text.now (place + 1) self.new) (after_variable (state_of text.now place self.old)
            (variable_of variable.entry) (slice_index text.now place)) }
        ensures ordered { OnOk result (IsOrdered (place + 1) self.new) }
    {
        if text[place] == b'^' {
            self.stage = Stage::Raised(variable);
            return Ok(());
        }
        self.after_factor(alloc, variable, 1, text, place)
    }

    /// Takes the byte after the digits of a coefficient.
    #[tactic(auto, unfolding(crate::specs::Scanning::in_coefficient))]
    fn in_coefficient(&mut self, alloc: Global, text: &[u8], place: usize) -> Result<(), ScanError>
        requires within { place < length text.now }
        requires stage { self.old.stage ≡ stages.Coefficient }
        ensures is { Scans result (state_of text.now (place + 1) self.new) (in_coefficient (state_of text.now place self.old)
            (slice_index text.now place)) }
        ensures ordered { OnOk result (IsOrdered (place + 1) self.new) }
    {
        let byte = text[place];
        if byte.is_ascii_digit() {
            self.coefficient = grown(self.coefficient, byte)?;
            return Ok(());
        }
        if byte != b'*' {
            return self.next_term(alloc, text, place);
        }
        if self.coefficient == 1 {
            return Err(ScanError::Unexpected);
        }
        self.stage = Stage::Starred;
        Ok(())
    }

    /// Takes the byte after the first bytes of a name, which begins at `start`.
    #[tactic(auto, unfolding(crate::specs::Scanning::in_name))]
    fn in_name(
        &mut self,
        alloc: Global,
        start: usize,
        text: &'a [u8],
        place: usize,
    ) -> Result<(), ScanError>
        requires within { place < length text.now }
        requires begins { start < place }
        requires stage { self.old.stage ≡ stages.Name start }
        ensures is { Scans result (state_of text.now (place + 1) self.new) (in_name (take (place - start) (drop start text.now))
            (state_of text.now place self.old) (slice_index text.now place)) }
        ensures ordered { OnOk result (IsOrdered (place + 1) self.new) }
    {
        if is_name_byte(text[place]) {
            return Ok(());
        }
        let name = &text[start..place];
        if is_reserved(name) {
            return Err(ScanError::Unexpected);
        }
        self.after_variable(alloc, VariableText::Named(name), text, place)
    }

    /// Takes the byte after the digits of an index.
    #[tactic(auto, unfolding(crate::specs::Scanning::in_index))]
    fn in_index(
        &mut self,
        alloc: Global,
        mark: Mark,
        index: u32,
        text: &[u8],
        place: usize,
    ) -> Result<(), ScanError>
        requires within { place < length text.now }
        ensures is { Scans result (state_of text.now (place + 1) self.new) (in_index mark index (state_of text.now place self.old)
            (slice_index text.now place)) }
        ensures ordered { OnOk result (IsOrdered (place + 1) self.new) }
    {
        let byte = text[place];
        if byte.is_ascii_digit() {
            self.stage = Stage::Index(mark, grown(index, byte)?);
            return Ok(());
        }
        self.after_variable(alloc, VariableText::Marked { mark, index }, text, place)
    }

    /// Takes the byte after the digits of an exponent.
    #[tactic(auto, unfolding(crate::specs::Scanning::in_exponent))]
    fn in_exponent(
        &mut self,
        alloc: Global,
        variable: VariableText<'a>,
        exponent: u32,
        text: &[u8],
        place: usize,
    ) -> Result<(), ScanError>
        requires within { place < length text.now }
        ensures is { Scans result (state_of text.now (place + 1) self.new) (in_exponent (variable_of variable.entry) exponent
            (state_of text.now place self.old) (slice_index text.now place)) }
        ensures ordered { OnOk result (IsOrdered (place + 1) self.new) }
    {
        let byte = text[place];
        if byte.is_ascii_digit() {
            self.stage = Stage::Exponent(variable, grown(exponent, byte)?);
            return Ok(());
        }
        if exponent == 1 {
            return Err(ScanError::Unexpected);
        }
        self.after_factor(alloc, variable, exponent, text, place)
    }

    /// Takes the first byte of a text.
    #[tactic(auto, unfolding(crate::specs::Scanning::in_start))]
    fn in_start(&mut self, text: &[u8], place: usize) -> Result<(), ScanError>
        requires within { place < length text.now }
        ensures is { Scans result (state_of text.now (place + 1) self.new) (in_start (state_of text.now place self.old)
            (slice_index text.now place)) }
        ensures ordered { OnOk result (IsOrdered (place + 1) self.new) }
    {
        let byte = text[place];
        match byte {
            b'0' => self.stage = Stage::Zero,
            b'-' => {
                self.is_negative = true;
                self.stage = Stage::Signed;
            }
            _ => return self.term_start(text, place),
        }
        Ok(())
    }

    /// Takes the next byte.
    #[tactic(auto, unfolding(crate::specs::Scanning::step_in))]
    pub(crate) fn step(
        &mut self,
        alloc: Global,
        text: &'a [u8],
        place: usize,
    ) -> Result<(), ScanError>
        requires within { place < length text.now }
        requires ordered { IsOrdered place self.old }
        ensures is { Scans result (state_of text.now (place + 1) self.new) (step (state_of text.now place self.old)
            (slice_index text.now place)) }
        ensures ordered { OnOk result (IsOrdered (place + 1) self.new) }
    {
        match self.stage {
            Stage::Start => self.in_start(text, place),
            Stage::Zero => Err(ScanError::Unexpected),
            Stage::Signed => self.term_start(text, place),
            Stage::Coefficient => self.in_coefficient(alloc, text, place),
            Stage::Starred => self.factor_start(text, place),
            Stage::Name(start) => self.in_name(alloc, start, text, place),
            Stage::Sign(mark) => {
                self.stage = Stage::Index(mark, first_digit(text[place])?);
                Ok(())
            }
            Stage::Index(mark, index) => self.in_index(alloc, mark, index, text, place),
            Stage::Raised(variable) => {
                self.stage = Stage::Exponent(variable, first_digit(text[place])?);
                Ok(())
            }
            Stage::Exponent(variable, exponent) => {
                self.in_exponent(alloc, variable, exponent, text, place)
            }
        }
    }

    /// The tree, where the text may end here.
    pub(crate) fn finish(
        mut self,
        alloc: Global,
        text: &'a [u8],
    ) -> Result<Vec<TermText<'a>>, ScanError>
        requires ordered { IsOrdered (length text.now) self }
        ensures is { Finishes result (finish (state_of text.now (length text.now) self.entry)) }
    {
        match self.stage {
            Stage::Zero => Ok(self.terms),
            Stage::Coefficient => {
                self.close(alloc, false)?;
                Ok(self.terms)
            }
            Stage::Name(start) => {
                let name = &text[start..text.len()];
                if is_reserved(name) {
                    return Err(ScanError::Unexpected);
                }
                Ok(self.finish_factor(alloc, VariableText::Named(name), 1)?)
            }
            Stage::Index(mark, index) => {
                Ok(self.finish_factor(alloc, VariableText::Marked { mark, index }, 1)?)
            }
            Stage::Exponent(variable, exponent) if exponent != 1 => {
                Ok(self.finish_factor(alloc, variable, exponent)?)
            }
            _ => Err(ScanError::Unexpected),
        }
    }

    /// The tree, with one factor more.
    fn finish_factor(
        mut self,
        alloc: Global,
        variable: VariableText<'a>,
        exponent: u32,
    ) -> Result<Vec<TermText<'a>>, Memory>
        ensures is { IfOk result (λ ts. (text : List ℕ) (i : ℕ)
            → (closed (with_factor (state_of text i self.entry) (variable_of variable.entry) exponent) false).terms ≡ terms_of ts.items) }
    {
        self.factors.push(FactorText { variable, exponent })?;
        self.close(alloc, false)?;
        Ok(self.terms)
    }
}

/// The syntax tree of a text, or its first fault.
pub(crate) fn syntax_tree(alloc: Global, text: &[u8]) -> Result<Vec<TermText<'_>>, TextFault>
    ensures tree { IfOk result (λ ts. IsText (terms_of ts.items) text.now) }
    ensures fault { IfErr result (IsSyntaxFault text.now) }
{
    let mut scanner = Scanner::new(alloc);
    for place in 0..text.len() {
        match scanner.step(alloc, text, place) {
            Ok(()) => {}
            Err(error) => return Err(fault_at(error, place)),
        }
    }
    match scanner.finish(alloc, text) {
        Ok(terms) => Ok(terms),
        Err(error) => Err(fault_at(error, text.len())),
    }
}

/// The fault of a text whose byte at this place, or whose end, was not taken.
fn fault_at(error: ScanError, place: usize) -> TextFault
    ensures is { result ≡ fault_at error place }
{
    match error {
        ScanError::Unexpected => TextFault::Syntax {
            place: place as u64,
        },
        ScanError::Memory => TextFault::Memory,
    }
}
