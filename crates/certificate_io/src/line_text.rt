//! The lines of a text by their kinds, with what follows the first word.

ghost use Rattle.std.specs.Prelude.{◌≡◌, ◌↔◌, IfOk, IsTrue, true};
ghost use Rattle.alg_core.specs.Names.{is_name};
ghost use Rattle.std.specs.List.{Contains};
ghost use Rattle.poly_text.specs.Syntax.{HasPolynomialText, HasMonomialText};
ghost use Rattle.certificate_io.specs.Lines.{bytes_at, named, is_kernel, kind_in, HasWords, HasTail, IsRaisedText, IsPairText, IsToldLine, tail_bytes};
ghost use Rattle.certificate_io.specs.Syntax.{successors};

use crate::line_kind::LineKind;
use crate::words::{are_cells, are_names, is_name, is_number, split};
use alg_core::Memory;
use poly_text::{is_monomial_text, is_polynomial_text};
use std::alloc::Global;

/// The greatest number on the line of the field.
pub(crate) const MAX_CHARACTERISTIC: u64 = 99999;

/// The greatest order and rank.
pub(crate) const MAX_COUNT: u64 = 999_999_999_999_999_999;

/// The greatest exponent on the line of a power, by its digits.
pub(crate) const MAX_EXPONENT: u64 = 9999;

/// A line: its kind, and what follows the first word and its space; nothing where nothing does.
#[derive(Clone, Copy, Debug)]
pub(crate) struct LineText<'a> {
    pub kind: LineKind,
    pub tail: &'a [u8],
}

/// The kind of the lines with this first word; of both kinds of evidence it is `Reynolds`.
fn named(word: &[u8]) -> Option<LineKind>
    ensures is { result ≡ named word.now }
{
    if word == b"primary".as_slice() {
        Some(LineKind::Primary)
    } else if word == b"lift".as_slice() {
        Some(LineKind::Lift)
    } else if word == b"secondary".as_slice() {
        Some(LineKind::Secondary)
    } else if word == b"image".as_slice() {
        Some(LineKind::Image)
    } else if word == b"moved".as_slice() {
        Some(LineKind::Moved)
    } else if word == b"fixed".as_slice() {
        Some(LineKind::Fixed)
    } else if word == b"irreducible".as_slice() {
        Some(LineKind::Irreducible)
    } else if word == b"word".as_slice() {
        Some(LineKind::Word)
    } else if word == b"matrix".as_slice() {
        Some(LineKind::Matrix)
    } else if word == b"power".as_slice() {
        Some(LineKind::Power)
    } else if word == b"invring".as_slice() {
        Some(LineKind::Version)
    } else if word == b"field".as_slice() {
        Some(LineKind::Field)
    } else if word == b"vars".as_slice() {
        Some(LineKind::Names)
    } else if word == b"order".as_slice() {
        Some(LineKind::Order)
    } else if word == b"rank".as_slice() {
        Some(LineKind::Rank)
    } else if word == b"evidence".as_slice() {
        Some(LineKind::Reynolds)
    } else if word == b"end".as_slice() {
        Some(LineKind::End)
    } else {
        None
    }
}

/// Whether what follows the first word is the word `kernel`.
fn is_kernel(rest: Option<&[u8]>) -> bool
    ensures is { result ≡ is_kernel (bytes_at rest.entry) }
{
    match rest {
        Some(word) => word == b"kernel".as_slice(),
        None => false,
    }
}

/// The kind of the line with this first word, and with this after it.
fn kind_of(word: &[u8], rest: Option<&[u8]>) -> Option<LineKind>
    ensures is { result ≡ kind_in word.now (bytes_at rest.entry) }
{
    if word == b"evidence".as_slice() && is_kernel(rest) {
        return Some(LineKind::Kernel);
    }
    named(word)
}

/// Whether the text is an exponent and a polynomial, with a space between them.
fn is_raised(alloc: Global, text: &[u8]) -> Result<bool, Memory>
    ensures is { IfOk result (λ b. (b ≡ true) ↔ IsRaisedText text.now) }
{
    let (exponent, rest) = split(text, b' ');
    let Some(form) = rest else {
        return Ok(false);
    };
    if !is_number(exponent, MAX_EXPONENT) {
        return Ok(false);
    }
    Ok(is_polynomial_text(alloc, form)?)
}

/// Whether the text is a name, an exponent and a polynomial, with a space between them.
fn is_power(alloc: Global, text: &[u8]) -> Result<bool, Memory>
    ensures is { IfOk result (λ b. (b ≡ true) ↔ IsPairText (λ w. IsTrue (is_name w)) IsRaisedText text.now) }
{
    let (name, rest) = split(text, b' ');
    let Some(raised) = rest else {
        return Ok(false);
    };
    if !is_name(name) {
        return Ok(false);
    }
    Ok(is_raised(alloc, raised)?)
}

/// Whether the text is a monomial and a combination, with a space between them.
fn is_image(alloc: Global, text: &[u8]) -> Result<bool, Memory>
    ensures is { IfOk result (λ b. (b ≡ true) ↔ IsPairText HasMonomialText HasPolynomialText text.now) }
{
    let (monomial, rest) = split(text, b' ');
    let Some(combination) = rest else {
        return Ok(false);
    };
    if !is_monomial_text(alloc, monomial)? {
        return Ok(false);
    }
    Ok(is_polynomial_text(alloc, combination)?)
}

/// Whether the text is a polynomial and a combination, with a space between them.
fn is_fixed(alloc: Global, text: &[u8]) -> Result<bool, Memory>
    ensures is { IfOk result (λ b. (b ≡ true) ↔ IsPairText HasPolynomialText HasPolynomialText text.now) }
{
    let (polynomial, rest) = split(text, b' ');
    let Some(combination) = rest else {
        return Ok(false);
    };
    if !is_polynomial_text(alloc, polynomial)? {
        return Ok(false);
    }
    Ok(is_polynomial_text(alloc, combination)?)
}

/// Whether the text may follow the first word of a line of this kind and its space.
fn has_words(alloc: Global, kind: LineKind, text: &[u8]) -> Result<bool, Memory>
    ensures is { IfOk result (λ b. (b ≡ true) ↔ HasWords kind text.now) }
{
    match kind {
        LineKind::Version => Ok(text == b"certificate 1".as_slice()),
        LineKind::Field => Ok(is_number(text, MAX_CHARACTERISTIC)),
        LineKind::Names => Ok(are_names(text)),
        LineKind::Matrix => Ok(are_cells(text)),
        LineKind::Order => Ok(is_number(text, MAX_COUNT)),
        LineKind::Rank => Ok(is_number(text, MAX_COUNT)),
        LineKind::Power => Ok(is_power(alloc, text)?),
        LineKind::Reynolds => Ok(text == b"reynolds".as_slice()),
        LineKind::Kernel => Ok(text == b"kernel".as_slice()),
        LineKind::Image => Ok(is_image(alloc, text)?),
        LineKind::Fixed => Ok(is_fixed(alloc, text)?),
        LineKind::End => Ok(false),
        LineKind::Primary => Ok(is_polynomial_text(alloc, text)?),
        LineKind::Lift => Ok(is_polynomial_text(alloc, text)?),
        LineKind::Secondary => Ok(is_polynomial_text(alloc, text)?),
        LineKind::Moved => Ok(is_polynomial_text(alloc, text)?),
        LineKind::Irreducible => Ok(is_polynomial_text(alloc, text)?),
        LineKind::Word => Ok(is_polynomial_text(alloc, text)?),
    }
}

/// Whether this may follow the first word of a line of this kind.
fn has_tail(alloc: Global, kind: LineKind, rest: Option<&[u8]>) -> Result<bool, Memory>
    ensures is { IfOk result (λ b. (b ≡ true) ↔ HasTail kind (bytes_at rest.entry)) }
{
    match rest {
        Some(words) => Ok(has_words(alloc, kind, words)?),
        None => Ok(kind == LineKind::End),
    }
}

/// The kinds of the lines that may stand after one of this kind; None is the beginning of a text.
fn successors(before: Option<LineKind>) -> &'static [LineKind]
    ensures is { result.now ≡ successors before }
{
    use LineKind::*;
    let Some(kind) = before else {
        return &[Version];
    };
    match kind {
        Version => &[Field],
        Field => &[Names],
        Names => &[Matrix],
        Matrix => &[Matrix, Order],
        Order => &[Primary],
        Primary => &[Primary, Lift],
        Lift => &[Lift, Power],
        Power => &[Power, Rank],
        Rank => &[Secondary],
        Secondary => &[Secondary, Reynolds, Kernel],
        Reynolds => &[Image],
        Kernel => &[Moved, Fixed],
        Image => &[Image, Irreducible, Word],
        Moved | Fixed => &[Moved, Fixed, Irreducible, Word],
        Irreducible => &[Irreducible, Word],
        Word => &[Word, End],
        End => &[],
    }
}

/// Whether a line of this kind may stand after one of the kind `before`.
fn may_follow(before: Option<LineKind>, kind: LineKind) -> bool
    ensures is { (result ≡ true) ↔ Contains (successors before) kind }
{
    successors(before).contains(&kind)
}

/// What follows the first word, nothing where nothing does.
fn tail_bytes<'a>(rest: Option<&'a [u8]>) -> &'a [u8]
    ensures is { result.now ≡ tail_bytes (bytes_at rest.entry) }
{
    match rest {
        Some(words) => words,
        None => b"".as_slice(),
    }
}

/// The line of this text, if it is one that may stand after one of the kind `before`.
pub(crate) fn line_of<'a>(
    alloc: Global,
    before: Option<LineKind>,
    text: &'a [u8],
) -> Result<Option<LineText<'a>>, Memory>
    ensures is { IfOk result (IsToldLine before text.now) }
{
    let (word, rest) = split(text, b' ');
    let Some(kind) = kind_of(word, rest) else {
        return Ok(None);
    };
    if !may_follow(before, kind) {
        return Ok(None);
    }
    if !has_tail(alloc, kind, rest)? {
        return Ok(None);
    }
    Ok(Some(LineText {
        kind,
        tail: tail_bytes(rest),
    }))
}
