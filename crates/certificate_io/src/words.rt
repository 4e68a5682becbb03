//! The words of a line: names, numbers, entries of matrices.

ghost use Rattle.std.specs.Prelude.{◌≡◌, ◌↔◌, ◌≤◌, ◌<◌, ℕ, IfSome, IsTrue, true, length};
ghost use Rattle.std.specs.Int.{IsInRange};
ghost use Rattle.alg_core.specs.Names.{is_letter, is_name_byte, is_reserved, is_name};
ghost use Rattle.certificate_io.specs.Lines.{bytes_at, IsSplit, IsFound, IsNumber, IsCellText, AreWords};

/// The greatest absolute value of an entry of a matrix.
const MAX_ENTRY: u64 = 99999;

/// An entry of a matrix: its sign and its absolute value.
#[derive(Clone, Copy, Debug)]
pub(crate) struct Cell {
    pub is_negative: bool,
    pub size: u64,
}

/// The text up to the first of the bytes `stop`, and what follows that byte; the whole text where there is none.
pub(crate) fn split(text: &[u8], stop: u8) -> (&[u8], Option<&[u8]>)
    ensures is { IsSplit stop text.now result.0.now (bytes_at result.1) }
    ensures shorter { IfSome (bytes_at result.1) (λ rest. length rest < length text.now) }
{
    for i in 0..text.len() {
        if text[i] == stop {
            return (&text[..i], Some(&text[i + 1..]));
        }
    }
    (text, None)
}

/// Whether the byte is a letter.
fn is_letter(byte: u8) -> bool
    ensures is { result ≡ is_letter byte }
{
    byte.is_ascii_alphabetic()
}

/// Whether the byte is a digit.
fn is_digit(byte: u8) -> bool
    ensures is { (result ≡ true) ↔ IsInRange 48 57 byte }
{
    byte >= b'0' && byte <= b'9'
}

/// Whether the byte may stand in a name.
fn is_name_byte(byte: u8) -> bool
    ensures is { result ≡ is_name_byte byte }
{
    byte.is_ascii_alphanumeric() || byte == b'_'
}

/// Whether the word has a meaning of its own in scripts.
fn is_reserved(word: &[u8]) -> bool
    ensures is { result ≡ is_reserved word.now }
{
    word == b"LIB".as_slice()
        || word == b"ring".as_slice()
        || word == b"matrix".as_slice()
        || word == b"print".as_slice()
        || word == b"invariant_ring".as_slice()
        || word == b"dp".as_slice()
}

/// Whether the word is a name.
pub(crate) fn is_name(word: &[u8]) -> bool
    ensures is { result ≡ is_name word.now }
{
    if word.is_empty() {
        return false;
    }
    if !is_letter(word[0]) {
        return false;
    }
    for i in 0..word.len() {
        if !is_name_byte(word[i]) {
            return false;
        }
    }
    !is_reserved(word)
}

/// The number up to this limit that the text is: it is not 0 and begins with no 0.
pub(crate) fn number(text: &[u8], limit: u64) -> Option<u64>
    requires limit { limit ≤ 999999999999999999 }
    ensures is { IsFound (λ n. IsNumber limit n text.now) result }
{
    if text.is_empty() {
        return None;
    }
    if text[0] == b'0' {
        return None;
    }
    let mut number = 0;
    for i in 0..text.len() {
        let byte = text[i];
        if !is_digit(byte) {
            return None;
        }
        number = 10 * number + u64::from(byte - b'0');
        if number > limit {
            return None;
        }
    }
    Some(number)
}

/// Whether the text is such a number.
pub(crate) fn is_number(text: &[u8], limit: u64) -> bool
    requires limit { limit ≤ 999999999999999999 }
    ensures is { (result ≡ true) ↔ ((n : ℕ) × IsNumber limit n text.now) }
{
    number(text, limit).is_some()
}

/// The entry with this sign whose absolute value is told by the digits, where there is one.
fn signed_cell(is_negative: bool, digits: &[u8]) -> Option<Cell>
    ensures is { IsFound (λ c. (c.is_negative ≡ is_negative) × IsNumber 99999 c.size digits.now) result }
{
    let size = number(digits, MAX_ENTRY)?;
    Some(Cell { is_negative, size })
}

/// The entry of a matrix that the text is.
pub(crate) fn cell_of(text: &[u8]) -> Option<Cell>
    ensures is { IsFound (λ c. IsCellText c text.now) result }
{
    if text.is_empty() {
        return None;
    }
    if text == b"0".as_slice() {
        return Some(Cell {
            is_negative: false,
            size: 0,
        });
    }
    if text[0] == b'-' {
        return signed_cell(true, &text[1..]);
    }
    signed_cell(false, text)
}

/// Whether the text is an entry of a matrix.
fn is_cell(text: &[u8]) -> bool
    ensures is { (result ≡ true) ↔ ((c : Cell) × IsCellText c text.now) }
{
    cell_of(text).is_some()
}

/// Whether the text is names with a space between them.
pub(crate) fn are_names(text: &[u8]) -> bool
    ensures is { (result ≡ true) ↔ AreWords (λ w. IsTrue (is_name w)) text.now }
{
    let mut rest = Some(text);
    while let Some(words) = rest {
        let (word, others) = split(words, b' ');
        if !is_name(word) {
            return false;
        }
        rest = others;
    }
    true
}

/// Whether the text is entries of matrices with a space between them.
pub(crate) fn are_cells(text: &[u8]) -> bool
    ensures is { (result ≡ true) ↔ AreWords (λ w. (c : Cell) × IsCellText c w) text.now }
{
    let mut rest = Some(text);
    while let Some(words) = rest {
        let (word, others) = split(words, b' ');
        if !is_cell(word) {
            return false;
        }
        rest = others;
    }
    true
}
