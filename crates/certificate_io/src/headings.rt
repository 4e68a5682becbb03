//! The values of the first lines: the field, the variables and the generators.

ghost use Rattle.std.specs.Prelude.{◌≡◌, ◌≢◌, ◌<◌, ◌≤◌, ◌+◌, ◌^◌, ℕ, List, All, length, map, IfOk, IsTrue, Some, None, if◌then◌else◌};
ghost use Rattle.std.specs.Option.{option_map};
ghost use Rattle.alg_core.specs.declared.value_kind.ValueKind.TheVariants as kinds;
ghost use Rattle.prime_field.specs.ListedPrimes.{is_listed};
ghost use Rattle.prime_field.specs.PrimeFields.{IsPrimeField};
ghost use Rattle.certificate_io.specs.Lines.{IsNumber, joined};
ghost use Rattle.certificate_io.specs.Parts.{IsSomeOf};
ghost use Rattle.alg_core.specs.Names.{is_name};
ghost use Rattle.certificate_io.specs.Certificates.{matrix_of};
ghost use Rattle.certificate_io.specs.Conditions.{IsSquare};
ghost use Rattle.certificate_io.specs.Readings.{Answers, AreReadBy, on_line, run_fault, tails, class_of, classes_in, matrix_kind, matrix_text, matrix_cells};
ghost use Rattle.certificate_io.specs.Syntax.{IsCell};
ghost use Rattle.certificate_io.specs.Values.{checked, is_among, is_printed_cell, names_fault, nothing_seen};

use crate::fault::CertFault;
use crate::line_text::{LineText, MAX_CHARACTERISTIC, MAX_COUNT};
use crate::polynomials::tail_at;
use crate::words::{Cell, cell_of, number, split};
use alg_core::{Field, Memory, Name, ValueKind};
use lin_algebra::Matrix;
use prime_field::PrimeField;
use std::alloc::Global;

/// The greatest number of variables.
const MAX_VARIABLES: usize = 8;

/// The number of this text.
pub(crate) fn number_of(text: &[u8]) -> u64
    ensures is { (n : ℕ) → IsNumber 999999999999999999 n text.now → result ≡ n }
{
    match number(text, MAX_COUNT) {
        Some(number) => number,
        None => 0,
    }
}

/// The characteristic of this text.
pub(crate) fn characteristic_of(text: &[u8]) -> u32
    ensures is { (n : ℕ) → IsNumber 99999 n text.now → result ≡ n }
{
    match number(text, MAX_CHARACTERISTIC) {
        Some(number) => number as u32,
        None => 0,
    }
}

/// The field of this characteristic.
pub(crate) fn field_of(p: u32) -> Result<PrimeField, CertFault>
    ensures is { Answers result (on_line 2 (checked kinds.Field (is_listed p))) (λ f. IsPrimeField p (⟦<PrimeField as Field>⟧.field f)) }
    ensures narrow { IfOk result (λ _. p < 2 ^ 16) }
{
    match PrimeField::new(p) {
        Ok(field) => Ok(field),
        Err(_) => Err(CertFault::Value {
            line: 2,
            kind: ValueKind::Field,
        }),
    }
}

/// The names of this text.
pub(crate) fn names_of(alloc: Global, text: &[u8]) -> Result<Vec<Name>, Memory>
    requires names { (ws : List (List ℕ)) × IsSomeOf (λ w. IsTrue (is_name w)) ws × (joined ws ≡ text.now) }
    ensures is { (ws : List (List ℕ)) → IsSomeOf (λ w. IsTrue (is_name w)) ws → joined ws ≡ text.now → IfOk result (λ ns. ns.items ≡ ws) }
{
    let mut names = Vec::new(alloc);
    let mut rest = Some(text);
    while let Some(words) = rest {
        let (word, others) = split(words, b' ');
        let name = Name::new(alloc, word)?;
        names.push(name)?;
        rest = others;
    }
    Ok(names)
}

/// Whether one of the first names is this one.
fn is_among(name: &Name, names: &[Name]) -> bool
    ensures is { result ≡ is_among name.now names.now }
{
    for i in 0..names.len() {
        if *name == names[i] {
            return true;
        }
    }
    false
}

/// The fault of the line of the variables, the third one.
pub(crate) fn names_fault(names: &[Name]) -> Result<(), CertFault>
    ensures is { Answers result (on_line 3 (names_fault nothing_seen names.now)) (λ _. Unit {0}) }
    ensures few { IfOk result (λ _. length names.now ≤ 8) }
{
    if names.len() > MAX_VARIABLES {
        return Err(CertFault::Value {
            line: 3,
            kind: ValueKind::Variables,
        });
    }
    for i in 0..names.len() {
        if is_among(&names[i], &names[i + 1..]) {
            return Err(CertFault::Value {
                line: 3,
                kind: ValueKind::Twice,
            });
        }
    }
    Ok(())
}

/// The class modulo p that an entry prints, where it prints one.
fn class(p: u32, cell: &Cell) -> Option<u16>
    requires narrow { p < 2 ^ 16 }
    requires cell { IsCell cell.now }
    ensures is { result ≡ (if is_printed_cell p cell.now then Some (class_of p cell.now) else None) }
{
    if !is_printed_cell(p, cell) {
        return None;
    }
    let size = cell.size as u32;
    if cell.is_negative {
        return Some((p - size) as u16);
    }
    Some(size as u16)
}

/// Whether the entry is printed as a class modulo p is.
fn is_printed_cell(p: u32, cell: &Cell) -> bool
    requires cell { IsCell cell.now }
    ensures is { result ≡ is_printed_cell p cell.now }
{
    if p == 2 {
        return !cell.is_negative && cell.size <= 1;
    }
    2 * cell.size < u64::from(p)
}

/// The number of the words of this text.
fn word_count(text: &[u8]) -> usize
    ensures is { (ws : List (List ℕ)) → IsSomeOf (All (λ b. b ≢ 32)) ws → joined ws ≡ text.now → result ≡ length ws }
{
    let mut count = 0;
    let mut rest = Some(text);
    while let Some(words) = rest {
        let (_, others) = split(words, b' ');
        count += 1;
        rest = others;
    }
    count
}

/// The classes of the entries of this text, where each prints one.
fn classes_of(alloc: Global, p: u32, text: &[u8]) -> Result<Option<Vec<u16>>, Memory>
    requires narrow { p < 2 ^ 16 }
    ensures is { (cs : List Cell) → IsSomeOf IsCell cs → matrix_text cs ≡ text.now
        → IfOk result (λ o. option_map (λ v. v.items) o ≡ classes_in p cs) }
{
    let mut classes = Vec::new(alloc);
    let mut rest = Some(text);
    while let Some(words) = rest {
        let (word, others) = split(words, b' ');
        let Some(read) = cell_of(word) else {
            return Ok(None);
        };
        let Some(value) = class(p, &read) else {
            return Ok(None);
        };
        classes.push(value)?;
        rest = others;
    }
    Ok(Some(classes))
}

/// The matrix of a line, with n rows and columns.
fn matrix(alloc: Global, p: u32, n: usize, line: u64, text: &[u8]) -> Result<Matrix<u16>, CertFault>
    requires narrow { p < 2 ^ 16 }
    requires small { n ≤ 8 }
    ensures is { (cs : List Cell) → IsSomeOf IsCell cs → matrix_text cs ≡ text.now
        → Answers result (on_line line (matrix_kind p n cs)) (λ m. IsSquare p n (matrix_of m) × (matrix_cells p (matrix_of m) ≡ cs)) }
{
    if word_count(text) != n * n {
        let kind = ValueKind::Size;
        return Err(CertFault::Value { line, kind });
    }
    let Some(cells) = classes_of(alloc, p, text)? else {
        let kind = ValueKind::Coefficient;
        return Err(CertFault::Value { line, kind });
    };
    Ok(Matrix {
        rows: n as u64,
        cols: n as u64,
        cells,
    })
}

/// The generators, n by n, of which the first stands on the line of this number.
pub(crate) fn matrices_of(
    alloc: Global,
    p: u32,
    n: usize,
    first: u64,
    lines: &[LineText],
) -> Result<Vec<Matrix<u16>>, CertFault>
    requires narrow { p < 2 ^ 16 }
    requires small { n ≤ 8 }
    requires room { first + length lines.now < 2 ^ 64 }
    ensures is { (xs : List (List Cell)) → All (IsSomeOf IsCell) xs → tails lines.now ≡ map matrix_text xs
        → Answers result (run_fault (λ _ cs. matrix_kind p n cs) first 0 xs)
        (λ v. AreReadBy (λ m. IsSquare p n (matrix_of m)) (λ m. matrix_cells p (matrix_of m)) (λ x. x) xs v.items) }
{
    let mut matrices = Vec::new(alloc);
    for i in 0..lines.len() {
        let line = first + i as u64;
        let text = tail_at(lines, i);
        let matrix = matrix(alloc, p, n, line, text)?;
        matrices.push(matrix)?;
    }
    Ok(matrices)
}
