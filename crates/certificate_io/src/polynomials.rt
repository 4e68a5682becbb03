//! The values of lines with polynomials and combinations.

ghost use Rattle.std.specs.Prelude.{◌≡◌, ◌+◌, ◌^◌, ◌<◌, ℕ, List, [], ◌∷◌, Option, Some, All, IfSome, length, map, get_or};
ghost use Rattle.std.specs.Option.{option_map};
ghost use Rattle.alg_core.specs.Spaces.{over, IsPlace};
ghost use Rattle.poly_text.specs.Syntax.{Factor, Term as TermTree, IsText, IsMonomialText, HasMonomialText, monomial_term, spelling};
ghost use Rattle.poly_text.specs.Texts.{factors_from, variable_at};
ghost use Rattle.poly_text.specs.Values.{IsReadable};
ghost use Rattle.certificate_io.specs.Lines.{bytes_at, IsNumber};
ghost use Rattle.certificate_io.specs.Values.{is_name_at};
ghost use Rattle.certificate_io.specs.Syntax.{IsPolynomial};
ghost use Rattle.certificate_io.specs.Conditions.{IsPolynomialIn, IsCombinationIn};
ghost use Rattle.certificate_io.specs.Parts.{PowerTree, ImageTree, MemberTree, IsPowerTree, IsImageTree, IsMemberTree};
ghost use Rattle.certificate_io.specs.Readings.{CanCombine, fault_on, Answers, on_line, run_fault, AreReadBy, tails, power_text, image_text, member_text, text_after, poly_tree, comb_tree, poly_kind, comb_kind, CanRead};
ghost use Rattle.certificate_io.specs.LineReadings.{power_kind, image_kind, member_kind, comb_kind_of, IsPowerIn, IsImageIn, IsMemberIn, power_parts, power_said, image_tree, member_tree};

use crate::evidence::{Image, Line};
use crate::fault::CertFault;
use crate::line_text::{LineText, MAX_EXPONENT};
use crate::words::{number, split};
use alg_core::{Field, Mono, Space, TermOrder, ValueKind};
use finite_certificate::Power;
use poly_module::{Comb, Poly};
use poly_text::{Names, TextFault, read_comb, read_monomial, read_poly};
use prime_field::PrimeField;
use std::alloc::Global;

/// The fault of the line whose polynomial, combination or monomial has this one.
fn at_line(line: u64, fault: TextFault) -> CertFault
    ensures is { result ≡ fault_on line fault }
{
    match fault {
        TextFault::Syntax { .. } => CertFault::Syntax { line },
        TextFault::Value { kind, .. } => CertFault::Value { line, kind },
        TextFault::Memory => CertFault::Memory,
    }
}

/// What follows the first word of the line at this place.
pub(crate) fn tail_at<'a>(lines: &[LineText<'a>], i: usize) -> &'a [u8]
    requires inside { i < length lines.now }
    ensures is { result.now ≡ get_or (tails lines.now) i [] }
{
    lines[i].tail
}

/// The polynomial of a line.
fn polynomial<O: TermOrder>(
    alloc: Global,
    space: &Space<PrimeField, O>,
    names: &Names,
    line: u64,
    text: &[u8],
) -> Result<Poly<u16>, CertFault>
    requires ready { CanRead (over (⟦<PrimeField as Field>⟧.field) O.order space.now) names.now }
    ensures is { let S = over (⟦<PrimeField as Field>⟧.field) O.order space.now in (ts : List TermTree) → IsText ts text.now
        → Answers result (on_line line (poly_kind S names.now ts)) (λ f. IsPolynomialIn S names.now f × (poly_tree S names.now f ≡ ts)) }
{
    let polynomial = match read_poly(alloc, space, names, text) {
        Ok(polynomial) => polynomial,
        Err(fault) => return Err(at_line(line, fault)),
    };
    Ok(polynomial)
}

/// The combination of a line.
fn combination<O: TermOrder>(
    alloc: Global,
    space: &Space<PrimeField, O>,
    line: u64,
    text: &[u8],
) -> Result<Comb<u16>, CertFault>
    requires positions { CanCombine (over (⟦<PrimeField as Field>⟧.field) O.order space.now) }
    ensures is { let S = over (⟦<PrimeField as Field>⟧.field) O.order space.now in (ts : List TermTree) → IsText ts text.now
        → Answers result (on_line line (comb_kind S ts)) (λ c. IsCombinationIn S c.vector × (comb_tree S c ≡ ts)) }
{
    let combination = match read_comb(alloc, space, text) {
        Ok(combination) => combination,
        Err(fault) => return Err(at_line(line, fault)),
    };
    Ok(combination)
}

/// The polynomials of lines, the first of which has this number.
pub(crate) fn polynomials_of<O: TermOrder>(
    alloc: Global,
    space: &Space<PrimeField, O>,
    names: &Names,
    first: u64,
    lines: &[LineText],
) -> Result<Vec<Poly<u16>>, CertFault>
    requires ready { CanRead (over (⟦<PrimeField as Field>⟧.field) O.order space.now) names.now }
    requires room { first + length lines.now < 2 ^ 64 }
    ensures is { let S = over (⟦<PrimeField as Field>⟧.field) O.order space.now in (xs : List (List TermTree)) → All IsPolynomial xs
        → tails lines.now ≡ map spelling xs
        → Answers result (run_fault (λ _ ts. poly_kind S names.now ts) first 0 xs)
        (λ v. AreReadBy (IsPolynomialIn S names.now) (poly_tree S names.now) (λ x. x) xs v.items) }
{
    let mut polynomials = Vec::new(alloc);
    for i in 0..lines.len() {
        let line = first + i as u64;
        let text = tail_at(lines, i);
        let polynomial = polynomial(alloc, space, names, line, text)?;
        polynomials.push(polynomial)?;
    }
    Ok(polynomials)
}

/// What follows the first part of a text, where something does.
fn second_part(others: Option<&[u8]>) -> &[u8]
    ensures is { (w : List ℕ) → bytes_at others.entry ≡ Some w → w ≡ result.now }
{
    match others {
        Some(text) => text,
        None => b"".as_slice(),
    }
}

/// Whether the name is that at this place.
fn is_name_at(names: &Names, i: usize, name: &[u8]) -> bool
    ensures is { result ≡ is_name_at names.now.vars i name.now }
{
    let vars = names.vars.as_slice();
    i < vars.len() && name == vars[i].bytes()
}

/// The exponent that the digits write.
fn exponent_of(digits: &[u8]) -> u32
    ensures is { (n : ℕ) → IsNumber 9999 n digits.now → result ≡ n }
{
    match number(digits, MAX_EXPONENT) {
        Some(exponent) => exponent as u32,
        None => 0,
    }
}

/// The power of the variable at the place i.
fn power<O: TermOrder>(
    alloc: Global,
    space: &Space<PrimeField, O>,
    names: &Names,
    i: usize,
    line: u64,
    text: &[u8],
) -> Result<Power<u16>, CertFault>
    requires ready { CanRead (over (⟦<PrimeField as Field>⟧.field) O.order space.now) names.now }
    ensures is { let S = over (⟦<PrimeField as Field>⟧.field) O.order space.now in (x : PowerTree) → IsPowerTree x → power_text x ≡ text.now
        → Answers result (on_line line (power_kind S names.now i x))
        (λ p. IsPowerIn S names.now p × (power_parts S names.now p ≡ power_said x)) }
{
    let (name, others) = split(text, b' ');
    let raised = second_part(others);
    if !is_name_at(names, i, name) {
        let kind = ValueKind::Power;
        return Err(CertFault::Value { line, kind });
    }
    let (digits, others) = split(raised, b' ');
    let exponent = exponent_of(digits);
    if exponent > 4096 {
        let kind = ValueKind::Exponent;
        return Err(CertFault::Value { line, kind });
    }
    let form = polynomial(alloc, space, names, line, second_part(others))?;
    Ok(Power { exponent, form })
}

/// The powers of the variables.
pub(crate) fn powers_of<O: TermOrder>(
    alloc: Global,
    space: &Space<PrimeField, O>,
    names: &Names,
    first: u64,
    lines: &[LineText],
) -> Result<Vec<Power<u16>>, CertFault>
    requires ready { CanRead (over (⟦<PrimeField as Field>⟧.field) O.order space.now) names.now }
    requires room { first + length lines.now < 2 ^ 64 }
    ensures is { let S = over (⟦<PrimeField as Field>⟧.field) O.order space.now in (xs : List PowerTree) → All IsPowerTree xs
        → tails lines.now ≡ map power_text xs
        → Answers result (run_fault (power_kind S names.now) first 0 xs)
        (λ v. AreReadBy (IsPowerIn S names.now) (power_parts S names.now) power_said xs v.items) }
{
    let mut powers = Vec::new(alloc);
    for i in 0..lines.len() {
        let line = first + i as u64;
        let text = tail_at(lines, i);
        let power = power(alloc, space, names, i, line, text)?;
        powers.push(power)?;
    }
    Ok(powers)
}

/// The monomial of a line.
fn monomial<O: TermOrder>(
    alloc: Global,
    space: &Space<PrimeField, O>,
    names: &Names,
    line: u64,
    text: &[u8],
) -> Result<Mono, CertFault>
    requires ready { CanRead (over (⟦<PrimeField as Field>⟧.field) O.order space.now) names.now }
    requires text { HasMonomialText text.now }
    ensures is { let S = over (⟦<PrimeField as Field>⟧.field) O.order space.now in (fs : List Factor) → IsMonomialText fs text.now
        → Answers result (on_line line (poly_kind S names.now (monomial_term fs ∷ [])))
        (λ m. (IsPlace S (0, m) × IsReadable S names.now ((0, m), 1)) × (factors_from (variable_at names.now) 0 m ≡ fs)) }
{
    let mono = match read_monomial(alloc, space, names, text) {
        Ok(mono) => mono,
        Err(fault) => return Err(at_line(line, fault)),
    };
    Ok(mono)
}

/// A standard monomial and its average.
fn image<O: TermOrder, P: TermOrder>(
    alloc: Global,
    plain: &Space<PrimeField, O>,
    names: &Names,
    combined: &Space<PrimeField, P>,
    line: u64,
    text: &[u8],
) -> Result<Image<u16>, CertFault>
    requires ready { CanRead (over (⟦<PrimeField as Field>⟧.field) O.order plain.now) names.now }
    requires positions { CanCombine (over (⟦<PrimeField as Field>⟧.field) P.order combined.now) }
    requires text { (x : ImageTree) × IsImageTree x × (image_text x ≡ text.now) }
    ensures is { let S = over (⟦<PrimeField as Field>⟧.field) O.order plain.now in
        let T = over (⟦<PrimeField as Field>⟧.field) P.order combined.now in (x : ImageTree) → IsImageTree x → image_text x ≡ text.now
        → Answers result (on_line line (image_kind S T names.now x)) (λ y. IsImageIn S T names.now y × (image_tree T names.now y ≡ x)) }
{
    let (first, others) = split(text, b' ');
    let second = second_part(others);
    let mono = monomial(alloc, plain, names, line, first)?;
    let comb = combination(alloc, combined, line, second)?;
    Ok(Image { mono, comb })
}

/// The standard monomials and their averages.
pub(crate) fn images_of<O: TermOrder, P: TermOrder>(
    alloc: Global,
    plain: &Space<PrimeField, O>,
    names: &Names,
    combined: &Space<PrimeField, P>,
    first: u64,
    lines: &[LineText],
) -> Result<Vec<Image<u16>>, CertFault>
    requires ready { CanRead (over (⟦<PrimeField as Field>⟧.field) O.order plain.now) names.now }
    requires positions { CanCombine (over (⟦<PrimeField as Field>⟧.field) P.order combined.now) }
    requires room { first + length lines.now < 2 ^ 64 }
    requires texts { (xs : List ImageTree) × All IsImageTree xs × (tails lines.now ≡ map image_text xs) }
    ensures is { let S = over (⟦<PrimeField as Field>⟧.field) O.order plain.now in
        let T = over (⟦<PrimeField as Field>⟧.field) P.order combined.now in (xs : List ImageTree) → All IsImageTree xs → tails lines.now ≡ map image_text xs
        → Answers result (run_fault (λ _ x. image_kind S T names.now x) first 0 xs)
        (λ v. AreReadBy (IsImageIn S T names.now) (image_tree T names.now) (λ x. x) xs v.items) }
{
    let mut images = Vec::new(alloc);
    for i in 0..lines.len() {
        let line = first + i as u64;
        let text = tail_at(lines, i);
        let image = image(alloc, plain, names, combined, line, text)?;
        images.push(image)?;
    }
    Ok(images)
}

/// The combination of a fixed member; None of a moved one, of which nothing follows the polynomial.
fn combination_after<O: TermOrder>(
    alloc: Global,
    space: &Space<PrimeField, O>,
    line: u64,
    text: Option<&[u8]>,
) -> Result<Option<Comb<u16>>, CertFault>
    requires positions { CanCombine (over (⟦<PrimeField as Field>⟧.field) O.order space.now) }
    ensures is { let S = over (⟦<PrimeField as Field>⟧.field) O.order space.now in (o : Option (List TermTree)) → IfSome o IsPolynomial
        → bytes_at text.entry ≡ text_after o → Answers result (on_line line (comb_kind_of S o))
        (λ c. IfSome c (λ x. IsCombinationIn S x.vector) × (option_map (comb_tree S) c ≡ o)) }
{
    match text {
        Some(text) => {
            let comb = combination(alloc, space, line, text)?;
            Ok(Some(comb))
        }
        None => Ok(None),
    }
}

/// A member of the kernel, moved or fixed.
fn member<O: TermOrder, P: TermOrder>(
    alloc: Global,
    marked: &Space<PrimeField, O>,
    names: &Names,
    combined: &Space<PrimeField, P>,
    line: u64,
    text: &[u8],
) -> Result<Line<u16>, CertFault>
    requires ready { CanRead (over (⟦<PrimeField as Field>⟧.field) O.order marked.now) names.now }
    requires positions { CanCombine (over (⟦<PrimeField as Field>⟧.field) P.order combined.now) }
    ensures is { let S = over (⟦<PrimeField as Field>⟧.field) O.order marked.now in
        let T = over (⟦<PrimeField as Field>⟧.field) P.order combined.now in (x : MemberTree) → IsMemberTree x → member_text x ≡ text.now
        → Answers result (on_line line (member_kind S T names.now x)) (λ y. IsMemberIn S T names.now y × (member_tree S T names.now y ≡ x)) }
{
    let (first, others) = split(text, b' ');
    let u = polynomial(alloc, marked, names, line, first)?;
    let comb = combination_after(alloc, combined, line, others)?;
    Ok(Line { u, comb })
}

/// The members of the kernel.
pub(crate) fn members_of<O: TermOrder, P: TermOrder>(
    alloc: Global,
    marked: &Space<PrimeField, O>,
    names: &Names,
    combined: &Space<PrimeField, P>,
    first: u64,
    lines: &[LineText],
) -> Result<Vec<Line<u16>>, CertFault>
    requires ready { CanRead (over (⟦<PrimeField as Field>⟧.field) O.order marked.now) names.now }
    requires positions { CanCombine (over (⟦<PrimeField as Field>⟧.field) P.order combined.now) }
    requires room { first + length lines.now < 2 ^ 64 }
    ensures is { let S = over (⟦<PrimeField as Field>⟧.field) O.order marked.now in
        let T = over (⟦<PrimeField as Field>⟧.field) P.order combined.now in (xs : List MemberTree) → All IsMemberTree xs → tails lines.now ≡ map member_text xs
        → Answers result (run_fault (λ _ x. member_kind S T names.now x) first 0 xs)
        (λ v. AreReadBy (IsMemberIn S T names.now) (member_tree S T names.now) (λ x. x) xs v.items) }
{
    let mut members = Vec::new(alloc);
    for i in 0..lines.len() {
        let line = first + i as u64;
        let text = tail_at(lines, i);
        let member = member(alloc, marked, names, combined, line, text)?;
        members.push(member)?;
    }
    Ok(members)
}
