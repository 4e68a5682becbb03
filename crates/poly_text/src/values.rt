//! From the syntax tree of a text to the polynomial.

ghost use Rattle.std.specs.Prelude.{◌≡◌, ◌<◌, ◌^◌, ◌+◌, ◌∷◌, ◌++◌, [], length, map, get_or, All, IfOk, IsTrue, None};
ghost use Rattle.alg_core.specs.Spaces.{over, place, entry, entries, Fits, IsPlace, IsTerm as IsTermOf};
ghost use Rattle.poly_text.specs.Syntax.{IsTerm};
ghost use Rattle.poly_text.specs.Texts.{place_count};
ghost use Rattle.poly_text.specs.Trees.{term_of, terms_of};
ghost use Rattle.poly_text.specs.Values.{HasPositions, entry_of, value_of, is_printed, degree_at, comes_after, falls, first_failed, term_conditions, place_conditions, conditions, fault_or, first_fault, last_place, Faults};

use crate::factors::{exponents_of, factor_fault, position_of};
use crate::fault::TextFault;
use crate::names::Names;
use crate::syntax::TermText;
use alg_core::{Field, Memory, ModTerm, Mono, Space, Term, TermOrder, ValueKind, weighted_degree};
use poly_module::{Poly, Vector};
use prime_field::PrimeField;
use std::alloc::Global;

/// The greatest weighted degree of a term.
const MAX_DEGREE: u128 = 4096;

/// Whether the sign and the coefficient are those with which a value modulo `p` is printed.
fn is_printed(p: u32, term: &TermText) -> bool
    ensures is { result ≡ is_printed p (term_of term.now) }
{
    if p == 2 {
        return !term.is_negative && term.coefficient <= 1;
    }
    2 * u64::from(term.coefficient) + 1 <= u64::from(p)
}

/// The value modulo `p`.
fn value_of(p: u32, term: &TermText) -> u16
    requires small { p < 2 ^ 16 }
    requires term { IsTerm (term_of term.now) }
    requires printed { IsTrue (is_printed p (term_of term.now)) }
    ensures is { result ≡ value_of p (term_of term.now) }
{
    if term.is_negative {
        (p - term.coefficient) as u16
    } else {
        term.coefficient as u16
    }
}

/// The first condition on the term but those on its place that does not hold.
fn term_fault(p: u32, names: &Names, secondaries: Option<u64>, term: &TermText) -> Option<ValueKind>
    requires counted { place_count names.now + 1 < 2 ^ 64 }
    requires term { IsTerm (term_of term.now) }
    ensures is { result ≡ first_failed (term_conditions secondaries p names.now (term_of term.now)) }
{
    let fault = factor_fault(names, secondaries, term.factors.as_slice());
    if fault.is_some() {
        return fault;
    }
    if !is_printed(p, term) {
        return Some(ValueKind::Coefficient);
    }
    None
}

/// The value, the position and the exponents.
fn whole_term<O: TermOrder>(
    alloc: Global,
    space: &Space<PrimeField, O>,
    names: &Names,
    secondaries: Option<u64>,
    term: &TermText,
) -> Result<Term<u16, Mono>, Memory>
    requires places { length space.now.grading.weights.items ≡ place_count names.now }
    requires term { IsTerm (term_of term.now) }
    requires passes { let S = over (⟦<PrimeField as Field>⟧.field) O.order space.now in
        first_failed (term_conditions secondaries S.field.characteristic names.now (term_of term.now)) ≡ None }
    ensures is { let S = over (⟦<PrimeField as Field>⟧.field) O.order space.now in
        IfOk result (λ t. entry (λ m. m) t ≡ entry_of secondaries S names.now (term_of term.now)) }
{
    let exponents = exponents_of(alloc, names, term.factors.as_slice())?;
    let mono = Mono::from_exps(alloc, exponents.as_slice())?;
    let coef = value_of(space.field.characteristic(), term);
    let pos = position_of(secondaries, term.factors.as_slice());
    Ok(Term {
        coef,
        at: ModTerm { pos, mono },
    })
}

/// The degree of the position.
fn shift_of<O: TermOrder>(space: &Space<PrimeField, O>, position: u64) -> u32
    ensures is { result ≡ get_or space.now.grading.shifts.items position 0 }
{
    let shifts = space.grading.shifts.as_slice();
    if position < shifts.len() as u64 {
        return shifts[position as usize];
    }
    0
}

/// The degree of a term: by the weights of its variables, and in a combination by that of its mark `%`.
fn degree_at<O: TermOrder>(
    space: &Space<PrimeField, O>,
    secondaries: Option<u64>,
    term: &Term<u16, Mono>,
) -> u128
    requires place { let S = over (⟦<PrimeField as Field>⟧.field) O.order space.now in IsPlace S (place (λ m. m) term.now.at) }
    ensures is { let S = over (⟦<PrimeField as Field>⟧.field) O.order space.now in
        result ≡ degree_at secondaries S (place (λ m. m) term.now.at) }
{
    let degree = weighted_degree(space.grading.weights.as_slice(), 0, &term.at.mono);
    if secondaries.is_none() {
        return degree;
    }
    degree + u128::from(shift_of(space, term.at.pos))
}

/// Whether the term may stand after that before it.
fn comes_after<O: TermOrder>(
    space: &Space<PrimeField, O>,
    secondaries: Option<u64>,
    before: &Term<u16, Mono>,
    term: &Term<u16, Mono>,
) -> bool
    requires before { let S = over (⟦<PrimeField as Field>⟧.field) O.order space.now in IsPlace S (place (λ m. m) before.now.at) }
    requires place { let S = over (⟦<PrimeField as Field>⟧.field) O.order space.now in IsPlace S (place (λ m. m) term.now.at) }
    ensures is { let S = over (⟦<PrimeField as Field>⟧.field) O.order space.now in
        result ≡ comes_after secondaries S (place (λ m. m) before.now.at) (place (λ m. m) term.now.at) }
{
    if secondaries.is_some() && before.at.pos != term.at.pos {
        return before.at.pos < term.at.pos;
    }
    space.order.compare(&before.at, &term.at).is_gt()
}

/// Whether the term may stand after the last of those before it.
fn falls<O: TermOrder>(
    space: &Space<PrimeField, O>,
    secondaries: Option<u64>,
    before: &[Term<u16, Mono>],
    term: &Term<u16, Mono>,
) -> bool
    requires before { let S = over (⟦<PrimeField as Field>⟧.field) O.order space.now in All (IsTermOf S) (entries (λ m. m) before.now) }
    requires place { let S = over (⟦<PrimeField as Field>⟧.field) O.order space.now in IsPlace S (place (λ m. m) term.now.at) }
    ensures is { let S = over (⟦<PrimeField as Field>⟧.field) O.order space.now in
        result ≡ falls secondaries S (last_place (entries (λ m. m) before.now)) (place (λ m. m) term.now.at) }
{
    if before.len() == 0 {
        return true;
    }
    let last = &before[before.len() - 1];
    comes_after(space, secondaries, last, term)
}

/// The first condition on the place of the term that does not hold.
fn place_fault<O: TermOrder>(
    space: &Space<PrimeField, O>,
    secondaries: Option<u64>,
    before: &[Term<u16, Mono>],
    term: &Term<u16, Mono>,
) -> Option<ValueKind>
    requires before { let S = over (⟦<PrimeField as Field>⟧.field) O.order space.now in All (IsTermOf S) (entries (λ m. m) before.now) }
    requires place { let S = over (⟦<PrimeField as Field>⟧.field) O.order space.now in IsPlace S (place (λ m. m) term.now.at) }
    ensures is { let S = over (⟦<PrimeField as Field>⟧.field) O.order space.now in
        result ≡ first_failed (place_conditions secondaries S (last_place (entries (λ m. m) before.now)) (place (λ m. m) term.now.at)) }
{
    if degree_at(space, secondaries, term) > MAX_DEGREE {
        return Some(ValueKind::Degree);
    }
    if !falls(space, secondaries, before, term) {
        return Some(ValueKind::Order);
    }
    None
}

/// The term after those before it, or its fault.
fn next_term<O: TermOrder>(
    alloc: Global,
    space: &Space<PrimeField, O>,
    names: &Names,
    secondaries: Option<u64>,
    before: &[Term<u16, Mono>],
    text: &TermText,
) -> Result<Term<u16, Mono>, TextFault>
    requires places { length space.now.grading.weights.items ≡ place_count names.now }
    requires positions { let S = over (⟦<PrimeField as Field>⟧.field) O.order space.now in HasPositions secondaries S }
    requires before { let S = over (⟦<PrimeField as Field>⟧.field) O.order space.now in All (IsTermOf S) (entries (λ m. m) before.now) }
    requires term { IsTerm (term_of text.now) }
    ensures fault { let S = over (⟦<PrimeField as Field>⟧.field) O.order space.now in
        Faults result (fault_or (length before.now + 1) (first_failed (conditions secondaries S names.now
        (last_place (entries (λ m. m) before.now)) (term_of text.now))) None) }
    ensures is { let S = over (⟦<PrimeField as Field>⟧.field) O.order space.now in
        IfOk result (λ t. entry (λ m. m) t ≡ entry_of secondaries S names.now (term_of text.now)) }
    ensures term { let S = over (⟦<PrimeField as Field>⟧.field) O.order space.now in IfOk result (λ t. IsTermOf S (entry (λ m. m) t)) }
{
    let number = before.len() as u64 + 1;
    if let Some(kind) = term_fault(space.field.characteristic(), names, secondaries, text) {
        return Err(TextFault::Value { term: number, kind });
    }
    let term = whole_term(alloc, space, names, secondaries, text)?;
    if let Some(kind) = place_fault(space, secondaries, before, &term) {
        return Err(TextFault::Value { term: number, kind });
    }
    Ok(term)
}

/// The terms of the tree, in their order, or the first fault of its values. The kind of the text is told by
/// `secondaries`: how many secondary invariants there are, None in a polynomial.
pub(crate) fn terms_of_tree<O: TermOrder>(
    alloc: Global,
    space: &Space<PrimeField, O>,
    names: &Names,
    secondaries: Option<u64>,
    terms: &[TermText],
) -> Result<Vec<Term<u16, Mono>>, TextFault>
    requires places { length space.now.grading.weights.items ≡ place_count names.now }
    requires positions { let S = over (⟦<PrimeField as Field>⟧.field) O.order space.now in HasPositions secondaries S }
    requires tree { All IsTerm (terms_of terms.now) }
    ensures fault { let S = over (⟦<PrimeField as Field>⟧.field) O.order space.now in
        Faults result (first_fault secondaries S names.now None 1 (terms_of terms.now)) }
    ensures value { let S = over (⟦<PrimeField as Field>⟧.field) O.order space.now in
        IfOk result (λ ts. entries (λ m. m) ts.items ≡ map (entry_of secondaries S names.now) (terms_of terms.now)) }
    ensures terms { let S = over (⟦<PrimeField as Field>⟧.field) O.order space.now in
        IfOk result (λ ts. All (IsTermOf S) (entries (λ m. m) ts.items)) }
{
    let mut made = Vec::new(alloc);
    for text in terms {
        let term = next_term(alloc, space, names, secondaries, made.as_slice(), text)?;
        made.push(term)?;
    }
    Ok(made)
}

/// The polynomial of the tree, or the first fault of its values.
pub(crate) fn polynomial_of<O: TermOrder>(
    alloc: Global,
    space: &Space<PrimeField, O>,
    names: &Names,
    terms: &[TermText],
) -> Result<Poly<u16>, TextFault>
    requires places { length space.now.grading.weights.items ≡ place_count names.now }
    requires positions { let S = over (⟦<PrimeField as Field>⟧.field) O.order space.now in HasPositions None S }
    requires tree { All IsTerm (terms_of terms.now) }
    ensures fault { let S = over (⟦<PrimeField as Field>⟧.field) O.order space.now in
        Faults result (first_fault None S names.now None 1 (terms_of terms.now)) }
    ensures value { let S = over (⟦<PrimeField as Field>⟧.field) O.order space.now in
        IfOk result (λ f. entries (λ m. m) f ≡ map (entry_of None S names.now) (terms_of terms.now)) }
    ensures fits { let S = over (⟦<PrimeField as Field>⟧.field) O.order space.now in IfOk result (λ f. Fits S (entries (λ m. m) f)) }
    ensures positions { IfOk result (λ f. All (λ e. e.0.0 ≡ 0) (entries (λ m. m) f)) }
{
    let made = terms_of_tree(alloc, space, names, None, terms)?;
    Ok(Vector::of(made))
}
