//! Homogeneous polynomials, where each variable has the degree 1, made of short tables and tested.

ghost use Rattle.std.specs.Prelude.{◌≡◌, ◌≤◌, ◌<◌, ℕ, IfOk, IfSome, IsTrue, All, length};
ghost use Rattle.alg_core.specs.Fields.{Has};
ghost use Rattle.alg_core.specs.SpaceGrading.{height};
ghost use Rattle.alg_core.specs.Spaces.{over, entries, place, IsPlace};
ghost use Rattle.poly_module.specs.GreatestExponents.{total};
ghost use Rattle.poly_module.specs.SpaceVectors.{IsVector, AreVectors, HasPolynomials};
ghost use Rattle.secondary_gens.specs.Forms.{IsSmallForm, IsPositiveForm};

use alg_core::{Field, ModTerm, Mono, Monomial, Space, Term, TermOrder, is_place};
use poly_module::{Poly, make};
use secondary_gens::degrees::degree;
use std::alloc::Global;
use std::test::Fail;

/// A coefficient, and the exponents of the variables.
pub type Summand = (u16, &'static [u32]);

/// The term, where it is one of the space.
fn term<F: Field<Elem = u16>, O: TermOrder>(
    alloc: Global,
    space: &Space<F, O>,
    summand: &Summand,
) -> Result<Term<u16, Mono>, Fail>
    ensures has { IfOk result (λ t. Has (F.field space.now.field) t.coef) }
    ensures place { IfOk result (λ t. IsPlace (over F.field O.order space.now) (place (λ m. m) t.at)) }
{
    let (coef, exps) = *summand;
    let at = ModTerm {
        pos: 0,
        mono: Mono::from_exps(alloc, exps)?,
    };
    if space.field.has(coef) && is_place(space, &at) {
        Ok(Term { coef, at })
    } else {
        Err(Fail::new("no term of the space"))
    }
}

/// The polynomial with these summands.
pub fn polynomial<F: Field<Elem = u16>, O: TermOrder>(
    alloc: Global,
    space: &Space<F, O>,
    listed: &[Summand],
) -> Result<Poly<u16>, Fail>
    ensures vector { IfOk result (IsVector (over F.field O.order space.now) (λ m. m)) }
{
    let mut terms = Vec::new(alloc);
    for summand in listed {
        terms.push(term(alloc, space, summand)?)?;
    }
    let made = make(alloc, space, terms.as_slice())?;
    Ok(made)
}

/// The polynomials with these summands.
pub fn polynomials<F: Field<Elem = u16>, O: TermOrder>(
    alloc: Global,
    space: &Space<F, O>,
    lists: &[&'static [Summand]],
) -> Result<Vec<Poly<u16>>, Fail>
    ensures vectors { IfOk result (λ vs. AreVectors (over F.field O.order space.now) (λ m. m) vs.items) }
{
    let mut made = Vec::new(alloc);
    for list in lists {
        made.push(polynomial(alloc, space, list)?)?;
    }
    Ok(made)
}

/// Whether the space has constants.
pub fn has_constants<F: Field<Elem = u16>, O: TermOrder>(
    alloc: Global,
    space: &Space<F, O>,
) -> Result<bool, Fail>
    ensures has { IfOk result (λ b. IsTrue b → HasPolynomials (over F.field O.order space.now)) }
{
    let zeros = vec![in alloc; 0; space.grading.weights.len()]?;
    let mono = Mono::from_exps(alloc, zeros.as_slice())?;
    let at = ModTerm { pos: 0, mono };
    Ok(is_place(space, &at))
}

/// The sum of the exponents; None where it is over 1000.
fn small_total(m: &Mono) -> Option<u32>
    ensures is { IfSome result (λ d. d ≡ total m.now) }
    ensures small { IfSome result (λ d. d ≤ 1000) }
{
    let mut sum: u32 = 0;
    for i in 0..m.len() {
        let e = m.exp(i);
        if e > 1000 - sum {
            return None;
        }
        sum += e;
    }
    Some(sum)
}

/// Whether the term has position 0, and exponents with this sum.
fn is_of_degree(t: &Term<u16, Mono>, d: u32) -> bool
    ensures position { IsTrue result → t.now.at.pos ≡ 0 }
    ensures total { IsTrue result → total t.now.at.mono ≡ d }
{
    match small_total(&t.at.mono) {
        Some(e) => t.at.pos == 0 && e == d,
        None => false,
    }
}

/// Whether each term is so.
fn are_of_degree(p: &Poly<u16>, d: u32) -> bool
    ensures all { IsTrue result → All (λ e. (e.0.0 ≡ 0) × (total e.0.1 ≡ d)) (entries (λ m. m) p.now) }
{
    let terms = p.terms();
    for i in 0..terms.len() {
        let t = &terms[i];
        if !is_of_degree(t, d) {
            return false;
        }
    }
    true
}

/// The sum of the exponents of the first term, 0 where there is none; None where it is over 1000.
fn first_total(p: &Poly<u16>) -> Option<u32>
    ensures small { IfSome result (λ d. d ≤ 1000) }
{
    let terms = p.terms();
    if terms.is_empty() {
        return Some(0);
    }
    let first = &terms[0];
    small_total(&first.at.mono)
}

/// Whether the polynomial is homogeneous, of degree at most 1000.
pub fn is_small_form<F: Field<Elem = u16>, O: TermOrder>(space: &Space<F, O>, p: &Poly<u16>) -> bool
    requires vector { IsVector (over F.field O.order space.now) (λ m. m) p.now }
    ensures is { IsTrue result → IsSmallForm (over F.field O.order space.now) p.now }
{
    let _ = space;
    match first_total(p) {
        Some(d) => are_of_degree(p, d),
        None => false,
    }
}

/// Whether the polynomial is homogeneous, of a degree from 1 to 1000.
fn is_positive_form<F: Field<Elem = u16>, O: TermOrder>(space: &Space<F, O>, p: &Poly<u16>) -> bool
    requires vector { IsVector (over F.field O.order space.now) (λ m. m) p.now }
    ensures is { IsTrue result → IsPositiveForm (over F.field O.order space.now) p.now }
{
    if !is_small_form(space, p) {
        return false;
    }
    degree(space, p) > 0
}

/// Whether each polynomial is homogeneous, of degree at most 1000.
pub fn are_small_forms<F: Field<Elem = u16>, O: TermOrder>(
    space: &Space<F, O>,
    ps: &[Poly<u16>],
) -> bool
    requires vectors { AreVectors (over F.field O.order space.now) (λ m. m) ps.now }
    ensures are { IsTrue result → All (IsSmallForm (over F.field O.order space.now)) ps.now }
{
    for i in 0..ps.len() {
        let p = &ps[i];
        if !is_small_form(space, p) {
            return false;
        }
    }
    true
}

/// Whether each polynomial is homogeneous, of a degree from 1 to 1000.
pub fn are_positive_forms<F: Field<Elem = u16>, O: TermOrder>(
    space: &Space<F, O>,
    ps: &[Poly<u16>],
) -> bool
    requires vectors { AreVectors (over F.field O.order space.now) (λ m. m) ps.now }
    ensures are { IsTrue result → All (IsPositiveForm (over F.field O.order space.now)) ps.now }
{
    for i in 0..ps.len() {
        let p = &ps[i];
        if !is_positive_form(space, p) {
            return false;
        }
    }
    true
}

/// Whether no degree is below the one before it.
pub fn do_not_fall(degrees: &[u32]) -> bool
    ensures rise { IsTrue result → (i j : ℕ) → i ≤ j → j < length degrees.now → height degrees.now i ≤ height degrees.now j }
{
    for i in 1..degrees.len() {
        if degrees[i] < degrees[i - 1] {
            return false;
        }
    }
    true
}
