//! Polynomials in x, y and z, read from their texts and printed again.

ghost use Rattle.std.specs.Prelude.{◌≡◌, ◌≢◌, ◌<◌, [], get_or, IfOk, IsTrue, All, length};
ghost use Rattle.alg_core.specs.ExponentLists.{Within};
ghost use Rattle.alg_core.specs.Spaces.{over, entries};
ghost use Rattle.poly_module.specs.Sizes.{IsLow};
ghost use Rattle.poly_module.specs.SpaceVectors.{IsVector, IsPoly, HasPolynomials};
ghost use Rattle.poly_text.specs.Texts.{place_count};
ghost use Rattle.poly_text.specs.Values.{AreDistinct};
ghost use Rattle.test_inputs.specs.Smallness.{IsSmall};

use crate::prime_fields::field;
use alg_core::{
    Dp, Field, Grading, ModTerm, Mono, Monomial, Name, Space, Term, TermOrder, is_place,
};
use poly_module::Poly;
use poly_text::{Names, print_poly, read_poly};
use prime_field::PrimeField;
use std::alloc::Global;
use std::test::Fail;

/// The space over GF(p) with this order and grading.
pub fn space_by<O: TermOrder>(
    alloc: Global,
    p: u32,
    order: O,
    weights: &[u32],
    shifts: &[u32],
) -> Result<Space<PrimeField, O>, Fail> {
    let field = field(p)?;
    let grading = Grading {
        weights: Vec::from_slice(alloc, weights)?,
        shifts: Vec::from_slice(alloc, shifts)?,
    };
    Ok(Space {
        field,
        order,
        grading,
    })
}

/// Polynomials in three variables over GF(p), with the order `Dp`.
pub fn space(alloc: Global, p: u32) -> Result<Space<PrimeField, Dp>, Fail> {
    Ok(Space::of_variables(alloc, field(p)?, 3)?)
}

/// Whether there are three variables, and polynomials in them.
pub fn has_polynomials<F: Field<Elem = u16>, O: TermOrder>(
    alloc: Global,
    space: &Space<F, O>,
) -> Result<bool, Fail>
    ensures three { IfOk result (λ b. IsTrue b → length space.now.grading.weights.items ≡ 3) }
    ensures has { IfOk result (λ b. IsTrue b → HasPolynomials (over F.field O.order space.now)) }
{
    let zeros = vec![in alloc; 0; space.grading.weights.len()]?;
    let mono = Mono::from_exps(alloc, zeros.as_slice())?;
    let at = ModTerm { pos: 0, mono };
    Ok(is_place(space, &at) && space.grading.weights.len() == 3)
}

/// The names x, y and z, with as many primary invariants and irreducible generators.
pub fn names(
    alloc: Global,
    primaries: Option<u64>,
    irreducibles: Option<u64>,
) -> Result<Names, Fail> {
    let mut vars = Vec::new(alloc);
    vars.push(Name::new(alloc, b"x")?)?;
    vars.push(Name::new(alloc, b"y")?)?;
    vars.push(Name::new(alloc, b"z")?)?;
    Ok(Names {
        vars,
        primaries,
        irreducibles,
    })
}

/// Whether there are n places for the names, and few marks.
pub fn has_places(names: &Names, n: usize) -> bool
    ensures is { IsTrue result → n ≡ place_count names.now }
{
    let primaries = names.primaries.unwrap_or(0);
    let irreducibles = names.irreducibles.unwrap_or(0);
    if primaries > 1000 || irreducibles > 1000 || names.vars.len() > 1000 {
        return false;
    }
    n as u64 == names.vars.len() as u64 + primaries + irreducibles
}

/// Whether two of the names are different.
fn differ(names: &Names, i: usize, j: usize) -> bool
    requires first { i < length names.now.vars }
    requires second { j < length names.now.vars }
    ensures is { IsTrue result → get_or names.now.vars i [] ≢ get_or names.now.vars j [] }
{
    let first = names.vars[i].bytes();
    let second = names.vars[j].bytes();
    first != second
}

/// Whether the names are three different ones.
#[tactic(auto, using(crate::proofs::SmallEntries::three_distinct))]
pub fn are_three(names: &Names) -> bool
    ensures distinct { IsTrue result → AreDistinct names.now }
{
    names.vars.len() == 3 && differ(names, 0, 1) && differ(names, 0, 2) && differ(names, 1, 2)
}

/// Whether no exponent is over 1000.
pub fn is_small_monomial(m: &Mono) -> bool
    ensures is { IsTrue result → Within 1000 m.now }
{
    for i in 0..m.len() {
        if m.exp(i) > 1000 {
            return false;
        }
    }
    true
}

/// Whether the term has position 0 and three exponents, none of them over 1000.
fn is_small_term(t: &Term<u16, Mono>) -> bool
    ensures position { IsTrue result → t.now.at.pos ≡ 0 }
    ensures three { IsTrue result → length t.now.at.mono ≡ 3 }
    ensures within { IsTrue result → Within 1000 t.now.at.mono }
{
    t.at.pos == 0 && t.at.mono.len() == 3 && is_small_monomial(&t.at.mono)
}

/// Whether this holds of each term.
pub fn is_small(f: &Poly<u16>) -> bool
    ensures positions { IsTrue result → All (λ e. e.0.0 ≡ 0) (entries (λ m. m) f.now) }
    ensures low { IsTrue result → IsLow 4294967295 (λ m. m) f.now }
    ensures is { IsTrue result → IsSmall (entries (λ m. m) f.now) }
{
    let terms = f.terms();
    for i in 0..terms.len() {
        let t = &terms[i];
        if !is_small_term(t) {
            return false;
        }
    }
    true
}

/// The small polynomial with this text.
pub fn read<O: TermOrder>(
    alloc: Global,
    space: &Space<PrimeField, O>,
    text: &str,
) -> Result<Poly<u16>, Fail>
    ensures polynomial { IfOk result (IsPoly (over ⟦<PrimeField as Field>⟧.field O.order space.now) (λ m. m)) }
    ensures low { IfOk result (IsLow 4294967295 (λ m. m)) }
    ensures small { IfOk result (λ f. IsSmall (entries (λ m. m) f)) }
{
    let names = names(alloc, None, None)?;
    if !has_places(&names, space.grading.weights.len())
        || !are_three(&names)
        || !has_polynomials(alloc, space)?
    {
        return Err(Fail::new("no polynomials in x, y and z"));
    }
    match read_poly(alloc, space, &names, text.as_bytes()) {
        Ok(f) if is_small(&f) => Ok(f),
        _ => Err(Fail::new("no small polynomial")),
    }
}

/// The text of a small polynomial.
pub fn shown<O: TermOrder>(
    alloc: Global,
    space: &Space<PrimeField, O>,
    f: &Poly<u16>,
) -> Result<Vec<u8>, Fail>
    requires vector { IsVector (over ⟦<PrimeField as Field>⟧.field O.order space.now) (λ m. m) f.now }
{
    let names = names(alloc, None, None)?;
    if !has_places(&names, space.grading.weights.len()) || !is_small(f) {
        return Err(Fail::new("no small polynomial in x, y and z"));
    }
    Ok(print_poly(alloc, space, &names, f)?)
}
