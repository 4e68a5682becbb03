ghost use Rattle.std.specs.Prelude.{◌≡◌, ◌↔◌, ◌≤◌, ◌<◌, ℕ, List, IsTrue, IfOk, All, map, length, slice_index};
ghost use Rattle.alg_core.specs.Keys.{key};
ghost use Rattle.alg_core.specs.Vectors.{Vect, scale};
ghost use Rattle.alg_core.specs.Spaces.{entry, entries};
ghost use Rattle.poly_module.specs.Parts.{Supp};
ghost use Rattle.poly_module.specs.Degrees.{IsHomogeneous};
ghost use Rattle.poly_module.specs.Combinations.{mark_value};
ghost use Rattle.poly_module.specs.SpaceVectors.{IsPositive, IsPoly, IsVectorOf, IsUpTo, vector_of, vectors_of};
ghost use Rattle.finite_certificate.specs.MarkSpaces.{mark_space, IsMarkSpace, ArePositiveForms, degree_limit};
ghost use Rattle.finite_certificate.specs.Finiteness.{IsBelow, powers_of, IsLowPower, IsLowTerm, HasForm, FiniteBy};
ghost use Rattle.finite_certificate.specs.Spreading.{first_reached, without, replaced, spread_once};

use crate::power::Power;
use alg_core::{BlockOrder, Field, Memory, Mono, Monomial, Space, Term};
use poly_module::{Poly, Vector, add, copy, mul_term, single};
use std::alloc::Global;

/// The first variable whose exponent in the monomial is not below that of its power.
fn reached<E>(powers: &[Power<E>], mono: &Mono) -> Option<usize>
    requires within { length powers.now ≤ length mono.now }
    ensures first { result ≡ first_reached (map (λ p. p.exponent) powers.now) mono.now }
{
    for i in 0..powers.len() {
        let power = &powers[i];
        if mono.exp(i) >= power.exponent {
            return Some(i);
        }
    }
    None
}

/// Whether in each term the exponent of each variable is below that of its power.
fn is_spread<E>(powers: &[Power<E>], form: &Poly<E>) -> bool
    requires within { All (λ e. length powers.now ≤ length e.0.1) (entries (λ m. m) form.now) }
    ensures exact { IsTrue result ↔ All (λ e. IsBelow (map (λ p. p.exponent) powers.now) (key e.0)) (entries (λ m. m) form.now) }
{
    let terms = form.terms();
    for i in 0..terms.len() {
        let term = &terms[i];
        if reached(powers, &term.at.mono).is_some() {
            return false;
        }
    }
    true
}

/// The monomial divided by the power of variable i with this exponent.
fn lowered(alloc: Global, mono: &Mono, i: usize, exponent: u32) -> Result<Mono, Memory>
    requires within { i < length mono.now }
    requires high { exponent ≤ slice_index mono.now i }
    ensures is { IfOk result (λ m. m ≡ without i exponent mono.now) }
{
    let mut exponents = vec![in alloc; 0; mono.len()]?;
    exponents[i] = exponent;
    let power = Mono::from_exps(alloc, exponents.as_slice())?;
    let lowered = mono.quotient(alloc, &power)?;
    Ok(lowered)
}

/// The term, where one power of the first variable that reaches it stands as its form.
fn replaced<F: Field>(
    alloc: Global,
    space: &Space<F, BlockOrder>,
    powers: &[Power<F::Elem>],
    term: &Term<F::Elem, Mono>,
) -> Result<Poly<F::Elem>, Memory>
    requires positive { IsPositive (mark_space F.field space.now) }
    requires powers { All (IsLowPower (mark_space F.field space.now)) powers.now }
    requires count { length powers.now ≤ length space.now.grading.weights.items }
    requires term { IsLowTerm (mark_space F.field space.now) (entry (λ m. m) term.now) }
    ensures replaced { let S = mark_space F.field space.now in let k = S.field in
        IfOk result (IsVectorOf S (λ m. m) (scale k term.now.coef (replaced k (powers_of S powers.now) (key (entry (λ m. m) term.now).0)))) }
{
    match reached(powers, &term.at.mono) {
        None => {
            let same = single(alloc, space, term)?;
            Ok(same)
        }
        Some(i) => {
            let power = &powers[i];
            let rest = lowered(alloc, &term.at.mono, i, power.exponent)?;
            let replaced = mul_term(alloc, space, term.coef, &rest, &power.form)?;
            Ok(replaced)
        }
    }
}

/// The sum of the terms, each replaced so. It is added up by halves.
fn round<F: Field>(
    alloc: Global,
    space: &Space<F, BlockOrder>,
    powers: &[Power<F::Elem>],
    terms: &[Term<F::Elem, Mono>],
) -> Result<Poly<F::Elem>, Memory>
    requires positive { IsPositive (mark_space F.field space.now) }
    requires powers { All (IsLowPower (mark_space F.field space.now)) powers.now }
    requires count { length powers.now ≤ length space.now.grading.weights.items }
    requires terms { All (IsLowTerm (mark_space F.field space.now)) (entries (λ m. m) terms.now) }
    ensures round { let S = mark_space F.field space.now in
        IfOk result (IsVectorOf S (λ m. m) (spread_once S.field (powers_of S powers.now) (vector_of S (λ m. m) terms.now))) }
{
    if terms.len() == 0 {
        return Ok(Vector::of(Vec::new(alloc)));
    }
    if terms.len() == 1 {
        let replaced = replaced(alloc, space, powers, &terms[0])?;
        return Ok(replaced);
    }
    let (front, back) = terms.split_at(terms.len() / 2);
    let left = round(alloc, space, powers, front)?;
    let right = round(alloc, space, powers, back)?;
    let sum = add(alloc, space, &left, &right)?;
    Ok(sum)
}

/// A polynomial in variables and marks with the value of f in which the exponent of each variable is
/// below that of its power: as long as some power divides a term, it is replaced there by its form, which
/// makes the degree of the term in the variables smaller.
/// (Derksen and Kemper, Computational Invariant Theory, section 2.4.)
pub fn spread<F: Field>(
    alloc: Global,
    space: &Space<F, BlockOrder>,
    theta: &[Poly<F::Elem>],
    powers: &[Power<F::Elem>],
    f: &Poly<F::Elem>,
) -> Result<Poly<F::Elem>, Memory>
    requires positive { IsPositive (mark_space F.field space.now) }
    requires space { IsMarkSpace (mark_space F.field space.now) space.now.order.vars space.now.order.weights.items }
    requires theta { let S = mark_space F.field space.now in
        ArePositiveForms S.field space.now.order.vars space.now.order.weights.items (vectors_of S (λ m. m) theta.now) }
    requires powers { All (IsLowPower (mark_space F.field space.now)) powers.now }
    requires forms { All (HasForm (mark_space F.field space.now)) powers.now }
    requires finite { let S = mark_space F.field space.now in
        FiniteBy S.field space.now.order.vars (vectors_of S (λ m. m) theta.now) (powers_of S powers.now) }
    requires f { IsPoly (mark_space F.field space.now) (λ m. m) f.now }
    requires low { let S = mark_space F.field space.now in IsUpTo S degree_limit (vector_of S (λ m. m) f.now) }
    ensures poly { IfOk result (IsPoly (mark_space F.field space.now) (λ m. m)) }
    ensures value { let S = mark_space F.field space.now in
        let value = mark_value S.field space.now.order.vars (vectors_of S (λ m. m) theta.now) in
        IfOk result (λ u. value (vector_of S (λ m. m) u) ≡ value (vector_of S (λ m. m) f.now)) }
    ensures below { let S = mark_space F.field space.now in
        IfOk result (λ u. Supp S.field (IsBelow (map (λ p. p.exponent) powers.now)) (vector_of S (λ m. m) u)) }
    ensures degrees { let S = mark_space F.field space.now in
        IfOk result (λ u. (d : ℕ) → IsUpTo S d (vector_of S (λ m. m) f.now) → IsUpTo S d (vector_of S (λ m. m) u)) }
    ensures homogeneous { let S = mark_space F.field space.now in
        IfOk result (λ u. (d : ℕ) → IsHomogeneous S d (vector_of S (λ m. m) f.now) → IsHomogeneous S d (vector_of S (λ m. m) u)) }
{
    let mut form = copy(alloc, f)?;
    'rounds: while !is_spread(powers, &form) {
        form = round(alloc, space, powers, form.terms())?;
    }
    Ok(form)
}
