ghost use Rattle.std.specs.Prelude.{◌≡◌, ◌↔◌, ◌≤◌, ◌<◌, ◌+◌, ◌++◌, ℕ, List, IsTrue, IsNone, IfSome, IfOk, All, length};
ghost use Rattle.alg_core.specs.Monomials.{mono as monomial_of};
ghost use Rattle.alg_core.specs.Vectors.{Vect};
ghost use Rattle.poly_module.specs.Parts.{Supp, InVariables};
ghost use Rattle.poly_module.specs.Variables.{variables};
ghost use Rattle.poly_module.specs.SpaceVectors.{IsPositive, HasPolynomials, ArePolys, IsPoly, IsPolyOf, vector_of, vectors_of};
ghost use Rattle.finite_certificate.specs.Ideals.{variable_power};
ghost use Rattle.finite_certificate.specs.MarkSpaces.{mark_space, IsMarkSpace, HasMark};
ghost use Rattle.finite_certificate.specs.Finiteness.{AreLow, IsLowPower, powers_of, IsPower, FiniteBy, IsFirstFailure};

use crate::power::Power;
use alg_core::{BlockOrder, Field, Memory, Mono, Monomial, Space};
use poly_module::{Poly, are_equal, copy, monomial, substitute, variable};
use std::alloc::Global;

/// Whether a variable after the first n has an exponent in the monomial.
fn has_mark(n: usize, mono: &Mono) -> bool
    ensures exact { IsTrue result ↔ HasMark n (0, monomial_of mono.now) }
{
    for i in n..mono.len() {
        if mono.exp(i) > 0 {
            return true;
        }
    }
    false
}

/// Whether each term of the polynomial has a mark.
fn has_marks<F: Field>(space: &Space<F, BlockOrder>, form: &Poly<F::Elem>) -> bool
    requires form { IsPoly (mark_space F.field space.now) (λ m. m) form.now }
    ensures exact { let S = mark_space F.field space.now in
        IsTrue result ↔ Supp S.field (HasMark space.now.order.vars) (vector_of S (λ m. m) form.now) }
{
    let n = space.order.vars as usize;
    let terms = form.terms();
    for i in 0..terms.len() {
        let term = &terms[i];
        if !has_mark(n, &term.at.mono) {
            return false;
        }
    }
    true
}

/// The variables and the polynomials theta: the values of the variables and the marks.
fn images<F: Field>(
    alloc: Global,
    space: &Space<F, BlockOrder>,
    theta: &[Poly<F::Elem>],
) -> Result<Vec<Poly<F::Elem>>, Memory>
    requires polynomials { HasPolynomials (mark_space F.field space.now) }
    requires variables { length space.now.grading.weights.items ≡ space.now.order.vars + length theta.now }
    requires theta { ArePolys (mark_space F.field space.now) (λ m. m) theta.now }
    ensures polys { IfOk result (λ ps. ArePolys (mark_space F.field space.now) (λ m. m) ps.items) }
    ensures are { let S = mark_space F.field space.now in
        IfOk result (λ ps. vectors_of S (λ m. m) ps.items ≡ variables S.field space.now.order.vars ++ vectors_of S (λ m. m) theta.now) }
{
    let mut images = Vec::new(alloc);
    for i in 0..space.order.vars {
        images.push(variable(alloc, space, i as usize)?)?;
    }
    for i in 0..theta.len() {
        let member = &theta[i];
        images.push(copy(alloc, member)?)?;
    }
    Ok(images)
}

/// Whether the form of the power has a mark in each term, and the power of variable i, from 0, as its
/// value where the images stand for the variables and marks.
fn is_power<F: Field>(
    alloc: Global,
    space: &Space<F, BlockOrder>,
    images: &[Poly<F::Elem>],
    power: &Power<F::Elem>,
    i: usize,
) -> Result<bool, Memory>
    requires positive { IsPositive (mark_space F.field space.now) }
    requires polynomials { HasPolynomials (mark_space F.field space.now) }
    requires variable { i < length space.now.grading.weights.items }
    requires count { length images.now ≡ length space.now.grading.weights.items }
    requires images { AreLow (mark_space F.field space.now) images.now }
    requires power { IsLowPower (mark_space F.field space.now) power.now }
    ensures exact { let S = mark_space F.field space.now in let n = space.now.order.vars in (θ : List (Vect S.field))
        → vectors_of S (λ m. m) images.now ≡ variables S.field n ++ θ
        → IfOk result (λ b. IsTrue b ↔ IsPower S.field n θ i (power.now.exponent, vector_of S (λ m. m) power.now.form)) }
{
    if !has_marks(space, &power.form) {
        return Ok(false);
    }
    let value = substitute(alloc, space, &power.form, images)?;
    let mut exponents = vec![in alloc; 0; space.grading.weights.len()]?;
    exponents[i] = power.exponent;
    let wanted = monomial(alloc, space, space.field.one(), exponents.as_slice())?;
    Ok(are_equal(space, &value, &wanted))
}

/// The first variable, from 1, whose power has a form with a term without a mark, or of another value
/// than that power. None exactly where there is none: the powers are the evidence of a certificate that
/// the polynomials are a finite module over the algebra of theta. The space is that of the variables
/// and one mark for each member of theta, of its degree; there is one power for each variable.
/// (Derksen and Kemper, Computational Invariant Theory, section 2.4.)
pub fn verify<F: Field>(
    alloc: Global,
    space: &Space<F, BlockOrder>,
    theta: &[Poly<F::Elem>],
    powers: &[Power<F::Elem>],
) -> Result<Option<u32>, Memory>
    requires positive { IsPositive (mark_space F.field space.now) }
    requires space { IsMarkSpace (mark_space F.field space.now) space.now.order.vars space.now.order.weights.items }
    requires marks { length space.now.order.weights.items ≡ length theta.now }
    requires theta { AreLow (mark_space F.field space.now) theta.now }
    requires count { length powers.now ≡ space.now.order.vars }
    requires powers { All (IsLowPower (mark_space F.field space.now)) powers.now }
    ensures none { let S = mark_space F.field space.now in let n = space.now.order.vars in
        IfOk result (λ o. IsNone o ↔ FiniteBy S.field n (vectors_of S (λ m. m) theta.now) (powers_of S powers.now)) }
    ensures first { let S = mark_space F.field space.now in let n = space.now.order.vars in
        IfOk result (λ o. IfSome o (IsFirstFailure S.field n (vectors_of S (λ m. m) theta.now) (powers_of S powers.now))) }
{
    let images = images(alloc, space, theta)?;
    for i in 0..space.order.vars {
        let place = i as usize;
        let power = &powers[place];
        if !is_power(alloc, space, images.as_slice(), power, place)? {
            return Ok(Some(i + 1));
        }
    }
    Ok(None)
}
