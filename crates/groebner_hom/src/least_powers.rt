ghost use Rattle.std.specs.Prelude.{◌↔◌, ◌≤◌, ◌<◌, IfOk, All, IsTrue};
ghost use Rattle.alg_core.specs.Monomials.{mono as monomial_of};
ghost use Rattle.poly_module.specs.Parts.{Supp};
ghost use Rattle.poly_module.specs.SpaceVectors.{IsPositive, IsPoly, ArePolys, vector_of, vectors_of};
ghost use Rattle.finite_certificate.specs.Ideals.{Ended};
ghost use Rattle.finite_certificate.specs.MarkSpaces.{mark_space, IsMarkSpace, HasMark, ArePositiveForms};
ghost use Rattle.finite_certificate.specs.Finiteness.{FiniteBy, HasForm, IsPower, powers_of};
ghost use Rattle.groebner_hom.specs.Lifts.{AreUnmarkedLifts, IsLeastPower, AreLeastPowers};

use crate::exponents::variable_power;
use alg_core::{BlockOrder, Field, Memory, Mono, Monomial, Space};
use finite_certificate::Power;
use module_groebner::divide;
use poly_module::Poly;
use std::alloc::Global;

/// Whether a variable after the first n has an exponent in the monomial.
fn has_mark(n: usize, mono: &Mono) -> bool
    ensures exact { IsTrue result ↔ HasMark n (0, monomial_of mono.now) }
{
    for i in n..mono.len() {
        if mono.exp(i) > 0 {
            return true;
        }
    }
    false
}

/// Whether each term of the polynomial has a mark.
fn has_marks<F: Field>(space: &Space<F, BlockOrder>, form: &Poly<F::Elem>) -> bool
    requires form { IsPoly (mark_space F.field space.now) (λ m. m) form.now }
    ensures exact { let S = mark_space F.field space.now in
        IsTrue result ↔ Supp S.field (HasMark space.now.order.vars) (vector_of S (λ m. m) form.now) }
{
    let n = space.order.vars as usize;
    let terms = form.terms();
    for i in 0..terms.len() {
        let term = &terms[i];
        if !has_mark(n, &term.at.mono) {
            return false;
        }
    }
    true
}

/// The least exponent with which variable i, from 0, has a power in the ideal of theta, and the
/// coordinates of that power: its remainder by the lifts, in which then each term has a mark.
fn least_power<F: Field>(
    alloc: Global,
    space: &Space<F, BlockOrder>,
    _theta: &[Poly<F::Elem>],
    lifts: &[Poly<F::Elem>],
    i: usize,
) -> Result<Power<F::Elem>, Memory>
    requires positive { IsPositive (mark_space F.field space.now) }
    requires space { IsMarkSpace (mark_space F.field space.now) space.now.order.vars space.now.order.weights.items }
    requires few { space.now.order.vars ≤ 12 }
    requires forms { let S = mark_space F.field space.now in
        ArePositiveForms S.field space.now.order.vars space.now.order.weights.items (vectors_of S (λ m. m) _theta.now) }
    requires ended { let S = mark_space F.field space.now in Ended S.field space.now.order.vars (vectors_of S (λ m. m) _theta.now) }
    requires lifts { let S = mark_space F.field space.now in
        AreUnmarkedLifts S space.now.order.vars (vectors_of S (λ m. m) _theta.now) lifts.now }
    requires within { i < space.now.order.vars }
    ensures fit { let S = mark_space F.field space.now in IfOk result (λ p. IsPoly S (λ m. m) p.form × HasForm S p) }
    ensures least { let S = mark_space F.field space.now in IfOk result (λ p.
        IsLeastPower S.field space.now.order.vars (vectors_of S (λ m. m) _theta.now) i (p.exponent, vector_of S (λ m. m) p.form)) }
    ensures power { let S = mark_space F.field space.now in IfOk result (λ p.
        IsPower S.field space.now.order.vars (vectors_of S (λ m. m) _theta.now) i (p.exponent, vector_of S (λ m. m) p.form)) }
{
    let mut exponent = 0;
    loop {
        let power = variable_power(alloc, space, i, exponent)?;
        let form = divide(alloc, space, &power, lifts)?;
        if has_marks(space, &form) {
            return Ok(Power { exponent, form });
        }
        exponent += 1;
    }
}

/// For each variable, in their order, the least exponent with which it has a power in the ideal of
/// theta, and the coordinates of that power. The polynomials theta are homogeneous of the positive
/// degrees of their marks, each variable has a power in their ideal, and no lead of their lifts has a
/// mark. (Derksen and Kemper, Computational Invariant Theory, section 2.4.)
pub fn powers<F: Field>(
    alloc: Global,
    space: &Space<F, BlockOrder>,
    theta: &[Poly<F::Elem>],
    lifts: &[Poly<F::Elem>],
) -> Result<Vec<Power<F::Elem>>, Memory>
    requires positive { IsPositive (mark_space F.field space.now) }
    requires space { IsMarkSpace (mark_space F.field space.now) space.now.order.vars space.now.order.weights.items }
    requires few { space.now.order.vars ≤ 12 }
    requires theta { ArePolys (mark_space F.field space.now) (λ m. m) theta.now }
    requires forms { let S = mark_space F.field space.now in
        ArePositiveForms S.field space.now.order.vars space.now.order.weights.items (vectors_of S (λ m. m) theta.now) }
    requires ended { let S = mark_space F.field space.now in Ended S.field space.now.order.vars (vectors_of S (λ m. m) theta.now) }
    requires lifts { let S = mark_space F.field space.now in
        AreUnmarkedLifts S space.now.order.vars (vectors_of S (λ m. m) theta.now) lifts.now }
    ensures fit { let S = mark_space F.field space.now in IfOk result (λ ps. All (λ p. IsPoly S (λ m. m) p.form × HasForm S p) ps.items) }
    ensures least { let S = mark_space F.field space.now in
        IfOk result (λ ps. AreLeastPowers S.field space.now.order.vars (vectors_of S (λ m. m) theta.now) (powers_of S ps.items)) }
    ensures finite { let S = mark_space F.field space.now in
        IfOk result (λ ps. FiniteBy S.field space.now.order.vars (vectors_of S (λ m. m) theta.now) (powers_of S ps.items)) }
{
    let mut powers = Vec::new(alloc);
    for i in 0..space.order.vars {
        powers.push(least_power(alloc, space, theta, lifts, i as usize)?)?;
    }
    Ok(powers)
}
