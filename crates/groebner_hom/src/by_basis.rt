ghost use Rattle.std.specs.Prelude.{◌≡◌, ◌↔◌, ◌≤◌, ◌⊎◌, Err, IfOk, IsTrue, All, length};
ghost use Rattle.alg_core.specs.EliminationOrder.{elimination_order};
ghost use Rattle.alg_core.specs.SpaceGrading.{height};
ghost use Rattle.alg_core.specs.SpaceOrder.{key_order};
ghost use Rattle.alg_core.specs.Spaces.{over};
ghost use Rattle.alg_core.specs.Vectors.{zero_vector};
ghost use Rattle.poly_module.specs.Modules.{listed, IsGroebnerBasis};
ghost use Rattle.poly_module.specs.Polynomials.{one_vector};
ghost use Rattle.poly_module.specs.SpaceVectors.{IsPositive, IsPoly, AreVectors, IsVector, ArePlaced, HasPolynomials, vector_of, vectors_of};
ghost use Rattle.module_groebner.specs.declared.bound.BasisBound.{BasisBound};
ghost use Rattle.module_groebner.specs.declared.bound.BasisFault.TheVariants as faults;
ghost use Rattle.module_groebner.specs.HomogeneousLists.{degree_limit, cap_limit, AreNonzero};
ghost use Rattle.finite_certificate.specs.Ideals.{InIdeal, Nonzerodivisor};
ghost use Rattle.groebner_hom.specs.IdealBases.{IsHomogeneousPoly, AreHomogeneousPolys, NoIdealAbove, IsIdealBound};
ghost use Rattle.groebner_hom.specs.Colons.{NoColonAbove, IsColonBound, KeepsLead};

use crate::colon::{colon_ideal, form_degree, pair_space};
use crate::ideal::member;
use crate::nonzerodivisor::are_members;
use alg_core::{ElimOrder, Field, Memory, ModTerm, Mono, Monomial, Space, Term, TermOrder};
use module_groebner::BasisFault;
use poly_module::{Poly, lead, make, single};
use std::alloc::Global;

/// Whether the lead by the order of the pairs divides the lead.
fn keeps_lead<F: Field, O: TermOrder>(
    alloc: Global,
    space: &Space<F, O>,
    pairs: &Space<F, ElimOrder>,
    p: &Poly<F::Elem>,
) -> Result<bool, Memory>
    requires polynomial { IsVector (over F.field O.order space.now) (λ m. m) p.now }
    requires placed { let T = over F.field (λ o. elimination_order o.first o.weights.items) pairs.now in
        ArePlaced T (λ m. m) p.now }
    requires weights { length pairs.now.grading.weights.items ≡ length space.now.grading.weights.items }
    ensures kept { let T = over F.field (λ o. elimination_order o.first o.weights.items) pairs.now in
        IfOk result (λ b. IsTrue b → KeepsLead (over F.field O.order space.now) T p.now) }
{
    let pair = make(alloc, pairs, p.terms())?;
    let Some(greatest) = lead(pairs, &pair) else {
        return Ok(false);
    };
    let Some(term) = lead(space, p) else {
        return Ok(false);
    };
    Ok(greatest.at.divides(&term.at))
}

/// Whether it does so for each of the polynomials.
fn keeps_leads<F: Field, O: TermOrder>(
    alloc: Global,
    space: &Space<F, O>,
    pairs: &Space<F, ElimOrder>,
    theta: &[Poly<F::Elem>],
) -> Result<bool, Memory>
    requires polynomials { AreVectors (over F.field O.order space.now) (λ m. m) theta.now }
    requires placed { let T = over F.field (λ o. elimination_order o.first o.weights.items) pairs.now in
        All (ArePlaced T (λ m. m)) theta.now }
    requires weights { length pairs.now.grading.weights.items ≡ length space.now.grading.weights.items }
    ensures kept { let T = over F.field (λ o. elimination_order o.first o.weights.items) pairs.now in
        IfOk result (λ b. IsTrue b → All (KeepsLead (over F.field O.order space.now) T) theta.now) }
{
    for i in 0..theta.len() {
        let p = &theta[i];
        if !keeps_lead(alloc, space, pairs, p)? {
            return Ok(false);
        }
    }
    Ok(true)
}

/// The polynomial 1.
fn one<F: Field, O: TermOrder>(alloc: Global, space: &Space<F, O>) -> Result<Poly<F::Elem>, Memory>
    requires polynomials { HasPolynomials (over F.field O.order space.now) }
    ensures polynomial { IfOk result (IsPoly (over F.field O.order space.now) (λ m. m)) }
    ensures is { let S = over F.field O.order space.now in
        IfOk result (λ p. vector_of S (λ m. m) p ≡ one_vector S.field) }
{
    let zeros = vec![in alloc; 0; space.grading.weights.len()]?;
    let mono = Mono::from_exps(alloc, zeros.as_slice())?;
    let at = ModTerm { pos: 0, mono };
    let coef = space.field.one();
    let made = single(alloc, space, &Term { coef, at })?;
    Ok(made)
}

/// Whether f is found in the ideal of the Gröbner basis theta, and its colon module to have no element
/// above the cap: f has no degree over the cap, the remainder 0, and by the order of pairs the members
/// of theta have leads that divide their leads.
fn is_inside<F: Field, O: TermOrder>(
    alloc: Global,
    space: &Space<F, O>,
    f: &Poly<F::Elem>,
    theta: &[Poly<F::Elem>],
    cap: u32,
) -> Result<bool, Memory>
    requires positive { IsPositive (over F.field O.order space.now) }
    requires cap { cap ≤ cap_limit }
    requires shift { height space.now.grading.shifts.items 0 ≡ 0 }
    requires polynomial { IsHomogeneousPoly (over F.field O.order space.now) degree_limit f.now }
    requires not_zero { let S = over F.field O.order space.now in ¬ (vector_of S (λ m. m) f.now ≡ zero_vector S.field) }
    requires polynomials { AreHomogeneousPolys (over F.field O.order space.now) cap theta.now }
    requires nonzero { let S = over F.field O.order space.now in AreNonzero S.field (vectors_of S (λ m. m) theta.now) }
    requires basis { let S = over F.field O.order space.now in
        IsGroebnerBasis S.field (listed S.field (vectors_of S (λ m. m) theta.now)) (key_order S) }
    ensures inside { let S = over F.field O.order space.now in
        IfOk result (λ b. IsTrue b → InIdeal S.field (vectors_of S (λ m. m) theta.now) (vector_of S (λ m. m) f.now)) }
    ensures colon { let S = over F.field O.order space.now in let of = vectors_of S (λ m. m) in
        IfOk result (λ b. IsTrue b → NoColonAbove S (of theta.now) (vector_of S (λ m. m) f.now) cap) }
{
    let degree = form_degree(space, f);
    if degree > cap {
        return Ok(false);
    }
    if !member(alloc, space, theta, f)? {
        return Ok(false);
    }
    let pairs = pair_space(alloc, space, degree)?;
    let kept = keeps_leads(alloc, space, &pairs, theta)?;
    Ok(kept)
}

/// As `is_nonzerodivisor`, for a Gröbner basis theta with no member 0 or of a degree over the cap: a
/// polynomial of its ideal is told by division, without its colon module.
pub fn is_nonzerodivisor_by_basis<F: Field, O: TermOrder>(
    alloc: Global,
    space: &Space<F, O>,
    f: &Poly<F::Elem>,
    theta: &[Poly<F::Elem>],
    cap: u32,
) -> Result<bool, BasisFault<F::Elem>>
    requires positive { IsPositive (over F.field O.order space.now) }
    requires cap { cap ≤ cap_limit }
    requires shift { height space.now.grading.shifts.items 0 ≡ 0 }
    requires polynomial { IsHomogeneousPoly (over F.field O.order space.now) degree_limit f.now }
    requires not_zero { let S = over F.field O.order space.now in ¬ (vector_of S (λ m. m) f.now ≡ zero_vector S.field) }
    requires polynomials { AreHomogeneousPolys (over F.field O.order space.now) cap theta.now }
    requires nonzero { let S = over F.field O.order space.now in AreNonzero S.field (vectors_of S (λ m. m) theta.now) }
    requires basis { let S = over F.field O.order space.now in
        IsGroebnerBasis S.field (listed S.field (vectors_of S (λ m. m) theta.now)) (key_order S) }
    ensures exact { let S = over F.field O.order space.now in let of = vectors_of S (λ m. m) in
        IfOk result (λ b. IsTrue b ↔ Nonzerodivisor S.field (of theta.now) (vector_of S (λ m. m) f.now)) }
    ensures colon_within { let S = over F.field O.order space.now in let of = vectors_of S (λ m. m) in
        IfOk result (λ _. NoColonAbove S (of theta.now) (vector_of S (λ m. m) f.now) cap) }
    ensures ideal_within { let S = over F.field O.order space.now in
        IfOk result (λ _. NoIdealAbove S (vectors_of S (λ m. m) theta.now) cap) }
    ensures above { let S = over F.field O.order space.now in let θ = vectors_of S (λ m. m) theta.now in
        let g = vector_of S (λ m. m) f.now in (b : BasisBound F.Elem) → result ≡ Err (faults.Above b)
        → IsColonBound S θ g cap b ⊎ (NoColonAbove S θ g cap × IsIdealBound S θ cap b) }
{
    if is_inside(alloc, space, f, theta, cap)? {
        let unit = one(alloc, space)?;
        return Ok(member(alloc, space, theta, &unit)?);
    }
    let colon = colon_ideal(alloc, space, f, theta, cap)?;
    let all = are_members(alloc, space, theta, colon.as_slice())?;
    Ok(all)
}
