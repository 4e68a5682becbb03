ghost use Rattle.std.specs.Prelude.{◌≡◌, ◌↔◌, ◌≤◌, ◌⊎◌, Err, IfOk, IsTrue, All};
ghost use Rattle.alg_core.specs.SpaceGrading.{height};
ghost use Rattle.alg_core.specs.SpaceOrder.{key_order};
ghost use Rattle.alg_core.specs.Spaces.{over};
ghost use Rattle.alg_core.specs.Vectors.{zero_vector};
ghost use Rattle.poly_module.specs.Modules.{listed, IsGroebnerBasis};
ghost use Rattle.poly_module.specs.SpaceVectors.{IsPositive, ArePolys, vector_of, vectors_of};
ghost use Rattle.module_groebner.specs.declared.bound.BasisBound.{BasisBound};
ghost use Rattle.module_groebner.specs.declared.bound.BasisFault.TheVariants as faults;
ghost use Rattle.module_groebner.specs.HomogeneousLists.{degree_limit, cap_limit, AreUpTo, AreNonzero};
ghost use Rattle.finite_certificate.specs.Ideals.{InIdeal, Nonzerodivisor};
ghost use Rattle.groebner_hom.specs.IdealBases.{IsHomogeneousPoly, AreHomogeneousPolys, NoIdealAbove, IsIdealBound};
ghost use Rattle.groebner_hom.specs.Colons.{NoColonAbove, IsColonBound};

use crate::colon::colon_ideal;
use crate::ideal::{ideal_basis, member};
use alg_core::{Field, Memory, Space, TermOrder};
use module_groebner::BasisFault;
use poly_module::Poly;
use std::alloc::Global;

/// Whether each of the polynomials lies in the ideal of the Gröbner basis.
pub(crate) fn are_members<F: Field, O: TermOrder>(
    alloc: Global,
    space: &Space<F, O>,
    basis: &[Poly<F::Elem>],
    list: &[Poly<F::Elem>],
) -> Result<bool, Memory>
    requires positive { IsPositive (over F.field O.order space.now) }
    requires polynomials { AreHomogeneousPolys (over F.field O.order space.now) degree_limit basis.now }
    requires nonzero { let S = over F.field O.order space.now in AreNonzero S.field (vectors_of S (λ m. m) basis.now) }
    requires basis { let S = over F.field O.order space.now in
        IsGroebnerBasis S.field (listed S.field (vectors_of S (λ m. m) basis.now)) (key_order S) }
    requires list { ArePolys (over F.field O.order space.now) (λ m. m) list.now }
    requires degrees { let S = over F.field O.order space.now in AreUpTo S degree_limit (vectors_of S (λ m. m) list.now) }
    ensures exact { let S = over F.field O.order space.now in let of = vectors_of S (λ m. m) in
        IfOk result (λ b. IsTrue b ↔ All (InIdeal S.field (of basis.now)) (of list.now)) }
{
    for i in 0..list.len() {
        let p = &list[i];
        if !member(alloc, space, basis, p)? {
            return Ok(false);
        }
    }
    Ok(true)
}

/// Whether f, which is not 0, is a nonzerodivisor modulo the ideal of theta: whether each polynomial
/// whose product with f lies in the ideal lies there itself. Above comes exactly where the reduced basis
/// of the colon module of f and theta, which is asked first, or that of the ideal has a member of a
/// degree over the cap; it says which, and names an element that shows it, of the least degree.
/// (Derksen and Kemper, Computational Invariant Theory, section 1.2.)
pub fn is_nonzerodivisor<F: Field, O: TermOrder>(
    alloc: Global,
    space: &Space<F, O>,
    f: &Poly<F::Elem>,
    theta: &[Poly<F::Elem>],
    cap: u32,
) -> Result<bool, BasisFault<F::Elem>>
    requires positive { IsPositive (over F.field O.order space.now) }
    requires cap { cap ≤ cap_limit }
    requires shift { height space.now.grading.shifts.items 0 ≡ 0 }
    requires polynomial { IsHomogeneousPoly (over F.field O.order space.now) degree_limit f.now }
    requires not_zero { let S = over F.field O.order space.now in ¬ (vector_of S (λ m. m) f.now ≡ zero_vector S.field) }
    requires polynomials { AreHomogeneousPolys (over F.field O.order space.now) degree_limit theta.now }
    ensures exact { let S = over F.field O.order space.now in let of = vectors_of S (λ m. m) in
        IfOk result (λ b. IsTrue b ↔ Nonzerodivisor S.field (of theta.now) (vector_of S (λ m. m) f.now)) }
    ensures colon_within { let S = over F.field O.order space.now in let of = vectors_of S (λ m. m) in
        IfOk result (λ _. NoColonAbove S (of theta.now) (vector_of S (λ m. m) f.now) cap) }
    ensures ideal_within { let S = over F.field O.order space.now in
        IfOk result (λ _. NoIdealAbove S (vectors_of S (λ m. m) theta.now) cap) }
    ensures above { let S = over F.field O.order space.now in let θ = vectors_of S (λ m. m) theta.now in
        let g = vector_of S (λ m. m) f.now in (b : BasisBound F.Elem) → result ≡ Err (faults.Above b)
        → IsColonBound S θ g cap b ⊎ (NoColonAbove S θ g cap × IsIdealBound S θ cap b) }
{
    let colon = colon_ideal(alloc, space, f, theta, cap)?;
    let basis = ideal_basis(alloc, space, theta, cap)?;
    let all = are_members(alloc, space, basis.as_slice(), colon.as_slice())?;
    Ok(all)
}
