ghost use Rattle.std.specs.Prelude.{◌≡◌, ◌↔◌, ◌≤◌, Err, IfOk, IsTrue};
ghost use Rattle.alg_core.specs.Spaces.{over};
ghost use Rattle.alg_core.specs.SpaceOrder.{key_order};
ghost use Rattle.poly_module.specs.Modules.{listed, IsGroebnerBasis};
ghost use Rattle.poly_module.specs.ReducedLists.{IsReducedBasisOf};
ghost use Rattle.poly_module.specs.SpaceVectors.{IsPositive, IsPoly, IsUpTo, vector_of, vectors_of};
ghost use Rattle.module_groebner.specs.declared.bound.BasisBound.{BasisBound};
ghost use Rattle.module_groebner.specs.declared.bound.BasisFault.TheVariants as faults;
ghost use Rattle.module_groebner.specs.HomogeneousLists.{degree_limit, cap_limit, AreNonzero};
ghost use Rattle.finite_certificate.specs.Ideals.{InIdeal};
ghost use Rattle.groebner_hom.specs.IdealBases.{AreHomogeneousPolys, NoIdealAbove, IsIdealBound};

use alg_core::{Field, Memory, Space, TermOrder};
use module_groebner::{BasisFault, divide, reduced_basis};
use poly_module::Poly;
use std::alloc::Global;

/// The reduced basis of the ideal of the polynomials, by falling lead. Above comes exactly where it has
/// a member of a degree over the cap: it names an element of the ideal that shows it, of the least
/// degree that such an element has.
pub fn ideal_basis<F: Field, O: TermOrder>(
    alloc: Global,
    space: &Space<F, O>,
    theta: &[Poly<F::Elem>],
    cap: u32,
) -> Result<Vec<Poly<F::Elem>>, BasisFault<F::Elem>>
    requires positive { IsPositive (over F.field O.order space.now) }
    requires cap { cap ≤ cap_limit }
    requires polynomials { AreHomogeneousPolys (over F.field O.order space.now) degree_limit theta.now }
    ensures polynomials { IfOk result (λ vs. AreHomogeneousPolys (over F.field O.order space.now) cap vs.items) }
    ensures reduced { let S = over F.field O.order space.now in let of = vectors_of S (λ m. m) in
        IfOk result (λ vs. IsReducedBasisOf S (InIdeal S.field (of theta.now)) (of vs.items)) }
    ensures within { let S = over F.field O.order space.now in
        IfOk result (λ _. NoIdealAbove S (vectors_of S (λ m. m) theta.now) cap) }
    ensures above { let S = over F.field O.order space.now in (b : BasisBound F.Elem)
        → result ≡ Err (faults.Above b) → IsIdealBound S (vectors_of S (λ m. m) theta.now) cap b }
{
    reduced_basis(alloc, space, theta, cap)
}

/// Whether f lies in the ideal of a Gröbner basis of homogeneous polynomials, none of them 0: whether
/// its remainder is 0. (Derksen and Kemper, Computational Invariant Theory, section 1.1.)
pub fn member<F: Field, O: TermOrder>(
    alloc: Global,
    space: &Space<F, O>,
    basis: &[Poly<F::Elem>],
    f: &Poly<F::Elem>,
) -> Result<bool, Memory>
    requires positive { IsPositive (over F.field O.order space.now) }
    requires polynomials { AreHomogeneousPolys (over F.field O.order space.now) degree_limit basis.now }
    requires nonzero { let S = over F.field O.order space.now in AreNonzero S.field (vectors_of S (λ m. m) basis.now) }
    requires basis { let S = over F.field O.order space.now in
        IsGroebnerBasis S.field (listed S.field (vectors_of S (λ m. m) basis.now)) (key_order S) }
    requires polynomial { IsPoly (over F.field O.order space.now) (λ m. m) f.now }
    requires degree { let S = over F.field O.order space.now in IsUpTo S degree_limit (vector_of S (λ m. m) f.now) }
    ensures exact { let S = over F.field O.order space.now in let of = vectors_of S (λ m. m) in
        IfOk result (λ b. IsTrue b ↔ InIdeal S.field (of basis.now) (vector_of S (λ m. m) f.now)) }
{
    let remainder = divide(alloc, space, f, basis)?;
    Ok(remainder.terms().is_empty())
}
