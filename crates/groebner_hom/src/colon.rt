ghost use Rattle.std.specs.Prelude.{◌≡◌, ◌↔◌, ◌≤◌, ℕ, Err, IfOk, IsTrue, All, length, replicate};
ghost use Rattle.alg_core.specs.EliminationOrder.{elimination_order};
ghost use Rattle.alg_core.specs.SpaceGrading.{height};
ghost use Rattle.alg_core.specs.Spaces.{over, IsPlace};
ghost use Rattle.alg_core.specs.Vectors.{plus, zero_vector};
ghost use Rattle.poly_module.specs.Degrees.{IsHomogeneous};
ghost use Rattle.poly_module.specs.SpaceVectors.{IsPositive, IsPoly, ArePolys, IsVector, AreVectors, IsVectorOf, ArePlaced, HasPolynomials, vector_of, vectors_of};
ghost use Rattle.poly_module.specs.Substitutions.{position_vector};
ghost use Rattle.module_groebner.specs.declared.bound.BasisBound.{BasisBound};
ghost use Rattle.module_groebner.specs.declared.bound.BasisFault.TheVariants as faults;
ghost use Rattle.module_groebner.specs.declared.bound.Which.TheVariants.{Colon};
ghost use Rattle.module_groebner.specs.BasisBounds.{IsBasisBound};
ghost use Rattle.module_groebner.specs.HomogeneousLists.{degree_limit, cap_limit, AreUpTo};
ghost use Rattle.groebner_hom.specs.IdealBases.{IsHomogeneousPoly, AreHomogeneousPolys};
ghost use Rattle.groebner_hom.specs.Colons.{lifted, colon, colon_space, InColon, AreSecondParts, IsColonIdeal, IsColonBasis, NoColonAbove, IsColonBound};

use alg_core::{
    ElimOrder, Field, Grading, Memory, ModTerm, Mono, Monomial, Space, Term, TermOrder,
};
use module_groebner::{BasisBound, BasisFault, Which, reduced_basis};
use poly_module::{Poly, Vector, add, degree, make, single};
use std::alloc::Global;

/// The degree of a homogeneous polynomial other than 0.
pub(crate) fn form_degree<F: Field, O: TermOrder>(space: &Space<F, O>, f: &Poly<F::Elem>) -> u32
    requires polynomial { IsHomogeneousPoly (over F.field O.order space.now) degree_limit f.now }
    requires not_zero { let S = over F.field O.order space.now in ¬ (vector_of S (λ m. m) f.now ≡ zero_vector S.field) }
    ensures is { let S = over F.field O.order space.now in IsHomogeneous S result (vector_of S (λ m. m) f.now) }
{
    match degree(space, f) {
        Some(d) => d as u32,
        None => 0,
    }
}

/// The polynomials of the space at two positions, of the shifts 0 and `degree`: the first is the first
/// block of the elimination order.
pub(crate) fn pair_space<F: Field, O: TermOrder>(
    alloc: Global,
    space: &Space<F, O>,
    degree: u32,
) -> Result<Space<F, ElimOrder>, Memory>
    ensures is { IfOk result (λ s. over F.field (λ o. elimination_order o.first o.weights.items) s
        ≡ colon_space (over F.field O.order space.now) degree) }
{
    let mut order_weights = Vec::new(alloc);
    order_weights.extend_from_slice(space.grading.weights.as_slice())?;
    let mut weights = Vec::new(alloc);
    weights.extend_from_slice(space.grading.weights.as_slice())?;
    let order = ElimOrder {
        first: 1,
        weights: order_weights,
    };
    let grading = Grading {
        weights,
        shifts: vec![in alloc; 0, degree]?,
    };
    Ok(Space {
        field: space.field,
        order,
        grading,
    })
}

/// The pair (f, 1).
fn with_one<F: Field>(
    alloc: Global,
    pairs: &Space<F, ElimOrder>,
    f: &Poly<F::Elem>,
) -> Result<Vector<F::Elem, Mono>, Memory>
    requires f { let T = over F.field (λ o. elimination_order o.first o.weights.items) pairs.now in
        ArePlaced T (λ m. m) f.now }
    requires second { let T = over F.field (λ o. elimination_order o.first o.weights.items) pairs.now in
        IsPlace T (1, replicate (length T.weights) 0) }
    ensures is { let T = over F.field (λ o. elimination_order o.first o.weights.items) pairs.now in
        IfOk result (IsVectorOf T (λ m. m) (plus T.field (vector_of T (λ m. m) f.now) (position_vector T.field))) }
{
    let zeros = vec![in alloc; 0; pairs.grading.weights.len()]?;
    let mono = Mono::from_exps(alloc, zeros.as_slice())?;
    let at = ModTerm { pos: 1, mono };
    let coef = pairs.field.one();
    let one = single(alloc, pairs, &Term { coef, at })?;
    let first = make(alloc, pairs, f.terms())?;
    let sum = add(alloc, pairs, &first, &one)?;
    Ok(sum)
}

/// The generators of the colon module: (f, 1), and (g, 0) for each member g of theta.
fn colon_generators<F: Field>(
    alloc: Global,
    pairs: &Space<F, ElimOrder>,
    f: &Poly<F::Elem>,
    theta: &[Poly<F::Elem>],
) -> Result<Vec<Vector<F::Elem, Mono>>, Memory>
    requires f { let T = over F.field (λ o. elimination_order o.first o.weights.items) pairs.now in
        ArePlaced T (λ m. m) f.now }
    requires theta { let T = over F.field (λ o. elimination_order o.first o.weights.items) pairs.now in
        All (ArePlaced T (λ m. m)) theta.now }
    requires second { let T = over F.field (λ o. elimination_order o.first o.weights.items) pairs.now in
        IsPlace T (1, replicate (length T.weights) 0) }
    ensures fit { let T = over F.field (λ o. elimination_order o.first o.weights.items) pairs.now in
        IfOk result (λ vs. AreVectors T (λ m. m) vs.items) }
    ensures are { let T = over F.field (λ o. elimination_order o.first o.weights.items) pairs.now in let of = vectors_of T (λ m. m) in
        IfOk result (λ vs. of vs.items ≡ colon T.field (of theta.now) (vector_of T (λ m. m) f.now)) }
{
    let mut generators = Vec::new(alloc);
    generators.push(with_one(alloc, pairs, f)?)?;
    for i in 0..theta.len() {
        let member = &theta[i];
        generators.push(make(alloc, pairs, member.terms())?)?;
    }
    Ok(generators)
}

/// The reduced basis of the colon module of f, which has the degree, and theta.
fn colon_basis<F: Field, O: TermOrder>(
    alloc: Global,
    space: &Space<F, O>,
    f: &Poly<F::Elem>,
    degree: u32,
    theta: &[Poly<F::Elem>],
    cap: u32,
) -> Result<Vec<Vector<F::Elem, Mono>>, BasisFault<F::Elem>>
    requires positive { IsPositive (over F.field O.order space.now) }
    requires cap { cap ≤ cap_limit }
    requires shift { height space.now.grading.shifts.items 0 ≡ 0 }
    requires polynomial { IsHomogeneousPoly (over F.field O.order space.now) degree_limit f.now }
    requires degree { let S = over F.field O.order space.now in IsHomogeneous S degree (vector_of S (λ m. m) f.now) }
    requires polynomials { AreHomogeneousPolys (over F.field O.order space.now) degree_limit theta.now }
    ensures basis { let S = over F.field O.order space.now in let of = vectors_of S (λ m. m) in
        IfOk result (λ vs. IsColonBasis S (of theta.now) (vector_of S (λ m. m) f.now) cap degree vs.items) }
    ensures above { let S = over F.field O.order space.now in let of = vectors_of S (λ m. m) in (b : BasisBound F.Elem)
        → result ≡ Err (faults.Above b)
        → IsBasisBound (colon_space S degree) (InColon S.field (of theta.now) (vector_of S (λ m. m) f.now)) cap Colon b }
{
    let pairs = pair_space(alloc, space, degree)?;
    let generators = colon_generators(alloc, &pairs, f, theta)?;
    match reduced_basis(alloc, &pairs, generators.as_slice(), cap) {
        Ok(basis) => Ok(basis),
        Err(BasisFault::Above(bound)) => Err(BasisFault::Above(BasisBound {
            vector: bound.vector,
            degree: bound.degree,
            which: Which::Colon,
        })),
        Err(BasisFault::Memory) => Err(BasisFault::Memory),
    }
}

/// Whether the pair has no first part.
fn is_second<E>(v: &Vector<E, Mono>) -> bool
    ensures exact { IsTrue result ↔ All (λ t. t.at.pos ≡ 1) v.now }
{
    v.terms().iter().all(|t| t.at.pos == 1)
}

/// The second part of a pair that has no first.
fn second_part<F: Field, O: TermOrder>(
    alloc: Global,
    space: &Space<F, O>,
    v: &Vector<F::Elem, Mono>,
) -> Result<Poly<F::Elem>, Memory>
    requires polynomials { HasPolynomials (over F.field O.order space.now) }
    requires pair { let S = over F.field O.order space.now in (d : ℕ) × IsVector (colon_space S d) (λ m. m) v.now }
    requires second { All (λ t. t.at.pos ≡ 1) v.now }
    ensures polynomial { IfOk result (IsPoly (over F.field O.order space.now) (λ m. m)) }
    ensures lifted { let S = over F.field O.order space.now in let of = vector_of S (λ m. m) in
        IfOk result (λ h. lifted S.field (of h) ≡ of v.now) }
{
    let pairs = v.terms();
    let mut terms = Vec::new(alloc);
    for i in 0..pairs.len() {
        let pair = &pairs[i];
        let mono = pair.at.mono.copy(alloc)?;
        let at = ModTerm { pos: 0, mono };
        terms.push(Term {
            coef: pair.coef,
            at,
        })?;
    }
    let polynomial = make(alloc, space, terms.as_slice())?;
    Ok(polynomial)
}

/// The second parts of those pairs that have no first.
fn second_parts<F: Field, O: TermOrder>(
    alloc: Global,
    space: &Space<F, O>,
    basis: &[Vector<F::Elem, Mono>],
) -> Result<Vec<Poly<F::Elem>>, Memory>
    requires polynomials { HasPolynomials (over F.field O.order space.now) }
    requires pairs { let S = over F.field O.order space.now in (d : ℕ) × AreVectors (colon_space S d) (λ m. m) basis.now }
    ensures polynomials { IfOk result (λ hs. ArePolys (over F.field O.order space.now) (λ m. m) hs.items) }
    ensures exact { let S = over F.field O.order space.now in let of = vectors_of S (λ m. m) in
        IfOk result (λ hs. AreSecondParts S.field (of basis.now) (of hs.items)) }
{
    let mut parts = Vec::new(alloc);
    for i in 0..basis.len() {
        let v = &basis[i];
        if is_second(v) {
            parts.push(second_part(alloc, space, v)?)?;
        }
    }
    Ok(parts)
}

/// Generators of the colon ideal: of the polynomials whose product with f lies in the ideal of theta.
/// (Derksen and Kemper, Computational Invariant Theory, section 1.2.)
pub(crate) fn colon_ideal<F: Field, O: TermOrder>(
    alloc: Global,
    space: &Space<F, O>,
    f: &Poly<F::Elem>,
    theta: &[Poly<F::Elem>],
    cap: u32,
) -> Result<Vec<Poly<F::Elem>>, BasisFault<F::Elem>>
    requires positive { IsPositive (over F.field O.order space.now) }
    requires cap { cap ≤ cap_limit }
    requires shift { height space.now.grading.shifts.items 0 ≡ 0 }
    requires polynomial { IsHomogeneousPoly (over F.field O.order space.now) degree_limit f.now }
    requires not_zero { let S = over F.field O.order space.now in ¬ (vector_of S (λ m. m) f.now ≡ zero_vector S.field) }
    requires polynomials { AreHomogeneousPolys (over F.field O.order space.now) degree_limit theta.now }
    ensures polynomials { IfOk result (λ hs. ArePolys (over F.field O.order space.now) (λ m. m) hs.items) }
    ensures small { let S = over F.field O.order space.now in
        IfOk result (λ hs. AreUpTo S degree_limit (vectors_of S (λ m. m) hs.items)) }
    ensures exact { let S = over F.field O.order space.now in let of = vectors_of S (λ m. m) in
        IfOk result (λ hs. IsColonIdeal S.field (of theta.now) (vector_of S (λ m. m) f.now) (of hs.items)) }
    ensures within { let S = over F.field O.order space.now in let of = vectors_of S (λ m. m) in
        IfOk result (λ _. NoColonAbove S (of theta.now) (vector_of S (λ m. m) f.now) cap) }
    ensures above { let S = over F.field O.order space.now in let of = vectors_of S (λ m. m) in (b : BasisBound F.Elem)
        → result ≡ Err (faults.Above b) → IsColonBound S (of theta.now) (vector_of S (λ m. m) f.now) cap b }
{
    let degree = form_degree(space, f);
    let basis = colon_basis(alloc, space, f, degree, theta, cap)?;
    let parts = second_parts(alloc, space, basis.as_slice())?;
    Ok(parts)
}
