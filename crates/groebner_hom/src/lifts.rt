ghost use Rattle.std.specs.Prelude.{◌≡◌, ◌+◌, ◌<◌, ◌≤◌, Err, IfOk, length};
ghost use Rattle.poly_module.specs.Degrees.{IsHomogeneous};
ghost use Rattle.poly_module.specs.Marks.{relation, relations};
ghost use Rattle.poly_module.specs.SpaceVectors.{IsPositive, HasPolynomials, IsPoly, ArePolys, vector_of, vectors_of};
ghost use Rattle.poly_module.specs.Substitutions.{variable_vector};
ghost use Rattle.module_groebner.specs.declared.bound.BasisBound.{BasisBound};
ghost use Rattle.module_groebner.specs.declared.bound.BasisFault.TheVariants as faults;
ghost use Rattle.module_groebner.specs.HomogeneousLists.{degree_limit, cap_limit};
ghost use Rattle.finite_certificate.specs.Ideals.{Regular, Ended};
ghost use Rattle.finite_certificate.specs.MarkSpaces.{mark_space, IsMarkSpace, ArePositiveForms};
ghost use Rattle.groebner_hom.specs.IdealBases.{IsHomogeneousPoly, AreHomogeneousPolys, NoIdealAbove, IsIdealBound};
ghost use Rattle.groebner_hom.specs.Lifts.{AreLifts, LeadsWithoutMarks, HavePowers};

use crate::ideal::ideal_basis;
use alg_core::{BlockOrder, Field, Memory, Space};
use module_groebner::BasisFault;
use poly_module::{Poly, sub, variable};
use std::alloc::Global;

/// The polynomial f less its mark, the j-th, from 0. Both are homogeneous of this degree.
fn relation<F: Field>(
    alloc: Global,
    space: &Space<F, BlockOrder>,
    f: &Poly<F::Elem>,
    j: usize,
    degree: u32,
) -> Result<Poly<F::Elem>, Memory>
    requires polynomials { HasPolynomials (mark_space F.field space.now) }
    requires within { space.now.order.vars + j < length space.now.grading.weights.items }
    requires f { IsPoly (mark_space F.field space.now) (λ m. m) f.now }
    requires form { let S = mark_space F.field space.now in IsHomogeneous S degree (vector_of S (λ m. m) f.now) }
    requires mark { let S = mark_space F.field space.now in IsHomogeneous S degree (variable_vector S.field (space.now.order.vars + j)) }
    ensures homogeneous { IfOk result (IsHomogeneousPoly (mark_space F.field space.now) degree_limit) }
    ensures is { let S = mark_space F.field space.now in let of = vector_of S (λ m. m) in
        IfOk result (λ p. of p ≡ relation S.field space.now.order.vars (of f.now) j) }
{
    let mark = variable(alloc, space, space.order.vars as usize + j)?;
    let less = sub(alloc, space, f, &mark)?;
    Ok(less)
}

/// The relations between polynomials theta, of the degrees of their marks, and these marks: each of theta less its
/// mark, in their order. (Derksen and Kemper, Computational Invariant Theory, section 2.4.)
pub fn relations<F: Field>(
    alloc: Global,
    space: &Space<F, BlockOrder>,
    theta: &[Poly<F::Elem>],
) -> Result<Vec<Poly<F::Elem>>, Memory>
    requires space { IsMarkSpace (mark_space F.field space.now) space.now.order.vars space.now.order.weights.items }
    requires polynomials { ArePolys (mark_space F.field space.now) (λ m. m) theta.now }
    requires forms { let S = mark_space F.field space.now in
        ArePositiveForms S.field space.now.order.vars space.now.order.weights.items (vectors_of S (λ m. m) theta.now) }
    ensures homogeneous { IfOk result (λ vs. AreHomogeneousPolys (mark_space F.field space.now) degree_limit vs.items) }
    ensures are { let S = mark_space F.field space.now in let of = vectors_of S (λ m. m) in
        IfOk result (λ vs. of vs.items ≡ relations S.field space.now.order.vars (of theta.now)) }
{
    let mut made = Vec::new(alloc);
    for j in 0..theta.len() {
        let member = &theta[j];
        let degree = space.order.weights[j];
        made.push(relation(alloc, space, member, j, degree)?)?;
    }
    Ok(made)
}

/// The lifts, by falling lead: the reduced basis of the ideal of the relations between the polynomials
/// theta, which are homogeneous of the positive degrees of their marks, and these. Above comes exactly
/// where it has a member of a degree over the cap. Where each variable has a power in the ideal of theta, a
/// power of each is a lead. Where each of theta is a nonzerodivisor modulo those before it, no lead has a
/// mark, and Above comes exactly where the basis of their own ideal has a member of a degree over the cap.
/// (Derksen and Kemper, Computational Invariant Theory, section 2.4.)
pub fn lifted_basis<F: Field>(
    alloc: Global,
    space: &Space<F, BlockOrder>,
    theta: &[Poly<F::Elem>],
    cap: u32,
) -> Result<Vec<Poly<F::Elem>>, BasisFault<F::Elem>>
    requires positive { IsPositive (mark_space F.field space.now) }
    requires space { IsMarkSpace (mark_space F.field space.now) space.now.order.vars space.now.order.weights.items }
    requires cap { cap ≤ cap_limit }
    requires polynomials { ArePolys (mark_space F.field space.now) (λ m. m) theta.now }
    requires forms { let S = mark_space F.field space.now in
        ArePositiveForms S.field space.now.order.vars space.now.order.weights.items (vectors_of S (λ m. m) theta.now) }
    ensures polynomials { IfOk result (λ vs. AreHomogeneousPolys (mark_space F.field space.now) cap vs.items) }
    ensures lifts { let S = mark_space F.field space.now in let of = vectors_of S (λ m. m) in
        IfOk result (λ vs. AreLifts S space.now.order.vars (of theta.now) (of vs.items)) }
    ensures within { let S = mark_space F.field space.now in
        IfOk result (λ _. NoIdealAbove S (relations S.field space.now.order.vars (vectors_of S (λ m. m) theta.now)) cap) }
    ensures above { let S = mark_space F.field space.now in (b : BasisBound F.Elem) → result ≡ Err (faults.Above b)
        → IsIdealBound S (relations S.field space.now.order.vars (vectors_of S (λ m. m) theta.now)) cap b }
    ensures unmarked { let S = mark_space F.field space.now in let of = vectors_of S (λ m. m) in
        Regular S.field (of theta.now) → IfOk result (λ vs. LeadsWithoutMarks S space.now.order.vars (of vs.items)) }
    ensures powers { let S = mark_space F.field space.now in let of = vectors_of S (λ m. m) in
        Ended S.field space.now.order.vars (of theta.now) → IfOk result (λ vs. HavePowers S space.now.order.vars (of vs.items)) }
    ensures ideal_within { let S = mark_space F.field space.now in
        IfOk result (λ _. NoIdealAbove S (vectors_of S (λ m. m) theta.now) cap) }
    ensures ideal_above { let S = mark_space F.field space.now in let of = vectors_of S (λ m. m) in
        (b : BasisBound F.Elem) → Regular S.field (of theta.now) → result ≡ Err (faults.Above b)
        → ¬ NoIdealAbove S (of theta.now) cap }
{
    let relations = relations(alloc, space, theta)?;
    ideal_basis(alloc, space, relations.as_slice(), cap)
}
