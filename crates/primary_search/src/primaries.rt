ghost use Rattle.std.specs.Prelude.{◌≡◌, ◌⊎◌, ◌<◌, ◌≤◌, ℕ, List, All, Err, IfOk, length, replicate};
ghost use Rattle.std.specs.Global.{Vec};
ghost use Rattle.alg_core.specs.LimitRanges.{AreLimits};
ghost use Rattle.alg_core.specs.SpaceGrading.{height};
ghost use Rattle.alg_core.specs.Spaces.{over};
ghost use Rattle.alg_core.specs.declared.term.Term.{Term};
ghost use Rattle.poly_module.specs.SpaceVectors.{IsPositive, HasPolynomials, vectors_of};
ghost use Rattle.matrix_group.specs.Actions.{IsSquare, Invariant};
ghost use Rattle.module_groebner.specs.declared.bound.BasisBound.{BasisBound};
ghost use Rattle.finite_certificate.specs.Ideals.{Regular, Ended};
ghost use Rattle.finite_certificate.specs.MarkSpaces.{ArePositiveForms};
ghost use Rattle.groebner_hom.specs.IdealBases.{AreHomogeneousPolys};
ghost use Rattle.primary_search.specs.declared.fault.SearchFault.TheVariants as faults;
ghost use Rattle.primary_search.specs.Walks.{FirstPrimaries};
ghost use Rattle.primary_search.specs.Searches.{IsNoPrimary, IsTermBound, IsColonStop, IsIdealStop, IsEnd};

use crate::fault::SearchFault;
use crate::taken::Taken;
use crate::walk::walk;
use alg_core::{Field, Limits, Space, TermOrder};
use invariant_space::basis;
use lin_algebra::Matrix;
use poly_module::Poly;
use std::alloc::Global;

/// The first primary invariants under the matrices. The candidates are walked by degree, from 1 on, and
/// each that is a nonzerodivisor modulo those taken before it is taken, until each variable has a power
/// in the ideal of what was taken. Each fault is the first event that stops this walk.
/// (Derksen and Kemper, Computational Invariant Theory, section 3.3.)
pub fn search<F: Field, O: TermOrder>(
    alloc: Global,
    space: &Space<F, O>,
    gens: &[Matrix<F::Elem>],
    limits: &Limits,
) -> Result<Vec<Poly<F::Elem>>, SearchFault<F::Elem>>
    requires positive { IsPositive (over F.field O.order space.now) }
    requires polynomials { HasPolynomials (over F.field O.order space.now) }
    requires shift { height space.now.grading.shifts.items 0 ≡ 0 }
    requires weights { let ws = space.now.grading.weights.items in ws ≡ replicate (length ws) 1 }
    requires some { 0 < length space.now.grading.weights.items }
    requires few { length space.now.grading.weights.items ≤ 12 }
    requires square { All (IsSquare (F.field space.now.field) (length space.now.grading.weights.items)) gens.now }
    requires limits { AreLimits limits.now }
    ensures polynomials { IfOk result (λ θ. AreHomogeneousPolys (over F.field O.order space.now) limits.now.max_degree θ.items) }
    ensures first { let S = over F.field O.order space.now in
        IfOk result (λ θ. FirstPrimaries S gens.now limits.now.tries (vectors_of S (λ m. m) θ.items)) }
    ensures end { let S = over F.field O.order space.now in
        IfOk result (λ θ. IsEnd S gens.now limits.now (vectors_of S (λ m. m) θ.items)) }
    ensures forms { let S = over F.field O.order space.now in IfOk result (λ θ. (ds : List ℕ)
        × ArePositiveForms S.field (length S.weights) ds (vectors_of S (λ m. m) θ.items)) }
    ensures invariant { let S = over F.field O.order space.now in
        IfOk result (λ θ. All (Invariant S.field gens.now) (vectors_of S (λ m. m) θ.items)) }
    ensures regular { let S = over F.field O.order space.now in
        IfOk result (λ θ. Regular S.field (vectors_of S (λ m. m) θ.items)) }
    ensures ended { let S = over F.field O.order space.now in
        IfOk result (λ θ. Ended S.field (length S.weights) (vectors_of S (λ m. m) θ.items)) }
    ensures found { let S = over F.field O.order space.now in (found : Vec (List (Term F.Elem (List ℕ)))) (d : ℕ)
        → result ≡ Err (faults.NoPrimary found d) → AreHomogeneousPolys S limits.now.max_degree found.items }
    ensures no_primary { let S = over F.field O.order space.now in (found : Vec (List (Term F.Elem (List ℕ)))) (d : ℕ)
        → result ≡ Err (faults.NoPrimary found d) → IsNoPrimary S gens.now limits.now (vectors_of S (λ m. m) found.items) d }
    ensures terms { let S = over F.field O.order space.now in (d count : ℕ)
        → result ≡ Err (faults.TermBound d count) → IsTermBound S gens.now limits.now d count }
    ensures basis { let S = over F.field O.order space.now in (b : BasisBound F.Elem) → result ≡ Err (faults.Basis b)
        → IsColonStop S gens.now limits.now b ⊎ IsIdealStop S gens.now limits.now b }
{
    let mut taken = Taken::nothing(alloc);
    for below in 0..limits.max_degree {
        let members = basis(alloc, space, gens, below + 1, limits.max_terms)?;
        if walk(alloc, space, limits, members.as_slice(), &mut taken)? {
            return Ok(taken.members);
        }
    }
    Err(SearchFault::NoPrimary {
        found: taken.members,
        degree: limits.max_degree,
    })
}
