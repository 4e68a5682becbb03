ghost use Rattle.std.specs.Prelude.{◌≡◌, ◌<◌, ◌≤◌, ◌++◌, ℕ, [], ◌∷◌, List, false, IsTrue, Err, IfOk, OnOk, length, replicate};
ghost use Rattle.alg_core.specs.LimitRanges.{AreLimits};
ghost use Rattle.alg_core.specs.SpaceGrading.{height};
ghost use Rattle.alg_core.specs.Spaces.{over};
ghost use Rattle.alg_core.specs.Vectors.{zero_vector};
ghost use Rattle.lin_algebra.specs.declared.matrix.Matrix.{Matrix};
ghost use Rattle.invariant_space.specs.InvariantSpaces.{IsEchelonBasis};
ghost use Rattle.poly_module.specs.SpaceVectors.{IsPositive, ArePolys, vector_of, vectors_of};
ghost use Rattle.module_groebner.specs.declared.bound.BasisBound.{BasisBound};
ghost use Rattle.module_groebner.specs.declared.bound.BasisFault.TheVariants as faults;
ghost use Rattle.groebner_hom.specs.IdealBases.{IsHomogeneousPoly, AreHomogeneousPolys, NoIdealAbove};
ghost use Rattle.primary_search.specs.Candidates.{candidates};
ghost use Rattle.primary_search.specs.KeptBases.{IsKept};
ghost use Rattle.primary_search.specs.Searches.{IsUnfinished, Passes, IsStop, IsLast};

use crate::candidates::CandidateList;
use crate::ended::powerless_variable;
use crate::taken::Taken;
use alg_core::{Field, Limits, Memory, Space, TermOrder};
use groebner_hom::{ideal_basis, is_nonzerodivisor_by_basis};
use module_groebner::BasisFault;
use poly_module::{Poly, copy};
use std::alloc::Global;

/// Adds a polynomial to the list.
fn append<E: Copy>(list: &mut Vec<Poly<E>>, polynomial: Poly<E>) -> Result<(), Memory>
    ensures items { OnOk result (list.new.items ≡ list.old.items ++ polynomial ∷ []) }
{
    list.push(polynomial)?;
    Ok(())
}

/// Takes the candidate where it is a nonzerodivisor modulo what was taken before it. True where each
/// variable then has a power in the ideal.
fn offer<F: Field, O: TermOrder>(
    alloc: Global,
    space: &Space<F, O>,
    limits: &Limits,
    taken: &mut Taken<F::Elem>,
    candidate: Poly<F::Elem>,
) -> Result<bool, BasisFault<F::Elem>>
    requires positive { IsPositive (over F.field O.order space.now) }
    requires shift { height space.now.grading.shifts.items 0 ≡ 0 }
    requires weights { let ws = space.now.grading.weights.items in ws ≡ replicate (length ws) 1 }
    requires some { 0 < length space.now.grading.weights.items }
    requires limits { AreLimits limits.now }
    requires taken { AreHomogeneousPolys (over F.field O.order space.now) limits.now.max_degree taken.old.members.items }
    requires kept { IsKept (over F.field O.order space.now) limits.now.max_basis taken.old.members.items taken.old.basis.items }
    requires ideal { let S = over F.field O.order space.now in NoIdealAbove S (vectors_of S (λ m. m) taken.old.members.items) limits.now.max_basis }
    requires unfinished { let S = over F.field O.order space.now in
        IsUnfinished S.field (length S.weights) (vectors_of S (λ m. m) taken.old.members.items) }
    requires candidate { IsHomogeneousPoly (over F.field O.order space.now) limits.now.max_degree candidate }
    requires not_zero { let S = over F.field O.order space.now in ¬ (vector_of S (λ m. m) candidate ≡ zero_vector S.field) }
    ensures taken { IfOk result (λ _. AreHomogeneousPolys (over F.field O.order space.now) limits.now.max_degree taken.new.members.items) }
    ensures kept { IfOk result (λ _. IsKept (over F.field O.order space.now) limits.now.max_basis taken.new.members.items taken.new.basis.items) }
    ensures ideal { let S = over F.field O.order space.now in
        IfOk result (λ _. NoIdealAbove S (vectors_of S (λ m. m) taken.new.members.items) limits.now.max_basis) }
    ensures unfinished { let S = over F.field O.order space.now in IfOk result (λ b. b ≡ false
        → IsUnfinished S.field (length S.weights) (vectors_of S (λ m. m) taken.new.members.items)) }
    ensures passes { let S = over F.field O.order space.now in let of = vectors_of S (λ m. m) in IfOk result (λ b. b ≡ false
        → Passes S limits.now.max_basis (of taken.old.members.items) (vector_of S (λ m. m) candidate ∷ []) (of taken.new.members.items)) }
    ensures last { let S = over F.field O.order space.now in let of = vectors_of S (λ m. m) in IfOk result (λ b. IsTrue b
        → IsLast S limits.now.max_basis (of taken.old.members.items) (vector_of S (λ m. m) candidate ∷ []) (of taken.new.members.items)) }
    ensures stop { let S = over F.field O.order space.now in let of = vectors_of S (λ m. m) in (b : BasisBound F.Elem)
        → result ≡ Err (faults.Above b)
        → IsStop S limits.now.max_basis (of taken.old.members.items) (vector_of S (λ m. m) candidate ∷ []) b }
{
    let cap = limits.max_basis;
    if !is_nonzerodivisor_by_basis(alloc, space, &candidate, taken.basis.as_slice(), cap)? {
        return Ok(false);
    }
    append(&mut taken.basis, copy(alloc, &candidate)?)?;
    let basis = ideal_basis(alloc, space, taken.basis.as_slice(), cap)?;
    append(&mut taken.members, candidate)?;
    taken.basis = basis;
    Ok(powerless_variable(space, taken.basis.as_slice()).is_none())
}

/// Walks along the candidates of a degree, of which `basis` is the echelon basis. True where the walk
/// ends at one of them.
pub(crate) fn walk<F: Field, O: TermOrder>(
    alloc: Global,
    space: &Space<F, O>,
    limits: &Limits,
    basis: &[Poly<F::Elem>],
    taken: &mut Taken<F::Elem>,
) -> Result<bool, BasisFault<F::Elem>>
    requires positive { IsPositive (over F.field O.order space.now) }
    requires shift { height space.now.grading.shifts.items 0 ≡ 0 }
    requires weights { let ws = space.now.grading.weights.items in ws ≡ replicate (length ws) 1 }
    requires some { 0 < length space.now.grading.weights.items }
    requires limits { AreLimits limits.now }
    requires polynomials { ArePolys (over F.field O.order space.now) (λ m. m) basis.now }
    requires echelon { let S = over F.field O.order space.now in (gens : List (Matrix F.Elem)) × (d : ℕ)
        × (d ≤ limits.now.max_degree) × IsEchelonBasis S gens d (vectors_of S (λ m. m) basis.now) }
    requires taken { AreHomogeneousPolys (over F.field O.order space.now) limits.now.max_degree taken.old.members.items }
    requires kept { IsKept (over F.field O.order space.now) limits.now.max_basis taken.old.members.items taken.old.basis.items }
    requires ideal { let S = over F.field O.order space.now in NoIdealAbove S (vectors_of S (λ m. m) taken.old.members.items) limits.now.max_basis }
    requires unfinished { let S = over F.field O.order space.now in
        IsUnfinished S.field (length S.weights) (vectors_of S (λ m. m) taken.old.members.items) }
    ensures taken { IfOk result (λ _. AreHomogeneousPolys (over F.field O.order space.now) limits.now.max_degree taken.new.members.items) }
    ensures kept { IfOk result (λ _. IsKept (over F.field O.order space.now) limits.now.max_basis taken.new.members.items taken.new.basis.items) }
    ensures ideal { let S = over F.field O.order space.now in
        IfOk result (λ _. NoIdealAbove S (vectors_of S (λ m. m) taken.new.members.items) limits.now.max_basis) }
    ensures unfinished { let S = over F.field O.order space.now in IfOk result (λ b. b ≡ false
        → IsUnfinished S.field (length S.weights) (vectors_of S (λ m. m) taken.new.members.items)) }
    ensures passes { let S = over F.field O.order space.now in let of = vectors_of S (λ m. m) in IfOk result (λ b. b ≡ false
        → Passes S limits.now.max_basis (of taken.old.members.items) (candidates S.field limits.now.tries (of basis.now)) (of taken.new.members.items)) }
    ensures last { let S = over F.field O.order space.now in let of = vectors_of S (λ m. m) in IfOk result (λ b. IsTrue b
        → IsLast S limits.now.max_basis (of taken.old.members.items) (candidates S.field limits.now.tries (of basis.now)) (of taken.new.members.items)) }
    ensures stop { let S = over F.field O.order space.now in let of = vectors_of S (λ m. m) in (b : BasisBound F.Elem)
        → result ≡ Err (faults.Above b)
        → IsStop S limits.now.max_basis (of taken.old.members.items) (candidates S.field limits.now.tries (of basis.now)) b }
{
    let mut list = CandidateList::of_members(alloc, basis.len())?;
    for turn in 0..limits.tries {
        match list.next(alloc, space, basis)? {
            None => return Ok(false),
            Some(candidate) => {
                if offer(alloc, space, limits, taken, candidate)? {
                    return Ok(true);
                }
            }
        }
    }
    Ok(false)
}
