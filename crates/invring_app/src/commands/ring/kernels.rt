//! Kernel evidence, and the values of its fixed members.

ghost use Rattle.std.specs.Prelude.{◌≡◌, ◌≤◌, ℕ, Err, IfOk, All, length};
ghost use Rattle.alg_core.specs.Spaces.{over as space_over};
ghost use Rattle.poly_module.specs.Combinations.{mark_value};
ghost use Rattle.poly_module.specs.SpaceVectors.{vector_of, vectors_of};
ghost use Rattle.finite_certificate.specs.MarkSpaces.{mark_space};
ghost use Rattle.primary_module.specs.PrimaryModules.{StandsOver};
ghost use Rattle.matrix_group.specs.Actions.{IsSquare, Invariant};
ghost use Rattle.module_groebner.specs.BasisBounds.{IsBasisBound};
ghost use Rattle.module_groebner.specs.declared.bound.BasisBound.{BasisBound as Bound};
ghost use Rattle.module_groebner.specs.declared.bound.BasisFault.TheVariants as faults;
ghost use Rattle.module_groebner.specs.declared.bound.Which.TheVariants.{Graph};
ghost use Rattle.secondary_gens.specs.Forms.{IsSmallForm, degrees_of};
ghost use Rattle.secondary_gens.specs.Secondaries.{IsComplete};
ghost use Rattle.syzygy_kernel.specs.Graphs.{InGraph, graph_space};
ghost use Rattle.syzygy_kernel.specs.Kernels.{polynomial_of, fixed_values};
ghost use Rattle.invring_app.specs.FoundPrimaries.{IsPlain, IsFreeOver, IsMarkedBeside};
ghost use Rattle.invring_app.specs.GeneratingParts.{AreFixedBy};
ghost use Rattle.invring_app.specs.KernelValues.{IsSmallMember};

use super::over::OverPrimaries;
use super::unmarked::without_marks;
use alg_core::{BlockOrder, Dp, Field, Memory, Space, TermOrder};
use lin_algebra::Matrix;
use module_groebner::BasisFault;
use poly_module::Poly;
use primary_module::PrimaryModule;
use prime_field::PrimeField;
use std::alloc::Global;
use syzygy_kernel::{Member, kernel};

/// The members of kernel evidence, and the values of those that are named fixed, in their order.
#[derive(Drop)]
pub(crate) struct KernelValues {
    pub(crate) members: Vec<Member<u16>>,
    pub(crate) values: Vec<Poly<u16>>,
}

/// The value of the member, as a polynomial in the variables.
fn value_of(
    alloc: Global,
    space: &Space<PrimeField, Dp>,
    marked: &Space<PrimeField, BlockOrder>,
    free_module: &PrimaryModule<u16>,
    member: &Member<u16>,
) -> Result<Poly<u16>, Memory>
    requires plain { IsPlain (space_over (⟦<PrimeField as Field>⟧.field) (⟦<Dp as TermOrder>⟧.order) space.now) }
    requires beside { IsMarkedBeside (space_over (⟦<PrimeField as Field>⟧.field) (⟦<Dp as TermOrder>⟧.order) space.now)
        (mark_space (⟦<PrimeField as Field>⟧.field) marked.now) marked.now.order.vars marked.now.order.weights.items }
    requires stands { StandsOver (mark_space (⟦<PrimeField as Field>⟧.field) marked.now) marked.now.order.vars
        marked.now.order.weights.items free_module.now }
    requires member { IsSmallMember (mark_space (⟦<PrimeField as Field>⟧.field) marked.now) member.now }
    ensures form { IfOk result (IsSmallForm (space_over (⟦<PrimeField as Field>⟧.field) (⟦<Dp as TermOrder>⟧.order) space.now)) }
    ensures value { let S = space_over (⟦<PrimeField as Field>⟧.field) (⟦<Dp as TermOrder>⟧.order) space.now in
        IfOk result (λ f. vector_of S (λ m. m) f
        ≡ mark_value S.field (length S.weights) (vectors_of S (λ m. m) free_module.now.theta) (polynomial_of S.field member.now)) }
{
    let value = free_module.value(alloc, marked, &member.u)?;
    let unmarked = without_marks(alloc, space, &value)?;
    Ok(unmarked)
}

/// The values of the members that are named fixed, in their order, as polynomials in the variables.
fn values_of_fixed(
    alloc: Global,
    space: &Space<PrimeField, Dp>,
    marked: &Space<PrimeField, BlockOrder>,
    free_module: &PrimaryModule<u16>,
    members: &[Member<u16>],
) -> Result<Vec<Poly<u16>>, Memory>
    requires plain { IsPlain (space_over (⟦<PrimeField as Field>⟧.field) (⟦<Dp as TermOrder>⟧.order) space.now) }
    requires beside { IsMarkedBeside (space_over (⟦<PrimeField as Field>⟧.field) (⟦<Dp as TermOrder>⟧.order) space.now)
        (mark_space (⟦<PrimeField as Field>⟧.field) marked.now) marked.now.order.vars marked.now.order.weights.items }
    requires stands { StandsOver (mark_space (⟦<PrimeField as Field>⟧.field) marked.now) marked.now.order.vars
        marked.now.order.weights.items free_module.now }
    requires members { All (IsSmallMember (mark_space (⟦<PrimeField as Field>⟧.field) marked.now)) members.now }
    ensures forms { IfOk result (λ fs. All (IsSmallForm (space_over (⟦<PrimeField as Field>⟧.field) (⟦<Dp as TermOrder>⟧.order) space.now)) fs.items) }
    ensures values { let S = space_over (⟦<PrimeField as Field>⟧.field) (⟦<Dp as TermOrder>⟧.order) space.now in
        IfOk result (λ fs. vectors_of S (λ m. m) fs.items
        ≡ fixed_values S.field (length S.weights) (vectors_of S (λ m. m) free_module.now.theta) members.now) }
{
    let mut values = Vec::new(alloc);
    for i in 0..members.len() {
        let member = &members[i];
        if member.is_fixed {
            values.push(value_of(alloc, space, marked, free_module, member)?)?;
        }
    }
    Ok(values)
}

/// The kernel evidence over the primary invariants, and the values of its fixed members. Above comes exactly
/// where the reduced basis of the graph has a member of a degree over `cap`.
pub(crate) fn kernel_values(
    alloc: Global,
    space: &Space<PrimeField, Dp>,
    over: &OverPrimaries,
    primaries: &[Poly<u16>],
    gens: &[Matrix<u16>],
    cap: u32,
) -> Result<KernelValues, BasisFault<u16>>
    requires plain { IsPlain (space_over (⟦<PrimeField as Field>⟧.field) (⟦<Dp as TermOrder>⟧.order) space.now) }
    requires free { let S = space_over (⟦<PrimeField as Field>⟧.field) (⟦<Dp as TermOrder>⟧.order) space.now in
        let M = mark_space (⟦<PrimeField as Field>⟧.field) over.now.space in
        IsFreeOver S M over.now.space.order.vars over.now.space.order.weights.items primaries.now over.now.free_module }
    requires square { let S = space_over (⟦<PrimeField as Field>⟧.field) (⟦<Dp as TermOrder>⟧.order) space.now in
        All (IsSquare S.field (length S.weights)) gens.now }
    requires fixed { let S = space_over (⟦<PrimeField as Field>⟧.field) (⟦<Dp as TermOrder>⟧.order) space.now in
        All (Invariant S.field gens.now) (vectors_of S (λ m. m) primaries.now) }
    requires cap { cap ≤ 1000 }
    ensures forms { IfOk result (λ k. All (IsSmallForm (space_over (⟦<PrimeField as Field>⟧.field) (⟦<Dp as TermOrder>⟧.order) space.now)) k.values.items) }
    ensures fixed { let S = space_over (⟦<PrimeField as Field>⟧.field) (⟦<Dp as TermOrder>⟧.order) space.now in
        IfOk result (λ k. All (λ f. Invariant S.field gens.now (vector_of S (λ m. m) f)) k.values.items) }
    ensures complete { let S = space_over (⟦<PrimeField as Field>⟧.field) (⟦<Dp as TermOrder>⟧.order) space.now in
        let x = vectors_of S (λ m. m) in
        IfOk result (λ k. IsComplete S.field (length S.weights) gens.now (x primaries.now) (x k.values.items)) }
    ensures evidence { let S = space_over (⟦<PrimeField as Field>⟧.field) (⟦<Dp as TermOrder>⟧.order) space.now in
        IfOk result (λ k. AreFixedBy S cap gens.now primaries.now over.now.free_module.monomials k.values.items k.members.items) }
    ensures above { let S = space_over (⟦<PrimeField as Field>⟧.field) (⟦<Dp as TermOrder>⟧.order) space.now in
        let B = over.now.free_module.monomials in let θ = vectors_of S (λ m. m) primaries.now in
        (b : Bound ℕ) → result ≡ Err (faults.Above b)
        → IsBasisBound (graph_space S.field (degrees_of primaries.now) (length gens.now) B) (InGraph S.field θ gens.now B) cap Graph b }
{
    let marked = &over.space;
    let free_module = &over.free_module;
    let members = kernel(alloc, marked, free_module, gens, cap)?;
    let values = values_of_fixed(alloc, space, marked, free_module, &members)?;
    Ok(KernelValues { members, values })
}
