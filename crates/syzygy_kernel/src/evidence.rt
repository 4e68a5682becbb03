ghost use Rattle.std.specs.Prelude.{◌≡◌, ◌≤◌, ◌<◌, ◌^◌, Err, IfOk, All, length};
ghost use Rattle.poly_module.specs.SpaceVectors.{IsPoly, AreVectors, vector_of, vectors_of};
ghost use Rattle.matrix_group.specs.Actions.{IsSquare, Invariant};
ghost use Rattle.module_groebner.specs.BasisBounds.{NothingAbove, IsBasisBound};
ghost use Rattle.module_groebner.specs.HomogeneousLists.{cap_limit, IsHomogeneousUpTo, AreHomogeneousUpTo};
ghost use Rattle.module_groebner.specs.declared.bound.BasisBound.{BasisBound as Bound};
ghost use Rattle.module_groebner.specs.declared.bound.BasisFault.TheVariants as faults;
ghost use Rattle.module_groebner.specs.declared.bound.Which.TheVariants.{Graph};
ghost use Rattle.finite_certificate.specs.MarkSpaces.{mark_space};
ghost use Rattle.secondary_gens.specs.Secondaries.{IsComplete};
ghost use Rattle.primary_module.specs.PrimaryModules.{StandsOver};
ghost use Rattle.syzygy_kernel.specs.Graphs.{InGraph, first_block, graph_space};
ghost use Rattle.syzygy_kernel.specs.GraphVectors.{block_space};
ghost use Rattle.poly_module.specs.ReducedLists.{IsReducedBasisOf};
ghost use Rattle.syzygy_kernel.specs.Kernels.{AreKernel, fixed_values};

use crate::generators::graph_generators;
use crate::graph_space::new_graph_space;
use crate::last_parts::members;
use crate::member::Member;
use alg_core::{BlockOrder, ElimOrder, Field, Mono, Space};
use lin_algebra::Matrix;
use module_groebner::{BasisBound, BasisFault, Which, reduced_basis};
use poly_module::Vector;
use primary_module::PrimaryModule;
use std::alloc::Global;

/// The reduced basis of the graph.
fn graph_basis<F: Field>(
    alloc: Global,
    space: &Space<F, BlockOrder>,
    graph: &Space<F, ElimOrder>,
    primaries: &PrimaryModule<F::Elem>,
    gens: &[Matrix<F::Elem>],
    cap: u32,
) -> Result<Vec<Vector<F::Elem, Mono>>, BasisFault<F::Elem>>
    requires stands { StandsOver (mark_space F.field space.now) space.now.order.vars space.now.order.weights.items primaries.now }
    requires square { All (IsSquare (F.field space.now.field) space.now.order.vars) gens.now }
    requires fixed { let S = mark_space F.field space.now in
        All (Invariant S.field gens.now) (vectors_of S (λ m. m) primaries.now.theta) }
    requires cap { cap ≤ cap_limit }
    requires graph { block_space F.field graph.now
        ≡ graph_space (F.field space.now.field) space.now.order.weights.items (length gens.now) primaries.now.monomials }
    requires first { graph.now.order.first ≡ first_block gens.now primaries.now.monomials }
    requires low { length graph.now.grading.shifts.items < 2 ^ 64 }
    ensures fit { IfOk result (λ vs. AreVectors (block_space F.field graph.now) (λ m. m) vs.items) }
    ensures homogeneous { let T = block_space F.field graph.now in
        IfOk result (λ vs. AreHomogeneousUpTo T cap (vectors_of T (λ m. m) vs.items)) }
    ensures reduced { let S = mark_space F.field space.now in let θ = vectors_of S (λ m. m) primaries.now.theta in
        let B = primaries.now.monomials in let G = graph_space S.field space.now.order.weights.items (length gens.now) B in
        IfOk result (λ vs. IsReducedBasisOf G (InGraph S.field θ gens.now B) (vectors_of G (λ m. m) vs.items)) }
    ensures within { let S = mark_space F.field space.now in let θ = vectors_of S (λ m. m) primaries.now.theta in
        let B = primaries.now.monomials in let G = graph_space S.field space.now.order.weights.items (length gens.now) B in
        IfOk result (λ _. NothingAbove G (InGraph S.field θ gens.now B) cap) }
    ensures above { let S = mark_space F.field space.now in let θ = vectors_of S (λ m. m) primaries.now.theta in
        let B = primaries.now.monomials in let G = graph_space S.field space.now.order.weights.items (length gens.now) B in
        (b : Bound F.Elem) → result ≡ Err (faults.Above b) → IsBasisBound G (InGraph S.field θ gens.now B) cap Graph b }
{
    let generators = graph_generators(alloc, space, graph, primaries, gens)?;
    match reduced_basis(alloc, graph, generators.as_slice(), cap) {
        Ok(basis) => Ok(basis),
        Err(BasisFault::Above(bound)) => Err(BasisFault::Above(BasisBound {
            vector: bound.vector,
            degree: bound.degree,
            which: Which::Graph,
        })),
        Err(BasisFault::Memory) => Err(BasisFault::Memory),
    }
}

/// The kernel evidence: the reduced basis of the graph of the differences f∘M - f, by falling lead, of
/// which the last parts are listed. Above comes exactly where that basis has a member of a degree over
/// `cap`.
pub fn kernel<F: Field>(
    alloc: Global,
    space: &Space<F, BlockOrder>,
    primaries: &PrimaryModule<F::Elem>,
    gens: &[Matrix<F::Elem>],
    cap: u32,
) -> Result<Vec<Member<F::Elem>>, BasisFault<F::Elem>>
    requires stands { StandsOver (mark_space F.field space.now) space.now.order.vars space.now.order.weights.items primaries.now }
    requires square { All (IsSquare (F.field space.now.field) space.now.order.vars) gens.now }
    requires fixed { let S = mark_space F.field space.now in
        All (Invariant S.field gens.now) (vectors_of S (λ m. m) primaries.now.theta) }
    requires cap { cap ≤ cap_limit }
    ensures polynomials { IfOk result (λ ms. All (λ m. IsPoly (mark_space F.field space.now) (λ m. m) m.u) ms.items) }
    ensures homogeneous { let S = mark_space F.field space.now in
        IfOk result (λ ms. All (λ m. IsHomogeneousUpTo S cap (vector_of S (λ a. a) m.u)) ms.items) }
    ensures kernel { let S = mark_space F.field space.now in let θ = vectors_of S (λ m. m) primaries.now.theta in
        let B = primaries.now.monomials in
        IfOk result (λ ms. AreKernel S.field space.now.order.vars space.now.order.weights.items θ gens.now B ms.items) }
    ensures complete { let S = mark_space F.field space.now in let θ = vectors_of S (λ m. m) primaries.now.theta in
        IfOk result (λ ms. IsComplete S.field space.now.order.vars gens.now θ (fixed_values S.field space.now.order.vars θ ms.items)) }
    ensures within { let S = mark_space F.field space.now in let θ = vectors_of S (λ m. m) primaries.now.theta in
        let B = primaries.now.monomials in let G = graph_space S.field space.now.order.weights.items (length gens.now) B in
        IfOk result (λ _. NothingAbove G (InGraph S.field θ gens.now B) cap) }
    ensures above { let S = mark_space F.field space.now in let θ = vectors_of S (λ m. m) primaries.now.theta in
        let B = primaries.now.monomials in let G = graph_space S.field space.now.order.weights.items (length gens.now) B in
        (b : Bound F.Elem) → result ≡ Err (faults.Above b) → IsBasisBound G (InGraph S.field θ gens.now B) cap Graph b }
{
    let monomials = primaries.monomials();
    let graph = new_graph_space(alloc, space, monomials, gens.len())?;
    let basis = graph_basis(alloc, space, &graph, primaries, gens, cap)?;
    let first = graph.order.first;
    let members = members(alloc, space, monomials, first, gens, basis.as_slice())?;
    Ok(members)
}
