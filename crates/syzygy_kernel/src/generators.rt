ghost use Rattle.std.specs.Prelude.{◌≡◌, ◌≤◌, ◌<◌, ◌+◌, ◌*◌, ◌^◌, [], suc, IfOk, All, length, map, replicate, slice_index_or};
ghost use Rattle.alg_core.specs.Monomials.{monomials as monomial_laws};
ghost use Rattle.alg_core.specs.Spaces.{IsPlace};
ghost use Rattle.poly_module.specs.Polynomials.{single_vector};
ghost use Rattle.poly_module.specs.SpaceVectors.{AreVectors, IsVectorOf, vector_of, vectors_of};
ghost use Rattle.matrix_group.specs.Actions.{IsSquare};
ghost use Rattle.module_groebner.specs.HomogeneousLists.{degree_limit, AreHomogeneousUpTo};
ghost use Rattle.finite_certificate.specs.MarkSpaces.{mark_space};
ghost use Rattle.primary_module.specs.Positions.{AreDifferent, at_positions};
ghost use Rattle.primary_module.specs.PrimaryModules.{StandsOver};
ghost use Rattle.syzygy_kernel.specs.Graphs.{AreGenerators, first_block, graph_space};
ghost use Rattle.syzygy_kernel.specs.GraphVectors.{HasPlaces, AreAllDifferences, block_space, raised, graph_vector as vector_over};

use crate::places::{marks_of, place_near};
use alg_core::{BlockOrder, ElimOrder, Field, Memory, ModTerm, Mono, Monomial, Space, Term};
use lin_algebra::Matrix;
use poly_module::{Poly, Vector, add, make, single};
use primary_module::PrimaryModule;
use std::alloc::Global;

/// The polynomial at the positions of the part that begins at `start`.
fn part_vector<F: Field>(
    alloc: Global,
    graph: &Space<F, ElimOrder>,
    n: u32,
    monomials: &[Mono],
    polynomial: &Poly<F::Elem>,
    start: u64,
) -> Result<Vector<F::Elem, Mono>, Memory>
    requires wide { All (λ a. length a ≡ n) monomials.now }
    requires different { AreDifferent monomials.now }
    requires order { length graph.now.order.weights.items ≡ length graph.now.grading.weights.items }
    requires polynomial { HasPlaces (F.field graph.now.field) n (length graph.now.grading.weights.items) monomials.now polynomial.now }
    requires within { start + length monomials.now ≤ length graph.now.grading.shifts.items }
    requires low { length graph.now.grading.shifts.items < 2 ^ 64 }
    ensures is { let T = block_space F.field graph.now in let u = vector_of T (λ m. m) polynomial.now in
        IfOk result (IsVectorOf T (λ m. m) (raised T.field start (at_positions T.field n monomials.now u))) }
{
    let given = polynomial.terms();
    let mut terms = Vec::new(alloc);
    let mut place = monomials.len();
    for i in 0..given.len() {
        let term = &given[i];
        let mono = marks_of(alloc, n, &term.at.mono)?;
        place = place_near(n, monomials, &term.at.mono, place);
        let pos = start + place as u64;
        let at = ModTerm { pos, mono };
        terms.push(Term {
            coef: term.coef,
            at,
        })?;
    }
    let made = make(alloc, graph, terms.as_slice())?;
    Ok(made)
}

/// 1 at the position.
fn unit_at<F: Field>(
    alloc: Global,
    graph: &Space<F, ElimOrder>,
    pos: u64,
) -> Result<Vector<F::Elem, Mono>, Memory>
    requires place { let T = block_space F.field graph.now in IsPlace T (pos, replicate (length T.weights) 0) }
    ensures is { let T = block_space F.field graph.now in
        IfOk result (IsVectorOf T (λ m. m) (single_vector T.field (pos, monomial_laws.one))) }
{
    let zeros = vec![in alloc; 0; graph.grading.weights.len()]?;
    let mono = Mono::from_exps(alloc, zeros.as_slice())?;
    let at = ModTerm { pos, mono };
    let coef = graph.field.one();
    let unit = single(alloc, graph, &Term { coef, at })?;
    Ok(unit)
}

/// The element of the graph over the standard monomial at the place, from the differences of the
/// standard monomials for each generator.
fn graph_vector<F: Field>(
    alloc: Global,
    graph: &Space<F, ElimOrder>,
    n: u32,
    monomials: &[Mono],
    differences: &[Vec<Poly<F::Elem>>],
    place: usize,
) -> Result<Vector<F::Elem, Mono>, Memory>
    requires wide { All (λ a. length a ≡ n) monomials.now }
    requires different { AreDifferent monomials.now }
    requires order { length graph.now.order.weights.items ≡ length graph.now.grading.weights.items }
    requires first { graph.now.order.first ≡ length differences.now * length monomials.now }
    requires shifts { length graph.now.grading.shifts.items ≡ suc (length differences.now) * length monomials.now }
    requires low { length graph.now.grading.shifts.items < 2 ^ 64 }
    requires within { place < length monomials.now }
    requires differences { let r = length graph.now.grading.weights.items in All (λ ps. (length ps.items ≡ length monomials.now)
        × HasPlaces (F.field graph.now.field) n r monomials.now (slice_index_or ps.items place [])) differences.now }
    ensures is { let T = block_space F.field graph.now in
        let us = map (λ ps. vector_of T (λ m. m) (slice_index_or ps.items place [])) differences.now in
        IfOk result (IsVectorOf T (λ m. m) (vector_over T.field n monomials.now us place)) }
{
    let mut sum = unit_at(alloc, graph, graph.order.first + place as u64)?;
    let mut start = 0;
    for i in 0..differences.len() {
        let difference = &differences[i].as_slice()[place];
        let part = part_vector(alloc, graph, n, monomials, difference, start)?;
        sum = add(alloc, graph, &sum, &part)?;
        start += monomials.len() as u64;
    }
    Ok(sum)
}

/// The coordinates of the differences of the standard monomials, for each generator.
fn all_differences<F: Field>(
    alloc: Global,
    space: &Space<F, BlockOrder>,
    primaries: &PrimaryModule<F::Elem>,
    gens: &[Matrix<F::Elem>],
) -> Result<Vec<Vec<Poly<F::Elem>>>, Memory>
    requires stands { StandsOver (mark_space F.field space.now) space.now.order.vars space.now.order.weights.items primaries.now }
    requires square { All (IsSquare (F.field space.now.field) space.now.order.vars) gens.now }
    ensures each { let S = mark_space F.field space.now in let θ = vectors_of S (λ m. m) primaries.now.theta in
        IfOk result (λ pss. AreAllDifferences S space.now.order.vars θ primaries.now.monomials gens.now (map (λ ps. ps.items) pss.items)) }
{
    let mut differences = Vec::new(alloc);
    for i in 0..gens.len() {
        differences.push(primaries.differences(alloc, space, &gens[i])?)?;
    }
    Ok(differences)
}

/// Elements of the graph over the standard monomials, in their order: they generate it.
pub(crate) fn graph_generators<F: Field>(
    alloc: Global,
    space: &Space<F, BlockOrder>,
    graph: &Space<F, ElimOrder>,
    primaries: &PrimaryModule<F::Elem>,
    gens: &[Matrix<F::Elem>],
) -> Result<Vec<Vector<F::Elem, Mono>>, Memory>
    requires stands { StandsOver (mark_space F.field space.now) space.now.order.vars space.now.order.weights.items primaries.now }
    requires square { All (IsSquare (F.field space.now.field) space.now.order.vars) gens.now }
    requires graph { block_space F.field graph.now
        ≡ graph_space (F.field space.now.field) space.now.order.weights.items (length gens.now) primaries.now.monomials }
    requires first { graph.now.order.first ≡ first_block gens.now primaries.now.monomials }
    requires low { length graph.now.grading.shifts.items < 2 ^ 64 }
    ensures fit { IfOk result (λ vs. AreVectors (block_space F.field graph.now) (λ m. m) vs.items) }
    ensures generators { let S = mark_space F.field space.now in let θ = vectors_of S (λ m. m) primaries.now.theta in
        let B = primaries.now.monomials in let G = graph_space S.field space.now.order.weights.items (length gens.now) B in
        IfOk result (λ vs. AreGenerators S.field θ gens.now B (vectors_of G (λ m. m) vs.items)) }
    ensures homogeneous { let T = block_space F.field graph.now in
        IfOk result (λ vs. AreHomogeneousUpTo T degree_limit (vectors_of T (λ m. m) vs.items)) }
{
    let differences = all_differences(alloc, space, primaries, gens)?;
    let monomials = primaries.monomials();
    let mut vectors = Vec::new(alloc);
    for place in 0..monomials.len() {
        let vector = graph_vector(
            alloc,
            graph,
            space.order.vars,
            monomials,
            differences.as_slice(),
            place,
        )?;
        vectors.push(vector)?;
    }
    Ok(vectors)
}
