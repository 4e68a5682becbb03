ghost use Rattle.std.specs.Prelude.{◌≡◌, ◌≤◌, ◌<◌, ◌+◌, ◌*◌, ◌^◌, ◌++◌, suc, IfOk, OnOk, All, length, map};
ghost use Rattle.alg_core.specs.EliminationOrder.{elimination_order};
ghost use Rattle.alg_core.specs.Spaces.{over};
ghost use Rattle.poly_module.specs.GreatestExponents.{total};
ghost use Rattle.primary_module.specs.PrimaryModules.{rank_limit};
ghost use Rattle.syzygy_kernel.specs.Graphs.{copies, graph_space};

use alg_core::{BlockOrder, ElimOrder, Field, Grading, Memory, Mono, Monomial, Space};
use std::alloc::Global;

/// The number of positions before those of the last part. Memory also where the positions have no
/// numbers of 64 bits.
pub(crate) fn early_positions(gens: usize, rank: usize) -> Result<u64, Memory>
    ensures is { IfOk result (λ first. first ≡ gens * rank) }
    ensures fit { IfOk result (λ first. first + rank < 2 ^ 64) }
{
    let Some(first) = (gens as u64).checked_mul(rank as u64) else {
        return Err(Memory);
    };
    if first > u64::MAX - rank as u64 {
        return Err(Memory);
    }
    Ok(first)
}

/// The degree of the monomial.
fn total_degree(mono: &Mono) -> u32
    requires low { total mono.now ≤ rank_limit }
    ensures is { result ≡ total mono.now }
{
    let mut degree = 0;
    for i in 0..mono.len() {
        degree += mono.exp(i);
    }
    degree
}

/// Adds the degrees of the monomials at the end of the list.
fn add_degrees(monomials: &[Mono], shifts: &mut Vec<u32>) -> Result<(), Memory>
    requires low { All (λ a. total a ≤ rank_limit) monomials.now }
    ensures added { OnOk result (shifts.new.items ≡ shifts.old.items ++ map total monomials.now) }
{
    for i in 0..monomials.len() {
        shifts.push(total_degree(&monomials[i]))?;
    }
    Ok(())
}

/// The degrees of the monomials, again for each part.
#[tactic(auto, using(crate::proofs::CopiedLists::copies_more))]
fn part_shifts(alloc: Global, monomials: &[Mono], parts: usize) -> Result<Vec<u32>, Memory>
    requires low { All (λ a. total a ≤ rank_limit) monomials.now }
    ensures is { IfOk result (λ shifts. shifts.items ≡ copies parts (map total monomials.now)) }
{
    let mut shifts = Vec::new(alloc);
    for _part in 0..parts {
        add_degrees(monomials, &mut shifts)?;
    }
    Ok(shifts)
}

/// The space of the graph of so many generators: vectors over the marks, with a position for each
/// standard monomial in the part of each generator, and then in the last part.
pub(crate) fn new_graph_space<F: Field>(
    alloc: Global,
    space: &Space<F, BlockOrder>,
    monomials: &[Mono],
    gens: usize,
) -> Result<Space<F, ElimOrder>, Memory>
    requires low { All (λ a. total a ≤ rank_limit) monomials.now }
    requires more { gens + 1 < 2 ^ 63 }
    ensures is { IfOk result (λ s. over F.field (λ o. elimination_order o.first o.weights.items) s
        ≡ graph_space (F.field space.now.field) space.now.order.weights.items gens monomials.now) }
    ensures first { IfOk result (λ s. s.order.first ≡ gens * length monomials.now) }
    ensures fit { IfOk result (λ s. suc gens * length monomials.now < 2 ^ 64) }
{
    let first = early_positions(gens, monomials.len())?;
    let shifts = part_shifts(alloc, monomials, gens + 1)?;
    let mut order_weights = Vec::new(alloc);
    order_weights.extend_from_slice(space.order.weights.as_slice())?;
    let mut weights = Vec::new(alloc);
    weights.extend_from_slice(space.order.weights.as_slice())?;
    let order = ElimOrder {
        first,
        weights: order_weights,
    };
    let grading = Grading { weights, shifts };
    Ok(Space {
        field: space.field,
        order,
        grading,
    })
}
