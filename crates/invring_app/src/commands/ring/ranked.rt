//! The primary invariants of a script, and the polynomials as a free module over them.

ghost use Rattle.std.specs.Prelude.{◌≡◌, ℕ, IfErr, IfOk};
ghost use Rattle.alg_core.specs.LimitRanges.{AreLimits};
ghost use Rattle.alg_core.specs.Spaces.{over as space_over};
ghost use Rattle.finite_certificate.specs.MarkSpaces.{mark_space};
ghost use Rattle.finvar_text.specs.Problems.{problem_in, IsSound};
ghost use Rattle.invring_app.specs.Commands.Rings.{IsGrouped};
ghost use Rattle.invring_app.specs.RankedScripts.{IsRankedOver};
ghost use Rattle.invring_app.specs.RingFaults.{IsRingTold};

use super::over::{OverPrimaries, over_primaries};
use crate::fault::Fault;
use crate::field::field_of;
use alg_core::{Dp, Field, Limits, Space, TermOrder};
use finvar_text::Script;
use poly_module::Poly;
use primary_search::search;
use prime_field::PrimeField;
use std::alloc::Global;

/// The space of a script, its primary invariants, and the polynomials as a free module over them.
#[derive(Drop)]
pub(crate) struct Ranked {
    pub(crate) space: Space<PrimeField, Dp>,
    pub(crate) primaries: Vec<Poly<u16>>,
    pub(crate) over: OverPrimaries,
}

/// The primary invariants with which the search ends, and the free module over them.
pub(crate) fn rank_script(alloc: Global, script: &Script, limits: &Limits) -> Result<Ranked, Fault>
    requires sound { IsSound script.now }
    requires limits { AreLimits limits.now }
    requires group { (N : ℕ) × IsGrouped (problem_in script.now) limits.now N }
    ensures is { IfOk result (λ r. let S = space_over (⟦<PrimeField as Field>⟧.field) (⟦<Dp as TermOrder>⟧.order) r.space in
        let M = mark_space (⟦<PrimeField as Field>⟧.field) r.over.space in
        IsRankedOver script.now limits.now S r.primaries.items M r.over.space.order.vars r.over.space.order.weights.items
        r.over.free_module r.over.powers.items) }
    ensures fault { IfErr result (IsRingTold (problem_in script.now) limits.now) }
{
    let field = field_of(script.characteristic);
    let variables = script.names.len() as u32;
    let space = Space::of_variables(alloc, field, variables)?;
    let primaries = search(alloc, &space, &script.gens, limits)?;
    let over = over_primaries(alloc, &space, &primaries, limits.max_basis, limits.max_rank)?;
    Ok(Ranked {
        space,
        primaries,
        over,
    })
}
