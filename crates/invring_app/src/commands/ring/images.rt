//! Invariants over which all others are combinations.

ghost use Rattle.std.specs.Prelude.{◌≡◌, ℕ, IfErr, IfOk};
ghost use Rattle.std.specs.Option.{option_map};
ghost use Rattle.alg_core.specs.LimitRanges.{AreLimits};
ghost use Rattle.alg_core.specs.Spaces.{over as space_over};
ghost use Rattle.finite_certificate.specs.MarkSpaces.{mark_space};
ghost use Rattle.finvar_text.specs.Problems.{problem_in, IsSound};
ghost use Rattle.invring_app.specs.AveragedGroups.{IsAveragingOf};
ghost use Rattle.invring_app.specs.Commands.Rings.{IsGrouped};
ghost use Rattle.invring_app.specs.GeneratingParts.{AreGenerating};
ghost use Rattle.invring_app.specs.RankedScripts.{IsRankedOver};
ghost use Rattle.invring_app.specs.RingFaults.{IsRingTold};

use super::averages::averages;
use super::kernels::kernel_values;
use super::ranked::Ranked;
use crate::fault::Fault;
use alg_core::{Dp, Field, Limits, TermOrder};
use finvar_text::Script;
use poly_module::Poly;
use prime_field::PrimeField;
use reynolds_op::Reynolds;
use std::alloc::Global;
use syzygy_kernel::Member;

/// Invariants over which all others are combinations: the averages of the standard monomials, or the values
/// of the fixed members of the kernel evidence, which are kept beside them.
#[derive(Drop)]
pub(crate) struct Images {
    pub(crate) images: Vec<Poly<u16>>,
    pub(crate) members: Option<Vec<Member<u16>>>,
}

/// The averages over the group where there are any, else the values of the fixed members.
pub(crate) fn images_of<'g>(
    alloc: Global,
    script: &Script,
    ranked: &Ranked,
    averaging: Option<Reynolds<'g, u16>>,
    order: u64,
    limits: &Limits,
) -> Result<Images, Fault>
    requires sound { IsSound script.now }
    requires limits { AreLimits limits.now }
    requires ranked { let r = ranked.now in
        let S = space_over (⟦<PrimeField as Field>⟧.field) (⟦<Dp as TermOrder>⟧.order) r.space in
        let M = mark_space (⟦<PrimeField as Field>⟧.field) r.over.space in
        IsRankedOver script.now limits.now S r.primaries.items M r.over.space.order.vars r.over.space.order.weights.items
        r.over.free_module r.over.powers.items }
    requires group { IsGrouped (problem_in script.now) limits.now order }
    requires averaging { IsAveragingOf (problem_in script.now) script.now.gens.items order averaging }
    ensures generating { let r = ranked.now in
        let S = space_over (⟦<PrimeField as Field>⟧.field) (⟦<Dp as TermOrder>⟧.order) r.space in
        IfOk result (λ i. AreGenerating S script.now.characteristic order limits.now.max_basis script.now.gens.items r.primaries.items
        r.over.free_module.monomials i.images.items (option_map (λ v. v.items) i.members)) }
    ensures fault { IfErr result (IsRingTold (problem_in script.now) limits.now) }
{
    let over = &ranked.over;
    let Some(averaging) = averaging else {
        let kernel = kernel_values(
            alloc,
            &ranked.space,
            over,
            &ranked.primaries,
            &script.gens,
            limits.max_basis,
        )?;
        return Ok(Images {
            images: kernel.values,
            members: Some(kernel.members),
        });
    };
    let images = averages(
        alloc,
        &ranked.space,
        &averaging,
        over.free_module.monomials(),
    )?;
    Ok(Images {
        images,
        members: None,
    })
}
