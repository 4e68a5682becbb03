//! Secondary invariants, irreducible generators, and the evidence of both.

ghost use Rattle.std.specs.Prelude.{◌≡◌, ℕ, IfErr, IfOk};
ghost use Rattle.std.specs.Option.{option_map};
ghost use Rattle.alg_core.specs.Spaces.{over as space_over};
ghost use Rattle.certificate_io.specs.Certificates.{evidence_of};
ghost use Rattle.finite_certificate.specs.MarkSpaces.{mark_space};
ghost use Rattle.finvar_text.specs.Problems.{problem_in, IsSound};
ghost use Rattle.invring_app.specs.Commands.Rings.{IsGrouped, IsKept};
ghost use Rattle.invring_app.specs.GeneratingParts.{AreGenerating, AreGeneratorParts};
ghost use Rattle.invring_app.specs.RankedScripts.{IsRankedOver};
ghost use Rattle.invring_app.specs.RingFaults.{IsRingTold};

use super::evidence::evidence;
use super::images::Images;
use super::ranked::Ranked;
use super::written::written_parts;
use crate::fault::Fault;
use alg_core::{Dp, Field, Limits, TermOrder};
use certificate_io::Evidence;
use finvar_text::Script;
use poly_module::Poly;
use prime_field::PrimeField;
use secondary_gens::choose;
use std::alloc::Global;

/// The secondary invariants, why every invariant is a combination of them, the irreducible generators
/// among them, and each as a word.
#[derive(Drop)]
pub(crate) struct Generators {
    pub(crate) secondaries: Vec<Poly<u16>>,
    pub(crate) evidence: Evidence<u16>,
    pub(crate) irreducibles: Vec<Poly<u16>>,
    pub(crate) words: Vec<Poly<u16>>,
}

/// The secondary invariants that the images give, and what is written of them.
pub(crate) fn generators_of(
    alloc: Global,
    script: &Script,
    ranked: &Ranked,
    images: Images,
    order: u64,
    limits: &Limits,
) -> Result<Generators, Fault>
    requires sound { IsSound script.now }
    requires ranked { let r = ranked.now in
        let S = space_over (⟦<PrimeField as Field>⟧.field) (⟦<Dp as TermOrder>⟧.order) r.space in
        let M = mark_space (⟦<PrimeField as Field>⟧.field) r.over.space in
        IsRankedOver script.now limits.now S r.primaries.items M r.over.space.order.vars r.over.space.order.weights.items
        r.over.free_module r.over.powers.items }
    requires group { IsGrouped (problem_in script.now) limits.now order }
    requires generating { let r = ranked.now in
        let S = space_over (⟦<PrimeField as Field>⟧.field) (⟦<Dp as TermOrder>⟧.order) r.space in
        AreGenerating S script.now.characteristic order limits.now.max_basis script.now.gens.items r.primaries.items
        r.over.free_module.monomials images.images.items (option_map (λ v. v.items) images.members) }
    ensures parts { let r = ranked.now in
        let S = space_over (⟦<PrimeField as Field>⟧.field) (⟦<Dp as TermOrder>⟧.order) r.space in
        IfOk result (λ g. AreGeneratorParts S script.now.gens.items r.primaries.items r.over.free_module.monomials images.images.items
        (option_map (λ v. v.items) images.members) g.secondaries.items (evidence_of g.evidence) g.irreducibles.items g.words.items) }
    ensures kept { IfOk result (λ _. IsKept (problem_in script.now) limits.now) }
    ensures fault { IfErr result (IsRingTold (problem_in script.now) limits.now) }
{
    let space = &ranked.space;
    let theta = ranked.primaries.as_slice();
    let forms = images.images.as_slice();
    let secondaries = choose(alloc, space, &script.gens, theta, forms, limits.max_terms)?;
    let written = written_parts(alloc, space, theta, forms, secondaries.as_slice())?;
    let monomials = ranked.over.free_module.monomials();
    let evidence = evidence(alloc, monomials, images.members, written.combs)?;
    Ok(Generators {
        secondaries,
        evidence,
        irreducibles: written.irreducibles,
        words: written.words,
    })
}
