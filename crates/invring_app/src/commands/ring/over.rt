//! The polynomials as a free module over found primary invariants, in a space with marks.

ghost use Rattle.std.specs.Prelude.{◌≡◌, ◌≤◌, ◌<◌, ◌+◌, ℕ, Err, IfOk, All, length};
ghost use Rattle.poly_module.specs.GreatestExponents.{total};
ghost use Rattle.poly_module.specs.SpaceVectors.{IsPoly, vectors_of};
ghost use Rattle.finite_certificate.specs.Finiteness.{FiniteBy, HasForm, powers_of};
ghost use Rattle.finite_certificate.specs.MarkSpaces.{mark_space};
ghost use Rattle.finite_certificate.specs.StandardMonomials.{IsOverRank};
ghost use Rattle.groebner_hom.specs.Lifts.{AreLeastPowers, AreUnmarkedLifts, HavePowers};
ghost use Rattle.primary_module.specs.PrimaryModules.{rank_limit, StandsOver};
ghost use Rattle.primary_module.specs.declared.fault.RankFault.TheVariants as ranks;
ghost use Rattle.alg_core.specs.Spaces.{over};
ghost use Rattle.invring_app.specs.FoundPrimaries.{AreFound, AreFoundOver, IsOver, IsFreeOver};

use alg_core::{BlockOrder, Dp, Field, Memory, Space, TermOrder};
use finite_certificate::Power;
use groebner_hom::{lifted_basis, powers};
use module_groebner::BasisFault;
use poly_module::Poly;
use primary_module::{PrimaryModule, RankFault, all_with_marks};
use prime_field::PrimeField;
use secondary_gens::degrees::degrees;
use std::alloc::Global;

/// The free module, and the least power of each variable with its coordinates.
#[derive(Drop)]
struct OverTheta<E> {
    free_module: PrimaryModule<E>,
    powers: Vec<Power<E>>,
}

/// The space with a mark for each primary invariant, the polynomials as a free module over these, and the
/// least power of each variable with its coordinates.
#[derive(Drop)]
pub(crate) struct OverPrimaries {
    pub(crate) space: Space<PrimeField, BlockOrder>,
    pub(crate) free_module: PrimaryModule<u16>,
    pub(crate) powers: Vec<Power<u16>>,
}

/// The lifts of the relations. There is no element above the cap, since the ideal has none.
fn lifts_of<F: Field>(
    alloc: Global,
    space: &Space<F, BlockOrder>,
    theta: &[Poly<F::Elem>],
    cap: u32,
) -> Result<Vec<Poly<F::Elem>>, Memory>
    requires found { AreFoundOver (mark_space F.field space.now) space.now.order.vars space.now.order.weights.items cap theta.now }
    ensures lifts { let S = mark_space F.field space.now in
        IfOk result (λ ls. AreUnmarkedLifts S space.now.order.vars (vectors_of S (λ m. m) theta.now) ls.items) }
    ensures powers { let S = mark_space F.field space.now in
        IfOk result (λ ls. HavePowers S space.now.order.vars (vectors_of S (λ m. m) ls.items)) }
{
    let lifts = match lifted_basis(alloc, space, theta, cap) {
        Ok(lifts) => lifts,
        Err(BasisFault::Memory) => return Err(Memory),
        Err(BasisFault::Above(_)) => unreachable!(),
    };
    Ok(lifts)
}

/// The free module over theta. RankBound comes exactly where there are more standard monomials than the
/// limit allows.
fn over_theta<F: Field>(
    alloc: Global,
    space: &Space<F, BlockOrder>,
    theta: Vec<Poly<F::Elem>>,
    max_basis: u32,
    max_rank: u32,
) -> Result<OverTheta<F::Elem>, RankFault>
    requires found { AreFoundOver (mark_space F.field space.now) space.now.order.vars space.now.order.weights.items max_basis theta.items }
    requires rank { max_rank ≤ rank_limit }
    ensures stands { let S = mark_space F.field space.now in
        IfOk result (λ o. StandsOver S space.now.order.vars space.now.order.weights.items o.free_module) }
    ensures theta { IfOk result (λ o. o.free_module.theta ≡ theta.items) }
    ensures within { IfOk result (λ o. length o.free_module.monomials ≤ max_rank) }
    ensures low { IfOk result (λ o. All (λ a. total a < length o.free_module.monomials) o.free_module.monomials) }
    ensures fit { let S = mark_space F.field space.now in
        IfOk result (λ o. All (λ p. IsPoly S (λ m. m) p.form × HasForm S p) o.powers.items) }
    ensures least { let S = mark_space F.field space.now in
        IfOk result (λ o. AreLeastPowers S.field space.now.order.vars (vectors_of S (λ m. m) theta.items) (powers_of S o.powers.items)) }
    ensures finite { let S = mark_space F.field space.now in
        IfOk result (λ o. FiniteBy S.field space.now.order.vars (vectors_of S (λ m. m) theta.items) (powers_of S o.powers.items)) }
    ensures bound { let S = mark_space F.field space.now in (counted : ℕ) → result ≡ Err (ranks.RankBound counted)
        → (counted ≡ max_rank + 1) × IsOverRank S.field space.now.order.vars (vectors_of S (λ m. m) theta.items) max_rank }
{
    let lifts = lifts_of(alloc, space, theta.as_slice(), max_basis)?;
    let powers = powers(alloc, space, theta.as_slice(), lifts.as_slice())?;
    let free_module = PrimaryModule::new(alloc, space, theta, lifts, max_rank)?;
    Ok(OverTheta {
        free_module,
        powers,
    })
}

/// The free module over found primary invariants, in the space with a mark for each. RankBound comes exactly
/// where there are more standard monomials than the limit allows.
pub(crate) fn over_primaries(
    alloc: Global,
    space: &Space<PrimeField, Dp>,
    primaries: &[Poly<u16>],
    max_basis: u32,
    max_rank: u32,
) -> Result<OverPrimaries, RankFault>
    requires found { AreFound (over (⟦<PrimeField as Field>⟧.field) (⟦<Dp as TermOrder>⟧.order) space.now) max_basis primaries.now }
    requires rank { max_rank ≤ rank_limit }
    ensures is { let S = over (⟦<PrimeField as Field>⟧.field) (⟦<Dp as TermOrder>⟧.order) space.now in
        IfOk result (λ o. IsOver S primaries.now o.free_module.monomials o.free_module.lifts o.powers.items) }
    ensures free { let S = over (⟦<PrimeField as Field>⟧.field) (⟦<Dp as TermOrder>⟧.order) space.now in
        IfOk result (λ o. let M = mark_space (⟦<PrimeField as Field>⟧.field) o.space in
        IsFreeOver S M o.space.order.vars o.space.order.weights.items primaries.now o.free_module) }
    ensures within { IfOk result (λ o. length o.free_module.monomials ≤ max_rank) }
    ensures bound { let S = over (⟦<PrimeField as Field>⟧.field) (⟦<Dp as TermOrder>⟧.order) space.now in
        (counted : ℕ) → result ≡ Err (ranks.RankBound counted)
        → (counted ≡ max_rank + 1) × IsOverRank S.field (length S.weights) (vectors_of S (λ m. m) primaries.now) max_rank }
{
    let degrees = degrees(alloc, space, primaries)?;
    let variables = space.grading.weights.len() as u32;
    let marked = Space::with_marks(alloc, space.field, variables, degrees.as_slice())?;
    let theta = all_with_marks(alloc, &marked, primaries)?;
    let made = over_theta(alloc, &marked, theta, max_basis, max_rank)?;
    Ok(OverPrimaries {
        space: marked,
        free_module: made.free_module,
        powers: made.powers,
    })
}
