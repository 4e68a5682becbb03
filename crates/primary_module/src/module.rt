ghost use Rattle.std.specs.Prelude.{◌≡◌, ◌≤◌, ◌<◌, ◌+◌, ℕ, Err, IfOk, All, length};
ghost use Rattle.poly_module.specs.GreatestExponents.{total};
ghost use Rattle.poly_module.specs.SpaceVectors.{vectors_of};
ghost use Rattle.finite_certificate.specs.MarkSpaces.{mark_space};
ghost use Rattle.finite_certificate.specs.StandardMonomials.{IsOverRank};
ghost use Rattle.primary_module.specs.PrimaryModules.{rank_limit, AreForModule, StandsOver};

use crate::fault::RankFault;
use crate::standard::standard_monomials;
use alg_core::{BlockOrder, Field, Mono, Space};
use poly_module::Poly;
use std::alloc::Global;
use std::marker::Model;

/// The polynomials in some variables as a free module over the algebra of polynomials theta: the
/// standard monomials of the ideal of theta are a basis.
#[derive(Drop)]
pub struct PrimaryModule<E> {
    theta: Vec<Poly<E>>,
    lifts: Vec<Poly<E>>,
    monomials: Vec<Mono>,
}

impl<E> Model for PrimaryModule<E> {
    ghost use Rattle.primary_module.specs.PrimaryModules.{Primaries};

    ghost Value = { Primaries E };

    ghost view = { λ m. record { theta = m.theta.items; lifts = m.lifts.items; monomials = m.monomials.items } };
}

impl<E: Copy> PrimaryModule<E> {
    /// The module of theta and the lifts of their relations, by falling lead. RankBound comes exactly
    /// where there are more than `max_rank` standard monomials; `max_rank` is at most 4096.
    /// (Derksen and Kemper, Computational Invariant Theory, section 3.5.)
    pub fn new<F: Field<Elem = E>>(
        alloc: Global,
        space: &Space<F, BlockOrder>,
        theta: Vec<Poly<E>>,
        lifts: Vec<Poly<E>>,
        max_rank: u32,
    ) -> Result<PrimaryModule<E>, RankFault>
        requires given { let S = mark_space F.field space.now in
            AreForModule S space.now.order.vars space.now.order.weights.items theta.items lifts.items }
        requires rank { max_rank ≤ rank_limit }
        ensures stands { let S = mark_space F.field space.now in
            IfOk result (λ P. StandsOver S space.now.order.vars space.now.order.weights.items P) }
        ensures theta { IfOk result (λ P. P.theta ≡ theta.items) }
        ensures lifts { IfOk result (λ P. P.lifts ≡ lifts.items) }
        ensures within { IfOk result (λ P. length P.monomials ≤ max_rank) }
        ensures low { IfOk result (λ P. All (λ a. total a < length P.monomials) P.monomials) }
        ensures bound { let S = mark_space F.field space.now in (counted : ℕ) → result ≡ Err (RankFault.RankBound counted)
            → (counted ≡ max_rank + 1) × IsOverRank S.field space.now.order.vars (vectors_of S (λ m. m) theta.items) max_rank }
    {
        let monomials = standard_monomials(
            alloc,
            space,
            theta.as_slice(),
            lifts.as_slice(),
            max_rank,
        )?;
        Ok(PrimaryModule {
            theta,
            lifts,
            monomials,
        })
    }
}

impl<E> PrimaryModule<E> {
    /// The standard monomials, by the exponents of the variables, rising. Takes no memory.
    pub fn monomials(&self) -> &[Mono]
        ensures is { result.now ≡ self.now.monomials }
    {
        self.monomials.as_slice()
    }

    /// The polynomials theta. Takes no memory.
    pub fn theta(&self) -> &[Poly<E>]
        ensures is { result.now ≡ self.now.theta }
    {
        self.theta.as_slice()
    }

    /// The lifts of their relations, by falling lead. Takes no memory.
    pub fn lifts(&self) -> &[Poly<E>]
        ensures is { result.now ≡ self.now.lifts }
    {
        self.lifts.as_slice()
    }
}
