ghost use Rattle.std.specs.Prelude.{◌≡◌, ◌↔◌, IsTrue, IsFalse, IfOk, IsOk, length};
ghost use Rattle.alg_core.specs.Monomials.{mono};
ghost use Rattle.alg_core.specs.Keys.{key, times_key, KeyDivides};
ghost use Rattle.alg_core.specs.CommonMultiples.{common_multiple};
ghost use Rattle.alg_core.specs.Spaces.{place, entry};

use crate::{Memory, Monomial};
use std::alloc::Global;

/// A monomial at a position, from 0. A polynomial has position 0 alone.
#[derive(Drop)]
pub struct ModTerm<M> {
    pub pos: u64,
    pub mono: M,
}

/// A coefficient at a monomial of a position.
#[derive(Drop)]
pub struct Term<E, M> {
    pub coef: E,
    pub at: ModTerm<M>,
}

impl<M: Monomial> ModTerm<M> {
    /// Whether some monomial times this term is the other.
    pub fn divides(&self, b: &ModTerm<M>) -> bool
        requires same { length (M.exps self.now.mono) ≡ length (M.exps b.now.mono) }
        ensures is { IsTrue result ↔ KeyDivides (key (place M.exps self.now)) (key (place M.exps b.now)) }
    {
        self.pos == b.pos && self.mono.divides(&b.mono)
    }

    /// The monomial that takes the other term to this one.
    pub fn quotient(&self, alloc: Global, b: &ModTerm<M>) -> Result<M, Memory>
        requires same { length (M.exps self.now.mono) ≡ length (M.exps b.now.mono) }
        requires divides { KeyDivides (key (place M.exps b.now)) (key (place M.exps self.now)) }
        ensures is { IfOk result (λ m. times_key (mono (M.exps m)) (key (place M.exps b.now)) ≡ key (place M.exps self.now)) }
        ensures length { IfOk result (λ m. length (M.exps m) ≡ length (M.exps self.now.mono)) }
        ensures free { IsFalse M.TAKES_MEMORY → IsOk result }
    {
        let monomial = self.mono.quotient(alloc, &b.mono)?;
        Ok(monomial)
    }

    /// The least common multiple of two terms of one position.
    pub fn lcm(&self, alloc: Global, b: &ModTerm<M>) -> Result<ModTerm<M>, Memory>
        requires same { length (M.exps self.now.mono) ≡ length (M.exps b.now.mono) }
        requires position { self.now.pos ≡ b.now.pos }
        ensures is { IfOk result (λ t. key (place M.exps t) ≡ common_multiple (key (place M.exps self.now)) (key (place M.exps b.now))) }
        ensures length { IfOk result (λ t. length (M.exps t.mono) ≡ length (M.exps self.now.mono)) }
        ensures free { IsFalse M.TAKES_MEMORY → IsOk result }
    {
        let mono = self.mono.lcm(alloc, &b.mono)?;
        Ok(ModTerm {
            pos: self.pos,
            mono,
        })
    }

    pub fn copy(&self, alloc: Global) -> Result<ModTerm<M>, Memory>
        ensures is { IfOk result (λ t. place M.exps t ≡ place M.exps self.now) }
        ensures free { IsFalse M.TAKES_MEMORY → IsOk result }
    {
        let mono = self.mono.copy(alloc)?;
        Ok(ModTerm {
            pos: self.pos,
            mono,
        })
    }
}

impl<E: Copy, M: Monomial> Term<E, M> {
    pub fn copy(&self, alloc: Global) -> Result<Term<E, M>, Memory>
        ensures is { IfOk result (λ t. entry M.exps t ≡ entry M.exps self.now) }
        ensures free { IsFalse M.TAKES_MEMORY → IsOk result }
    {
        let at = self.at.copy(alloc)?;
        Ok(Term {
            coef: self.coef,
            at,
        })
    }
}
