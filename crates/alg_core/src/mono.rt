ghost use Rattle.std.specs.Prelude.{◌≡◌, ℕ, List, true, IfOk};

use crate::{Memory, Monomial};
use smallvec::SmallVec;
use std::alloc::Global;
use std::marker::Model;

/// A monomial as its exponents. Up to 16 of them, those of a polynomial in eight variables and as
/// many marks, stand in the value itself.
#[derive(Drop)]
pub struct Mono {
    exponents: SmallVec<u32, 16>,
}

impl Model for Mono {
    ghost Value = { List ℕ };

    ghost view = { λ m. m.exponents.items };
}

impl Mono {
    /// The monomial with these exponents, that of the first variable first.
    pub fn from_exps(alloc: Global, exps: &[u32]) -> Result<Mono, Memory>
        ensures is { IfOk result (λ m. m ≡ exps.now) }
    {
        Ok(Mono {
            exponents: SmallVec::from_slice(alloc, exps)?,
        })
    }
}

impl Monomial for Mono {
    const MAX_EXP: u32 = 4294967295;

    ghost MAX_EXP = { 4294967295 };

    const TAKES_MEMORY: bool = true;

    ghost TAKES_MEMORY = { true };

    ghost exps = { λ m. m };

    fn exp(&self, i: usize) -> u32 {
        self.exponents[i]
    }

    fn len(&self) -> usize {
        self.exponents.len()
    }

    #[tactic(auto, using(crate::proofs::ExponentSteps::sum_fits, crate::proofs::ExponentSteps::merged_all))]
    fn product(&self, alloc: Global, b: &Self) -> Result<Self, Memory> {
        let xs = self.exponents.as_slice();
        let ys = b.exponents.as_slice();
        let mut exponents = SmallVec::with_capacity(alloc, xs.len())?;
        for i in 0..xs.len() {
            exponents.push(xs[i] + ys[i])?;
        }
        Ok(Mono { exponents })
    }

    fn divides(&self, b: &Self) -> bool {
        for i in 0..self.exponents.len() {
            if self.exponents[i] > b.exponents[i] {
                return false;
            }
        }
        true
    }

    #[tactic(auto, using(crate::proofs::ExponentSteps::divides_at, crate::proofs::ExponentSteps::merged_all))]
    fn quotient(&self, alloc: Global, b: &Self) -> Result<Self, Memory> {
        let xs = self.exponents.as_slice();
        let ys = b.exponents.as_slice();
        let mut exponents = SmallVec::with_capacity(alloc, xs.len())?;
        for i in 0..xs.len() {
            exponents.push(xs[i] - ys[i])?;
        }
        Ok(Mono { exponents })
    }

    #[tactic(auto, using(crate::proofs::ExponentSteps::merged_all))]
    fn lcm(&self, alloc: Global, b: &Self) -> Result<Self, Memory> {
        let xs = self.exponents.as_slice();
        let ys = b.exponents.as_slice();
        let mut exponents = SmallVec::with_capacity(alloc, xs.len())?;
        for i in 0..xs.len() {
            exponents.push(xs[i].max(ys[i]))?;
        }
        Ok(Mono { exponents })
    }

    fn copy(&self, alloc: Global) -> Result<Self, Memory> {
        Ok(Mono {
            exponents: SmallVec::from_slice(alloc, self.exponents.as_slice())?,
        })
    }
}
