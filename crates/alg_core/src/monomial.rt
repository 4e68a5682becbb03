ghost use Rattle.std.specs.Prelude.{◌≡◌, ℕ, ◌<◌, ◌≤◌, Bool, IsTrue, IsFalse, List, length, slice_index, IfOk, IsOk};
ghost use Rattle.alg_core.specs.ExponentLists.{product, quotient, lcm, divides, Within};

use crate::Memory;
use std::alloc::Global;

/// A monomial, seen as the list of its exponents. The monomials of one space have one length, and
/// two monomials in a call are of one space.
pub trait Monomial: Drop {
    /// The greatest exponent that a monomial of this kind can have.
    const MAX_EXP: u32;

    ghost MAX_EXP: { ℕ };

    /// Whether `product`, `quotient`, `lcm` and `copy` may answer Memory.
    const TAKES_MEMORY: bool;

    ghost TAKES_MEMORY: { Bool };

    /// The exponents, that of the first variable first.
    ghost exps: { Self → List ℕ };

    /// The exponent of variable i, from 0.
    fn exp(&self, i: usize) -> u32
        requires within { i < length (exps self.now) }
        ensures is { result ≡ slice_index (exps self.now) i }
        ensures bounded { result ≤ MAX_EXP };

    /// How many exponents there are.
    fn len(&self) -> usize
        ensures is { result ≡ length (exps self.now) };

    fn product(&self, alloc: Global, b: &Self) -> Result<Self, Memory>
        requires same { length (exps self.now) ≡ length (exps b.now) }
        requires fits { Within MAX_EXP (product (exps self.now) (exps b.now)) }
        ensures ok { IfOk result (λ m. exps m ≡ product (exps self.now) (exps b.now)) }
        ensures free { IsFalse TAKES_MEMORY → IsOk result };

    /// Whether this monomial divides the other.
    fn divides(&self, b: &Self) -> bool
        requires same { length (exps self.now) ≡ length (exps b.now) }
        ensures is { result ≡ divides (exps self.now) (exps b.now) };

    /// This monomial divided by the other.
    fn quotient(&self, alloc: Global, b: &Self) -> Result<Self, Memory>
        requires same { length (exps self.now) ≡ length (exps b.now) }
        requires divides { IsTrue (divides (exps b.now) (exps self.now)) }
        ensures ok { IfOk result (λ m. exps m ≡ quotient (exps self.now) (exps b.now)) }
        ensures free { IsFalse TAKES_MEMORY → IsOk result };

    /// The least common multiple.
    fn lcm(&self, alloc: Global, b: &Self) -> Result<Self, Memory>
        requires same { length (exps self.now) ≡ length (exps b.now) }
        ensures ok { IfOk result (λ m. exps m ≡ lcm (exps self.now) (exps b.now)) }
        ensures free { IsFalse TAKES_MEMORY → IsOk result };

    fn copy(&self, alloc: Global) -> Result<Self, Memory>
        ensures ok { IfOk result (λ m. exps m ≡ exps self.now) }
        ensures free { IsFalse TAKES_MEMORY → IsOk result };
}
