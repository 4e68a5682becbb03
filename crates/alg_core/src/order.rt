ghost use Rattle.std.specs.Prelude.{◌≡◌, length};
ghost use Rattle.alg_core.specs.PlaceOrders.{PlaceOrder, FitsAt};

use crate::{ModTerm, Monomial};
use std::cmp::Ordering;

/// An order of terms, the same for each kind of monomial. No call takes memory.
pub trait TermOrder: Drop {
    /// What the calls compute, on the position and the exponents of a term, with the laws.
    ghost order: { Self → PlaceOrder };

    /// Whether the term is one of those that the order is for: it depends on the position and on how
    /// many exponents there are.
    fn fits<M: Monomial>(&self, t: &ModTerm<M>) -> bool
        ensures is { result ≡ (order self.now).fits t.now.pos (length (M.exps t.now.mono)) };

    /// Whether no weight is 0, so that a multiple is never smaller.
    fn is_positive(&self) -> bool
        ensures is { result ≡ (order self.now).is_positive };

    fn compare<M: Monomial>(&self, a: &ModTerm<M>, b: &ModTerm<M>) -> Ordering
        requires left { FitsAt (order self.now) (a.now.pos, M.exps a.now.mono) }
        requires right { FitsAt (order self.now) (b.now.pos, M.exps b.now.mono) }
        ensures is { result ≡ (order self.now).compare (a.now.pos, M.exps a.now.mono) (b.now.pos, M.exps b.now.mono) };
}
