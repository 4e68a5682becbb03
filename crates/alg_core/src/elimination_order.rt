ghost use Rattle.std.specs.Prelude.{◌≡◌, length};

use crate::dp::compare_weighted;
use crate::{ModTerm, Monomial, TermOrder};
use std::cmp::Ordering;

/// The elimination order of terms in two blocks of positions, of which the first has the positions
/// below `first`: each of its terms is greater than each of the second. Inside a block the monomials
/// are compared by `dp` with `weights`, one for each variable, and at equality the earlier position
/// is greater.
#[derive(Drop)]
pub struct ElimOrder {
    pub first: u64,
    pub weights: Vec<u32>,
}

impl TermOrder for ElimOrder {
    ghost use Rattle.alg_core.specs.EliminationOrder.{elimination_order};

    ghost order = { λ o. elimination_order o.first o.weights.items };

    fn fits<M: Monomial>(&self, t: &ModTerm<M>) -> bool {
        t.mono.len() == self.weights.len()
    }

    fn is_positive(&self) -> bool {
        self.weights.iter().all(|w| *w != 0)
    }

    fn compare<M: Monomial>(&self, a: &ModTerm<M>, b: &ModTerm<M>) -> Ordering {
        let a_first = a.pos < self.first;
        let b_first = b.pos < self.first;
        if a_first != b_first {
            return if a_first {
                Ordering::Greater
            } else {
                Ordering::Less
            };
        }
        compare_weighted(self.weights.as_slice(), 0, a, b)
    }
}
