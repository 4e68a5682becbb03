ghost use Rattle.std.specs.Prelude.{◌≡◌, ◌+◌, length, drop};
ghost use Rattle.alg_core.specs.DpOrder.{dp_compare};

use crate::exponents::{compare_reversed, weighted_degree};
use crate::{ModTerm, Monomial, TermOrder};
use std::cmp::Ordering;

/// Degree reverse lexicographic, by weighted degrees: one weight for each variable. The monomials
/// are compared first; at equal monomials the earlier position is greater. (Singular's `dp`.)
#[derive(Drop)]
pub struct Dp {
    pub weights: Vec<u32>,
}

impl TermOrder for Dp {
    ghost use Rattle.alg_core.specs.DpOrder.{dp_order};

    ghost order = { λ o. dp_order o.weights.items };

    fn fits<M: Monomial>(&self, t: &ModTerm<M>) -> bool {
        t.mono.len() == self.weights.len()
    }

    fn is_positive(&self) -> bool {
        self.weights.iter().all(|w| *w != 0)
    }

    fn compare<M: Monomial>(&self, a: &ModTerm<M>, b: &ModTerm<M>) -> Ordering {
        compare_weighted(self.weights.as_slice(), 0, a, b)
    }
}

/// By weighted `dp` of the exponents from `from` on, one for each weight, then the earlier position.
pub(crate) fn compare_weighted<M: Monomial>(
    weights: &[u32],
    from: usize,
    a: &ModTerm<M>,
    b: &ModTerm<M>,
) -> Ordering
    requires left { length (M.exps a.now.mono) ≡ from + length weights.now }
    requires right { length (M.exps b.now.mono) ≡ from + length weights.now }
    ensures is { result ≡ dp_compare weights.now (a.now.pos, drop from (M.exps a.now.mono)) (b.now.pos, drop from (M.exps b.now.mono)) }
{
    let by_degree = weighted_degree(weights, from, &a.mono).cmp(&weighted_degree(
        weights, from, &b.mono,
    ));
    if !by_degree.is_eq() {
        return by_degree;
    }
    let by_exponents = compare_reversed(from, a.mono.len(), &a.mono, &b.mono);
    if !by_exponents.is_eq() {
        return by_exponents;
    }
    b.pos.cmp(&a.pos)
}
