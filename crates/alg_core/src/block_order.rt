ghost use Rattle.std.specs.Prelude.{◌≡◌, ◌≤◌, length, take, replicate};
ghost use Rattle.alg_core.specs.DpOrder.{dp_compare};

use crate::dp::compare_weighted;
use crate::exponents::{compare_reversed, plain_degree};
use crate::{ModTerm, Monomial, TermOrder};
use std::cmp::Ordering;

/// The block order of polynomials in the variables of the ring and in marks: the exponents of the
/// first `vars` variables are compared by `dp` with weights 1, and at equality those of the marks by
/// `dp` with `weights`, one for each mark. At equal monomials the earlier position is greater.
#[derive(Drop)]
pub struct BlockOrder {
    pub vars: u32,
    pub weights: Vec<u32>,
}

impl TermOrder for BlockOrder {
    ghost use Rattle.alg_core.specs.BlockOrder.{block_order};

    ghost order = { λ o. block_order o.vars o.weights.items };

    fn fits<M: Monomial>(&self, t: &ModTerm<M>) -> bool {
        let vars = self.vars as usize;
        t.mono.len() >= vars && t.mono.len() - vars == self.weights.len()
    }

    fn is_positive(&self) -> bool {
        self.weights.iter().all(|w| *w != 0)
    }

    fn compare<M: Monomial>(&self, a: &ModTerm<M>, b: &ModTerm<M>) -> Ordering {
        let vars = self.vars as usize;
        let by_variables = compare_variables(vars, &a.mono, &b.mono);
        if !by_variables.is_eq() {
            return by_variables;
        }
        compare_weighted(self.weights.as_slice(), vars, a, b)
    }
}

/// By `dp` with weights 1 of the first `vars` exponents.
fn compare_variables<M: Monomial>(vars: usize, a: &M, b: &M) -> Ordering
    requires left { vars ≤ length (M.exps a.now) }
    requires right { vars ≤ length (M.exps b.now) }
    ensures is { result ≡ dp_compare (replicate vars 1) (0, take vars (M.exps a.now)) (0, take vars (M.exps b.now)) }
{
    let by_degree = plain_degree(vars, a).cmp(&plain_degree(vars, b));
    if !by_degree.is_eq() {
        return by_degree;
    }
    compare_reversed(0, vars, a, b)
}
