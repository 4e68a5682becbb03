ghost use Rattle.std.specs.Prelude.{◌≡◌, ◌+◌, ◌*◌, ◌≤◌, length, take, drop, replicate};
ghost use Rattle.alg_core.specs.DpOrder.{weighted_degree, reverse_lexicographic};

use crate::Monomial;
use std::cmp::Ordering;

/// The weighted degree of the exponents from `from` on; there is one for each weight.
pub fn weighted_degree<M: Monomial>(weights: &[u32], from: usize, m: &M) -> u128
    requires length { length (M.exps m.now) ≡ from + length weights.now }
    ensures is { result ≡ weighted_degree weights.now (drop from (M.exps m.now)) }
    ensures bounded { result ≤ length weights.now * 18446744065119617025 }
{
    let mut sum = 0;
    for i in from..m.len() {
        sum += weights[i - from] as u128 * m.exp(i) as u128;
    }
    sum
}

/// The degree in the first `to` variables.
pub(crate) fn plain_degree<M: Monomial>(to: usize, m: &M) -> u128
    requires within { to ≤ length (M.exps m.now) }
    ensures is { result ≡ weighted_degree (replicate to 1) (take to (M.exps m.now)) }
{
    let mut sum = 0;
    for i in 0..to {
        sum += m.exp(i) as u128;
    }
    sum
}

/// Which is greater by the exponents from `from` to before `to`: at the last one that differs the
/// smaller exponent is greater.
pub(crate) fn compare_reversed<M: Monomial>(from: usize, to: usize, a: &M, b: &M) -> Ordering
    requires order { from ≤ to }
    requires left { to ≤ length (M.exps a.now) }
    requires right { to ≤ length (M.exps b.now) }
    ensures is { result ≡ reverse_lexicographic (drop from (take to (M.exps a.now))) (drop from (take to (M.exps b.now))) }
{
    let mut i = to;
    while i > from {
        i -= 1;
        let x = a.exp(i);
        let y = b.exp(i);
        if x != y {
            return y.cmp(&x);
        }
    }
    Ordering::Equal
}
