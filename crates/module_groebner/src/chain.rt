ghost use Rattle.std.specs.Prelude.{◌≡◌, ◌↔◌, false, IsTrue, Contains};
ghost use Rattle.module_groebner.specs.Items.{HasNoPair};

/// Whether the pair is that of these two places in this order.
fn is_pair(pair: (u64, u64), a: u64, b: u64) -> bool
    ensures is { IsTrue result ↔ (pair ≡ (a, b)) }
{
    pair.0 == a && pair.1 == b
}

/// Whether the pair of these two places in this order is one of the list.
fn has_pair(pairs: &[(u64, u64)], a: u64, b: u64) -> bool
    ensures no { result ≡ false → ¬ Contains pairs.now (a, b) }
{
    for i in 0..pairs.len() {
        let pair = pairs[i];
        if is_pair(pair, a, b) {
            return true;
        }
    }
    false
}

/// Whether the list, which has pairs by rising places, has the pair of these two places.
pub(crate) fn is_pending(pairs: &[(u64, u64)], a: u64, b: u64) -> bool
    ensures no { result ≡ false → HasNoPair pairs.now a b }
{
    if a < b {
        has_pair(pairs, a, b)
    } else {
        has_pair(pairs, b, a)
    }
}
