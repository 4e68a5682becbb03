ghost use Rattle.std.specs.Prelude.{◌≡◌, ◌≤◌};
ghost use Rattle.alg_core.specs.Binomials.{monomials_of_degree};

/// How many monomials of this degree there are. Each turn takes the count for one variable more.
pub(crate) fn monomial_count(variables: u32, degree: u32) -> u128
    requires positive { 1 ≤ variables }
    requires few { variables ≤ 12 }
    requires degree { degree ≤ 12288 }
    ensures is { result ≡ monomials_of_degree variables degree }
{
    let mut count = 1;
    for i in 1..variables {
        count = count * u128::from(degree + i) / u128::from(i);
    }
    count
}
