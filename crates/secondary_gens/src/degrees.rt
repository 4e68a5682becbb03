ghost use Rattle.std.specs.Prelude.{◌≡◌, All, IfOk};
ghost use Rattle.alg_core.specs.Spaces.{over};
ghost use Rattle.secondary_gens.specs.Forms.{degree_of, degrees_of, IsSmallForm};

use alg_core::{Field, Memory, Monomial, Space, TermOrder};
use poly_module::Poly;
use std::alloc::Global;

/// The degree of a homogeneous polynomial, where each variable has the degree 1: 0 for 0.
pub fn degree<F: Field, O: TermOrder>(space: &Space<F, O>, p: &Poly<F::Elem>) -> u32
    requires form { IsSmallForm (over F.field O.order space.now) p.now }
    ensures is { result ≡ degree_of p.now }
{
    let _ = space;
    let terms = p.terms();
    if terms.is_empty() {
        return 0;
    }
    let first = &terms[0];
    let mut sum = 0;
    for i in 0..first.at.mono.len() {
        sum += first.at.mono.exp(i);
    }
    sum
}

/// The degrees of homogeneous polynomials.
pub fn degrees<F: Field, O: TermOrder>(
    alloc: Global,
    space: &Space<F, O>,
    ps: &[Poly<F::Elem>],
) -> Result<Vec<u32>, Memory>
    requires forms { All (IsSmallForm (over F.field O.order space.now)) ps.now }
    ensures are { IfOk result (λ ds. ds.items ≡ degrees_of ps.now) }
{
    let mut degrees = Vec::new(alloc);
    for p in ps {
        degrees.push(degree(space, p))?;
    }
    Ok(degrees)
}
