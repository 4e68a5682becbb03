ghost use Rattle.std.specs.Prelude.{◌≡◌, ◌<◌, ◌↔◌, ℕ, IsTrue, IfNone, IfSome, length, slice_index};
ghost use Rattle.alg_core.specs.Spaces.{over};
ghost use Rattle.poly_module.specs.SpaceVectors.{ArePolys, vectors_of};
ghost use Rattle.groebner_hom.specs.LeadPowers.{IsPowerOf, HasPowerLead};

use alg_core::{Field, Mono, Monomial, Space, TermOrder};
use poly_module::{Poly, lead};

/// Whether the monomial is a power of variable i.
fn is_power(mono: &Mono, i: usize) -> bool
    ensures exact { IsTrue result ↔ IsPowerOf i mono.now }
{
    for j in 0..mono.len() {
        if j != i && mono.exp(j) > 0 {
            return false;
        }
    }
    true
}

/// Whether the lead of some member is a power of variable i.
fn has_power_lead<F: Field, O: TermOrder>(
    space: &Space<F, O>,
    basis: &[Poly<F::Elem>],
    i: usize,
) -> bool
    requires polynomials { ArePolys (over F.field O.order space.now) (λ m. m) basis.now }
    ensures exact { let S = over F.field O.order space.now in
        IsTrue result ↔ HasPowerLead S (vectors_of S (λ m. m) basis.now) i }
{
    for j in 0..basis.len() {
        let member = &basis[j];
        if let Some(term) = lead(space, member) {
            if is_power(&term.at.mono, i) {
                return true;
            }
        }
    }
    false
}

/// The first variable of which no lead of a member is a power. Where the members are a Gröbner basis
/// of an ideal of homogeneous polynomials, no power of this variable lies in the ideal, and where there
/// is none, each variable has one there.
/// (Derksen and Kemper, Computational Invariant Theory, section 1.2.)
pub(crate) fn powerless_variable<F: Field, O: TermOrder>(
    space: &Space<F, O>,
    basis: &[Poly<F::Elem>],
) -> Option<usize>
    requires polynomials { ArePolys (over F.field O.order space.now) (λ m. m) basis.now }
    ensures none { let S = over F.field O.order space.now in
        IfNone result ((i : ℕ) → i < length S.weights → HasPowerLead S (vectors_of S (λ m. m) basis.now) i) }
    ensures some { let S = over F.field O.order space.now in
        IfSome result (λ i. (i < length S.weights) × (¬ HasPowerLead S (vectors_of S (λ m. m) basis.now) i)) }
{
    for i in 0..space.grading.weights.len() {
        if !has_power_lead(space, basis, i) {
            return Some(i);
        }
    }
    None
}
