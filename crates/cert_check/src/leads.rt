//! Leads without marks.

ghost use Rattle.std.specs.Prelude.{◌↔◌, IsTrue};
ghost use Rattle.alg_core.specs.Keys.{Key};
ghost use Rattle.alg_core.specs.Monomials.{mono as monomial_of};
ghost use Rattle.alg_core.specs.SpaceOrder.{key_order};
ghost use Rattle.poly_module.specs.Modules.{LeadBy};
ghost use Rattle.poly_module.specs.SpaceVectors.{IsVector, AreVectors, vector_of, vectors_of};
ghost use Rattle.finite_certificate.specs.MarkSpaces.{mark_space, HasMark};
ghost use Rattle.groebner_hom.specs.Lifts.{LeadsWithoutMarks};

use alg_core::{BlockOrder, Field, Mono, Monomial, Space};
use poly_module::{Poly, lead};

/// Whether a variable after the first n has an exponent in the monomial.
fn has_mark(n: usize, mono: &Mono) -> bool
    ensures exact { IsTrue result ↔ HasMark n (0, monomial_of mono.now) }
{
    for i in n..mono.len() {
        if mono.exp(i) > 0 {
            return true;
        }
    }
    false
}

/// Whether the lead of the polynomial has a mark.
fn lead_has_mark<F: Field>(space: &Space<F, BlockOrder>, f: &Poly<F::Elem>) -> bool
    requires vector { IsVector (mark_space F.field space.now) (λ m. m) f.now }
    ensures exact { let S = mark_space F.field space.now in
        IsTrue result ↔ ((t : Key) × LeadBy S.field (key_order S) (vector_of S (λ m. m) f.now) t × HasMark space.now.order.vars t) }
{
    match lead(space, f) {
        None => false,
        Some(term) => has_mark(space.order.vars as usize, &term.at.mono),
    }
}

/// Whether no lead of the polynomials has a mark.
pub(crate) fn leads_are_unmarked<F: Field>(
    space: &Space<F, BlockOrder>,
    fs: &[Poly<F::Elem>],
) -> bool
    requires vectors { AreVectors (mark_space F.field space.now) (λ m. m) fs.now }
    ensures exact { let S = mark_space F.field space.now in
        IsTrue result ↔ LeadsWithoutMarks S space.now.order.vars (vectors_of S (λ m. m) fs.now) }
{
    for i in 0..fs.len() {
        let f = &fs[i];
        if lead_has_mark(space, f) {
            return false;
        }
    }
    true
}
