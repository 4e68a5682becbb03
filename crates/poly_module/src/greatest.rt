ghost use Rattle.std.specs.Prelude.{◌≡◌, ◌↔◌, IsNone, IfSome, slice_get, option_copied};
ghost use Rattle.alg_core.specs.Fields.{scalar};
ghost use Rattle.alg_core.specs.Keys.{key};
ghost use Rattle.alg_core.specs.Spaces.{over, place, entry, IsTerm};
ghost use Rattle.alg_core.specs.SpaceOrder.{key_order};
ghost use Rattle.alg_core.specs.Vectors.{zero_vector, coef_at};
ghost use Rattle.poly_module.specs.Modules.{LeadBy};
ghost use Rattle.poly_module.specs.SpaceVectors.{vector_of, IsVector};

use crate::vector::Vector;
use alg_core::{Field, Monomial, Space, Term, TermOrder};

/// The lead of the vector: its greatest term. None exactly at zero.
pub fn lead<'a, F: Field, O: TermOrder, M: Monomial>(
    space: &Space<F, O>,
    a: &'a Vector<F::Elem, M>,
) -> Option<&'a Term<F::Elem, M>>
    requires vector { IsVector (over F.field O.order space.now) M.exps a.now }
    ensures first { option_copied result ≡ slice_get a.now 0 }
    ensures none { let S = over F.field O.order space.now in IsNone result ↔ (vector_of S M.exps a.now ≡ zero_vector S.field) }
    ensures lead { let S = over F.field O.order space.now in let x = M.exps in
        IfSome result (λ t. LeadBy S.field (key_order S) (vector_of S x a.now) (key (place x t.now.at))) }
    ensures coefficient { let S = over F.field O.order space.now in let x = M.exps in
        IfSome result (λ t. coef_at S.field (vector_of S x a.now) (key (place x t.now.at)) ≡ scalar S.field t.now.coef) }
    ensures term { IfSome result (λ t. IsTerm (over F.field O.order space.now) (entry M.exps t.now)) }
{
    let _ = space;
    a.terms().first()
}
