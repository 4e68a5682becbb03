ghost use Rattle.std.specs.Prelude.{◌≡◌, ◌≤◌, Err, IfOk};
ghost use Rattle.alg_core.specs.Spaces.{over};
ghost use Rattle.poly_module.specs.Modules.{InModule, listed};
ghost use Rattle.poly_module.specs.ReducedLists.{IsReducedBasis};
ghost use Rattle.poly_module.specs.SpaceVectors.{IsPositive, AreVectors, vectors_of};
ghost use Rattle.module_groebner.specs.declared.bound.BasisBound.{BasisBound};
ghost use Rattle.module_groebner.specs.HomogeneousLists.{degree_limit, cap_limit, AreHomogeneousUpTo};
ghost use Rattle.module_groebner.specs.BasisBounds.{NothingAbove, IsBasisBound};

use crate::bound::{BasisFault, Which};
use crate::completion::{Completion, Step};
use alg_core::{Field, Mono, Space, TermOrder};
use poly_module::Vector;
use std::alloc::Global;

/// The reduced basis of the module of the generators, which are homogeneous, by falling lead. Above
/// comes exactly where that basis has a member of a degree over the cap: it names an element of the
/// module that shows it, of the least degree that such an element has.
pub fn reduced_basis<F: Field, O: TermOrder>(
    alloc: Global,
    space: &Space<F, O>,
    gens: &[Vector<F::Elem, Mono>],
    cap: u32,
) -> Result<Vec<Vector<F::Elem, Mono>>, BasisFault<F::Elem>>
    requires positive { IsPositive (over F.field O.order space.now) }
    requires cap { cap ≤ cap_limit }
    requires generators { AreVectors (over F.field O.order space.now) (λ m. m) gens.now }
    requires homogeneous { let S = over F.field O.order space.now in
        AreHomogeneousUpTo S degree_limit (vectors_of S (λ m. m) gens.now) }
    ensures fit { IfOk result (λ vs. AreVectors (over F.field O.order space.now) (λ m. m) vs.items) }
    ensures reduced { let S = over F.field O.order space.now in let of = vectors_of S (λ m. m) in
        IfOk result (λ vs. IsReducedBasis S (listed S.field (of gens.now)) (of vs.items)) }
    ensures homogeneous { let S = over F.field O.order space.now in
        IfOk result (λ vs. AreHomogeneousUpTo S cap (vectors_of S (λ m. m) vs.items)) }
    ensures within { let S = over F.field O.order space.now in
        let U = InModule S.field (listed S.field (vectors_of S (λ m. m) gens.now)) in
        IfOk result (λ _. NothingAbove S U cap) }
    ensures above { let S = over F.field O.order space.now in
        let U = InModule S.field (listed S.field (vectors_of S (λ m. m) gens.now)) in
        (b : BasisBound F.Elem) → result ≡ Err (BasisFault.Above b)
        → IsBasisBound S U cap Which.Ideal b }
{
    let mut completion = Completion::new(alloc, space, gens, cap)?;
    loop {
        match completion.advance(space)? {
            Step::Finished => break,
            Step::Above(bound) => return Err(BasisFault::Above(bound)),
            Step::More => {}
        }
    }
    match completion.finish(space) {
        Ok(basis) => Ok(basis),
        Err(_) => Err(BasisFault::Memory),
    }
}
