ghost use Rattle.std.specs.Prelude.{◌≡◌, ℕ, List, [], ◌∷◌, length, IfOk, IfErr, None};
ghost use Rattle.alg_core.specs.Spaces.{over, IsPlace};
ghost use Rattle.alg_core.specs.declared.term.Term.{Term as CodeTerm};
ghost use Rattle.poly_module.specs.SpaceVectors.{HasPolynomials};
ghost use Rattle.poly_text.specs.Faults.{IsTextFault, IsRead};
ghost use Rattle.poly_text.specs.Syntax.{HasMonomialText};
ghost use Rattle.poly_text.specs.Texts.{place_count, monomial_in};
ghost use Rattle.poly_text.specs.Values.{IsReadable, AreDistinct};

use crate::fault::TextFault;
use crate::names::Names;
use crate::read::read_poly;
use alg_core::{Field, Memory, Mono, Monomial, Space, Term, TermOrder};
use prime_field::PrimeField;
use std::alloc::Global;

/// The monomial that a monomial's text prints, or the first fault of its values: those of the term of a polynomial
/// without a coefficient. `is_monomial_text` tells whether it is such a text.
pub fn read_monomial<O: TermOrder>(
    alloc: Global,
    space: &Space<PrimeField, O>,
    names: &Names,
    text: &[u8],
) -> Result<Mono, TextFault>
    requires places { length space.now.grading.weights.items ≡ place_count names.now }
    requires distinct { AreDistinct names.now }
    requires polynomials { HasPolynomials (over (⟦<PrimeField as Field>⟧.field) O.order space.now) }
    requires monomial { HasMonomialText text.now }
    ensures place { let S = over (⟦<PrimeField as Field>⟧.field) O.order space.now in IfOk result (λ m. IsPlace S (0, m)) }
    ensures readable { let S = over (⟦<PrimeField as Field>⟧.field) O.order space.now in
        IfOk result (λ m. IsReadable S names.now ((0, m), 1)) }
    ensures printed { IfOk result (λ m. monomial_in names.now m ≡ text.now) }
    ensures every { let S = over (⟦<PrimeField as Field>⟧.field) O.order space.now in
        (a : List ℕ) → IsPlace S (0, a) → IsReadable S names.now ((0, a), 1) → monomial_in names.now a ≡ text.now
        → IsRead (λ m. m) result a }
    ensures fault { let S = over (⟦<PrimeField as Field>⟧.field) O.order space.now in IfErr result (IsTextFault None S names.now text.now) }
{
    names.tell();
    let polynomial = read_poly(alloc, space, names, text)?;
    let mono = monomial_of(alloc, polynomial.terms())?;
    Ok(mono)
}

/// The monomial of the one term.
fn monomial_of(alloc: Global, terms: &[Term<u16, Mono>]) -> Result<Mono, Memory>
    requires one { length terms.now ≡ 1 }
    ensures is { (t : CodeTerm ℕ (List ℕ)) → terms.now ≡ t ∷ [] → IfOk result (λ m. m ≡ t.at.mono) }
{
    let term = &terms[0];
    let mono = term.at.mono.copy(alloc)?;
    Ok(mono)
}
