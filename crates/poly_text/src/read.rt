ghost use Rattle.std.specs.Prelude.{◌≡◌, ◌≢◌, ◌<◌, ℕ, List, [], ◌∷◌, length, get_or, map, replicate, All, IfOk, IfErr, None};
ghost use Rattle.alg_core.specs.Spaces.{over, entries, Fits};
ghost use Rattle.poly_module.specs.SpaceVectors.{IsPoly, HasPolynomials};
ghost use Rattle.alg_core.specs.Vectors.{Entry};
ghost use Rattle.poly_text.specs.Faults.{IsTextFault, IsRead};
ghost use Rattle.poly_text.specs.Syntax.{Term, IsText};
ghost use Rattle.poly_text.specs.Texts.{place_count, polynomial_text};
ghost use Rattle.poly_text.specs.Values.{IsReadable, entry_of, first_fault, AreDistinct};

use crate::fault::TextFault;
use crate::names::Names;
use crate::scan::syntax_tree;
use crate::values::polynomial_of;
use alg_core::{Field, Space, TermOrder};
use poly_module::Poly;
use prime_field::PrimeField;
use std::alloc::Global;

/// The polynomial that a text prints, or the first fault of the text.
///
/// The texts that are read are those that `print_poly` prints of the polynomials whose weighted degree and
/// exponents are at most 4096 and whose indices have at most 5 digits. Of any other text the fault is `Syntax` where
/// it is none of the grammar, else `Value`. The time is linear in the text and the exponents that are read.
pub fn read_poly<O: TermOrder>(
    alloc: Global,
    space: &Space<PrimeField, O>,
    names: &Names,
    text: &[u8],
) -> Result<Poly<u16>, TextFault>
    requires places { length space.now.grading.weights.items ≡ place_count names.now }
    requires distinct { AreDistinct names.now }
    requires polynomials { HasPolynomials (over (⟦<PrimeField as Field>⟧.field) O.order space.now) }
    ensures polynomial { IfOk result (IsPoly (over (⟦<PrimeField as Field>⟧.field) O.order space.now) (λ m. m)) }
    ensures readable { let S = over (⟦<PrimeField as Field>⟧.field) O.order space.now in
        IfOk result (λ f. All (IsReadable S names.now) (entries (λ m. m) f)) }
    ensures printed { let S = over (⟦<PrimeField as Field>⟧.field) O.order space.now in
        IfOk result (λ f. polynomial_text S names.now (entries (λ m. m) f) ≡ text.now) }
    ensures every { let S = over (⟦<PrimeField as Field>⟧.field) O.order space.now in
        (es : List (Entry ℕ)) → Fits S es → All (λ e. e.0.0 ≡ 0) es → All (IsReadable S names.now) es
        → polynomial_text S names.now es ≡ text.now → IsRead (entries (λ m. m)) result es }
    ensures fault { let S = over (⟦<PrimeField as Field>⟧.field) O.order space.now in IfErr result (IsTextFault None S names.now text.now) }
{
    names.tell();
    let terms = syntax_tree(alloc, text)?;
    let polynomial = polynomial_of(alloc, space, names, &terms)?;
    Ok(polynomial)
}
