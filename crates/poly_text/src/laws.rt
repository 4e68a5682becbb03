ghost use Rattle.std.specs.Prelude.{◌≡◌, ℕ, List, All, length};
ghost use Rattle.alg_core.specs.Spaces.{over, Fits};
ghost use Rattle.alg_core.specs.Vectors.{Entry};
ghost use Rattle.poly_text.specs.Syntax.{Term, IsText};
ghost use Rattle.poly_text.specs.Texts.{place_count, polynomial_text};
ghost use Rattle.poly_text.specs.Values.{AreDistinct, IsReadable};

use crate::names::Names;
use alg_core::{Field, Space, TermOrder};
use prime_field::PrimeField;

/// A text has one tree.
pub fn trees_of_texts()
    ensures one { (text : List ℕ) (ts us : List Term) → IsText ts text → IsText us text → ts ≡ us }
{}

/// Polynomials within the bounds that have the same printed text are equal.
pub fn printed_texts<O: TermOrder>(space: &Space<PrimeField, O>, names: &Names)
    requires places { let S = over (⟦<PrimeField as Field>⟧.field) O.order space.now in length S.weights ≡ place_count names.now }
    requires distinct { AreDistinct names.now }
    ensures one { let S = over (⟦<PrimeField as Field>⟧.field) O.order space.now in (es fs : List (Entry ℕ))
        → Fits S es → All (λ e. e.0.0 ≡ 0) es → All (IsReadable S names.now) es
        → Fits S fs → All (λ e. e.0.0 ≡ 0) fs → All (IsReadable S names.now) fs
        → polynomial_text S names.now es ≡ polynomial_text S names.now fs → es ≡ fs }
{
    let _ = space;
    names.tell();
}
