ghost use Rattle.std.specs.Prelude.{◌≡◌, ℕ, List, All, length, map, IfOk, IfErr, Some, None};
ghost use Rattle.alg_core.specs.Spaces.{over, entries, Fits};
ghost use Rattle.alg_core.specs.Vectors.{Entry};
ghost use Rattle.poly_module.specs.SpaceVectors.{IsVector};
ghost use Rattle.poly_text.specs.Faults.{IsTextFault, IsRead};
ghost use Rattle.poly_text.specs.Syntax.{IsTerm};
ghost use Rattle.poly_text.specs.Trees.{terms_of};
ghost use Rattle.poly_text.specs.Texts.{by_position, combination_text};
ghost use Rattle.poly_text.specs.Values.{HasPositions, IsReadableTerm, mark_names, entry_of, first_fault, Faults};

use crate::fault::TextFault;
use crate::names::Names;
use crate::scan::syntax_tree;
use crate::syntax::TermText;
use crate::values::terms_of_tree;
use alg_core::{Field, Space, TermOrder};
use poly_module::{Comb, make};
use prime_field::PrimeField;
use std::alloc::Global;

/// The combination that a text prints, or the first fault of the text. The space is that of the combinations: a weight for
/// each primary invariant, a shift for each secondary invariant, its degree.
///
/// The texts that are read are those that `print_comb` prints of the combinations whose degrees and exponents are at
/// most 4096 and whose indices have at most 5 digits. Of any other text the fault is `Syntax` where it is none of the
/// grammar, else `Value`.
pub fn read_comb<O: TermOrder>(
    alloc: Global,
    space: &Space<PrimeField, O>,
    text: &[u8],
) -> Result<Comb<u16>, TextFault>
    requires positions { let S = over (⟦<PrimeField as Field>⟧.field) O.order space.now in HasPositions (Some (length S.shifts)) S }
    ensures vector { let S = over (⟦<PrimeField as Field>⟧.field) O.order space.now in
        IfOk result (λ c. IsVector S (λ m. m) c.vector) }
    ensures readable { let S = over (⟦<PrimeField as Field>⟧.field) O.order space.now in
        IfOk result (λ c. All (IsReadableTerm S) (entries (λ m. m) c.vector)) }
    ensures printed { let S = over (⟦<PrimeField as Field>⟧.field) O.order space.now in
        IfOk result (λ c. combination_text S (entries (λ m. m) c.vector) ≡ text.now) }
    ensures every { let S = over (⟦<PrimeField as Field>⟧.field) O.order space.now in
        (es : List (Entry ℕ)) → Fits S es → All (IsReadableTerm S) es → combination_text S es ≡ text.now
        → IsRead (λ c. entries (λ m. m) c.vector) result es }
    ensures fault { let S = over (⟦<PrimeField as Field>⟧.field) O.order space.now in
        IfErr result (IsTextFault (Some (length S.shifts)) S (mark_names (length S.weights)) text.now) }
{
    let terms = syntax_tree(alloc, text)?;
    let combination = combination_of(alloc, space, &terms)?;
    Ok(combination)
}

/// The names of this many marks `@`.
fn mark_names(alloc: Global, primaries: u64) -> Names
    ensures is { result ≡ mark_names primaries }
{
    Names {
        vars: Vec::new(alloc),
        primaries: Some(primaries),
        irreducibles: None,
    }
}

/// The combination of the tree, or the first fault of its values.
fn combination_of<O: TermOrder>(
    alloc: Global,
    space: &Space<PrimeField, O>,
    terms: &[TermText],
) -> Result<Comb<u16>, TextFault>
    requires positions { let S = over (⟦<PrimeField as Field>⟧.field) O.order space.now in HasPositions (Some (length S.shifts)) S }
    requires tree { All IsTerm (terms_of terms.now) }
    ensures fault { let S = over (⟦<PrimeField as Field>⟧.field) O.order space.now in
        Faults result (first_fault (Some (length S.shifts)) S (mark_names (length S.weights)) None 1 (terms_of terms.now)) }
    ensures vector { let S = over (⟦<PrimeField as Field>⟧.field) O.order space.now in
        IfOk result (λ c. IsVector S (λ m. m) c.vector) }
    ensures value { let S = over (⟦<PrimeField as Field>⟧.field) O.order space.now in
        IfOk result (λ c. by_position (length S.shifts) (entries (λ m. m) c.vector)
        ≡ map (entry_of (Some (length S.shifts)) S (mark_names (length S.weights))) (terms_of terms.now)) }
{
    let names = mark_names(alloc, space.grading.weights.len() as u64);
    let secondaries = Some(space.grading.shifts.len() as u64);
    let made = terms_of_tree(alloc, space, &names, secondaries, terms)?;
    let vector = make(alloc, space, made.as_slice())?;
    Ok(Comb { vector })
}
