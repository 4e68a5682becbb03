//! Invariants as they are written: combinations and words, of which each is known to be there.

ghost use Rattle.std.specs.Prelude.{◌≡◌, ◌≤◌, ◌<◌, ◌-◌, [], Some, IfOk, All, get_or, length, map};
ghost use Rattle.alg_core.specs.Spaces.{over, entries};
ghost use Rattle.poly_module.specs.Combinations.{Over};
ghost use Rattle.poly_module.specs.SpaceVectors.{HasPolynomials, vector_of, vectors_of};
ghost use Rattle.secondary_gens.specs.Combined.{IsCombined};
ghost use Rattle.secondary_gens.specs.Forms.{IsPositiveForm, IsSmallForm};
ghost use Rattle.secondary_gens.specs.Lists.{Each};
ghost use Rattle.irreducible_gens.specs.Algebras.{InAlgebra};
ghost use Rattle.irreducible_gens.specs.Words.{IsWordOf};
ghost use Rattle.invring_app.specs.WrittenParts.{AreWritable, AreWritten};

use super::present::present;
use alg_core::{Field, Memory, Space, TermOrder};
use irreducible_gens::{choose, words};
use poly_module::{Comb, Poly, copy};
use secondary_gens::combine_all;
use std::alloc::Global;

/// The printed combinations of forms that are combinations.
fn combinations<F: Field, O: TermOrder>(
    alloc: Global,
    space: &Space<F, O>,
    theta: &[Poly<F::Elem>],
    secs: &[Poly<F::Elem>],
    fs: &[Poly<F::Elem>],
) -> Result<Vec<Comb<F::Elem>>, Memory>
    requires polynomials { HasPolynomials (over F.field O.order space.now) }
    requires primaries { All (IsPositiveForm (over F.field O.order space.now)) theta.now }
    requires secondaries { All (IsSmallForm (over F.field O.order space.now)) secs.now }
    requires forms { All (IsSmallForm (over F.field O.order space.now)) fs.now }
    requires over { let S = over F.field O.order space.now in let x = vectors_of S (λ m. m) in
        All (λ f. Over S.field (x theta.now) (x secs.now) (vector_of S (λ m. m) f)) fs.now }
    ensures each { let S = over F.field O.order space.now in
        IfOk result (λ cs. Each (λ f c. IsCombined S theta.now secs.now f (Some c)) fs.now cs.items) }
{
    let found = combine_all(alloc, space, theta, secs, fs)?;
    let combinations = present(alloc, found)?;
    Ok(combinations)
}

/// The printed words of forms that are polynomials in the primary invariants and the generators.
pub(crate) fn word_list<F: Field, O: TermOrder>(
    alloc: Global,
    space: &Space<F, O>,
    theta: &[Poly<F::Elem>],
    irr: &[Poly<F::Elem>],
    fs: &[Poly<F::Elem>],
) -> Result<Vec<Poly<F::Elem>>, Memory>
    requires polynomials { HasPolynomials (over F.field O.order space.now) }
    requires primaries { All (IsPositiveForm (over F.field O.order space.now)) theta.now }
    requires irreducibles { All (IsPositiveForm (over F.field O.order space.now)) irr.now }
    requires forms { All (IsSmallForm (over F.field O.order space.now)) fs.now }
    requires inside { let S = over F.field O.order space.now in let x = vectors_of S (λ m. m) in
        All (λ f. InAlgebra S.field (x theta.now) (x irr.now) (vector_of S (λ m. m) f)) fs.now }
    ensures each { let S = over F.field O.order space.now in
        IfOk result (λ ws. Each (λ f w. IsWordOf S theta.now irr.now f (Some w)) fs.now ws.items) }
{
    let found = words(alloc, space, theta, irr, fs)?;
    let list = present(alloc, found)?;
    Ok(list)
}

/// The polynomials at these places, from 1.
pub(crate) fn at_places<E: Copy>(
    alloc: Global,
    fs: &[Poly<E>],
    places: &[u64],
) -> Result<Vec<Poly<E>>, Memory>
    requires within { All (λ p. (0 < p) × (p ≤ length fs.now)) places.now }
    ensures copies { let list = entries (λ m. m) in
        IfOk result (λ qs. map list qs.items ≡ map (λ p. list (get_or fs.now (p - 1) [])) places.now) }
{
    let mut chosen = Vec::new(alloc);
    for i in 0..places.len() {
        let place = (places[i] - 1) as usize;
        let f = &fs[place];
        chosen.push(copy(alloc, f)?)?;
    }
    Ok(chosen)
}

/// Copies of the polynomials.
pub(crate) fn copies<E: Copy>(alloc: Global, fs: &[Poly<E>]) -> Result<Vec<Poly<E>>, Memory>
    ensures same { let list = entries (λ m. m) in IfOk result (λ qs. map list qs.items ≡ map list fs.now) }
{
    let mut made = Vec::new(alloc);
    for i in 0..fs.len() {
        let f = &fs[i];
        made.push(copy(alloc, f)?)?;
    }
    Ok(made)
}

/// What is written of the secondary invariants and of forms that generate: the combinations of the forms, the
/// irreducible generators and the words, one for each secondary invariant.
#[derive(Drop)]
pub(crate) struct Written<E> {
    pub(crate) combs: Vec<Comb<E>>,
    pub(crate) irreducibles: Vec<Poly<E>>,
    pub(crate) words: Vec<Poly<E>>,
}

/// The combinations of the forms, the irreducible generators and the words.
pub(crate) fn written_parts<F: Field, O: TermOrder>(
    alloc: Global,
    space: &Space<F, O>,
    theta: &[Poly<F::Elem>],
    forms: &[Poly<F::Elem>],
    secondaries: &[Poly<F::Elem>],
) -> Result<Written<F::Elem>, Memory>
    requires polynomials { HasPolynomials (over F.field O.order space.now) }
    requires given { AreWritable (over F.field O.order space.now) theta.now forms.now secondaries.now }
    ensures are { let S = over F.field O.order space.now in
        IfOk result (λ w. AreWritten S theta.now forms.now secondaries.now w.combs.items w.irreducibles.items w.words.items) }
{
    let combs = combinations(alloc, space, theta, secondaries, forms)?;
    let places = choose(alloc, space, theta, secondaries)?;
    let irreducibles = at_places(alloc, secondaries, places.as_slice())?;
    let words = word_list(alloc, space, theta, irreducibles.as_slice(), secondaries)?;
    Ok(Written {
        combs,
        irreducibles,
        words,
    })
}
