//! The irreducible generators among the secondary invariants, and the words of these.

ghost use Rattle.std.specs.Prelude.{◌≡◌, ◌↔◌, ◌<◌, ◌++◌, ℕ, List, All, IfOk, IfErr, IsTrue, length, map};
ghost use Rattle.alg_core.specs.LimitRanges.{AreLimits};
ghost use Rattle.alg_core.specs.Lists.{In};
ghost use Rattle.alg_core.specs.Spaces.{over as space_over, entries};
ghost use Rattle.alg_core.specs.declared.term.Term.{Term};
ghost use Rattle.poly_module.specs.Sizes.{HasRoomIn};
ghost use Rattle.poly_module.specs.SpaceVectors.{HasPolynomials, HasVariables, IsPoly, ArePolys, vector_of, vectors_of};
ghost use Rattle.poly_module.specs.Substitutions.{substitute as value_at};
ghost use Rattle.secondary_gens.specs.Forms.{degree_of, IsSmallForm};
ghost use Rattle.cert_check.specs.Conditions.{Words, Reducibility};
ghost use Rattle.cert_check.specs.Endings.{IsGiven, IsFirstFailing, IsTold};
ghost use Rattle.cert_check.specs.Parts.{At};
ghost use Rattle.cert_check.specs.Work.{Reached};

use crate::ending::Ending;
use alg_core::{Dp, Field, Limits, Memory, Space, TermOrder};
use certificate_io::Certificate;
use lin_algebra::Matrix;
use poly_module::{Poly, are_equal, substitute};
use prime_field::PrimeField;
use secondary_gens::degrees::degree;
use secondary_gens::redundance::push_copies;
use std::alloc::Global;

/// Whether the polynomial is one of the list.
fn is_among<F: Field, O: TermOrder>(
    space: &Space<F, O>,
    f: &Poly<F::Elem>,
    list: &[Poly<F::Elem>],
) -> bool
    requires f { IsPoly (space_over F.field O.order space.now) (λ m. m) f.now }
    requires list { ArePolys (space_over F.field O.order space.now) (λ m. m) list.now }
    ensures exact { IsTrue result ↔ In f.now list.now }
{
    for j in 0..list.len() {
        let member = &list[j];
        if are_equal(space, f, member) {
            return true;
        }
    }
    false
}

/// Whether the polynomial is one of the list, and of positive degree.
fn is_positive_member<F: Field, O: TermOrder>(
    space: &Space<F, O>,
    f: &Poly<F::Elem>,
    forms: &[Poly<F::Elem>],
) -> bool
    requires f { IsPoly (space_over F.field O.order space.now) (λ m. m) f.now }
    requires forms { All (IsSmallForm (space_over F.field O.order space.now)) forms.now }
    ensures exact { IsTrue result ↔ (In f.now forms.now × (0 < degree_of f.now)) }
{
    if !is_among(space, f, forms) {
        return false;
    }
    degree(space, f) > 0
}

/// The first place, from 1, whose member is none of the forms or of degree 0.
fn first_stranger<F: Field, O: TermOrder>(
    space: &Space<F, O>,
    irr: &[Poly<F::Elem>],
    forms: &[Poly<F::Elem>],
) -> Option<u64>
    requires polynomials { ArePolys (space_over F.field O.order space.now) (λ m. m) irr.now }
    requires forms { All (IsSmallForm (space_over F.field O.order space.now)) forms.now }
    ensures first { IsFirstFailing (λ i. (q : List (Term F.Elem (List ℕ))) → At irr.now i q → In q forms.now × (0 < degree_of q)) result }
{
    for l in 0..irr.len() {
        let generator = &irr[l];
        if !is_positive_member(space, generator, forms) {
            return Some(l as u64 + 1);
        }
    }
    None
}

/// Copies of both lists of polynomials, one after the other.
fn joined<E: Copy>(
    alloc: Global,
    front: &[Poly<E>],
    back: &[Poly<E>],
) -> Result<Vec<Poly<E>>, Memory>
    ensures copies { let a = map (entries (λ m. m)) in IfOk result (λ ps. a ps.items ≡ a (front.now ++ back.now)) }
{
    let mut joined = Vec::new(alloc);
    push_copies(alloc, &mut joined, front)?;
    push_copies(alloc, &mut joined, back)?;
    Ok(joined)
}

/// The first place, from 1, whose word has not the form there as its value, where the images stand for the
/// marks.
fn first_wrong<F: Field, O: TermOrder>(
    alloc: Global,
    space: &Space<F, O>,
    words: &[Poly<F::Elem>],
    images: &[Poly<F::Elem>],
    forms: &[Poly<F::Elem>],
) -> Result<Option<u64>, Memory>
    requires polynomials { HasPolynomials (space_over F.field O.order space.now) }
    requires variables { All (HasVariables (F.field space.now.field) (λ m. m) (length images.now)) words.now }
    requires room { All (λ w. HasRoomIn 4294967295 (λ m. m) w images.now) words.now }
    requires images { ArePolys (space_over F.field O.order space.now) (λ m. m) images.now }
    requires forms { ArePolys (space_over F.field O.order space.now) (λ m. m) forms.now }
    requires each { length words.now ≡ length forms.now }
    ensures first { let S = space_over F.field O.order space.now in let x = vector_of S (λ m. m) in
        IfOk result (IsFirstFailing (λ j. (u s : List (Term F.Elem (List ℕ))) → At words.now j u → At forms.now j s
        → value_at S.field (vectors_of S (λ m. m) images.now) (x u) ≡ x s)) }
{
    for j in 0..words.len() {
        let word = &words[j];
        let form = &forms[j];
        let value = substitute(alloc, space, word, images)?;
        if !are_equal(space, &value, form) {
            return Ok(Some(j as u64 + 1));
        }
    }
    Ok(None)
}

/// Whether each irreducible generator is a secondary invariant of positive degree, and each word has its
/// secondary invariant as value.
pub(crate) fn check_words(
    alloc: Global,
    space: &Space<PrimeField, Dp>,
    cert: &Certificate<u16>,
    gens: &[Matrix<u16>],
    limits: &Limits,
) -> Result<(), Ending>
    requires given { let S = space_over (⟦<PrimeField as Field>⟧.field) (⟦<Dp as TermOrder>⟧.order) space.now in IsGiven S gens.now cert.now }
    requires limits { AreLimits limits.now }
    requires reached { let S = space_over (⟦<PrimeField as Field>⟧.field) (⟦<Dp as TermOrder>⟧.order) space.now in
        Reached S.field gens.now cert.now limits.now (Words, 0) }
    ensures reached { let S = space_over (⟦<PrimeField as Field>⟧.field) (⟦<Dp as TermOrder>⟧.order) space.now in
        IfOk result (λ _. Reached S.field gens.now cert.now limits.now (Reducibility, 0)) }
    ensures told { IfErr result (IsTold cert.now limits.now) }
{
    let _ = gens;
    let _ = limits;
    let irr = cert.irreducibles.as_slice();
    let secs = cert.secondaries.as_slice();
    if let Some(item) = first_stranger(space, irr, secs) {
        return Err(Ending::Rejected {
            condition: 10,
            item,
        });
    }
    let images = joined(alloc, cert.primaries.as_slice(), irr)?;
    match first_wrong(alloc, space, cert.words.as_slice(), images.as_slice(), secs)? {
        Some(place) => Err(Ending::Rejected {
            condition: 10,
            item: irr.len() as u64 + place,
        }),
        None => Ok(()),
    }
}
