ghost use Rattle.std.specs.Prelude.{◌≡◌, ◌++◌, IfOk, IfNone, IfSome, All};
ghost use Rattle.alg_core.specs.Spaces.{over};
ghost use Rattle.poly_module.specs.SpaceVectors.{vector_of, vectors_of, IsPoly, HasPolynomials};
ghost use Rattle.secondary_gens.specs.Forms.{degrees_of, IsSmallForm, IsPositiveForm};
ghost use Rattle.irreducible_gens.specs.Algebras.{InAlgebra};
ghost use Rattle.irreducible_gens.specs.Words.{word_space, IsPrintedWord, IsVectorOf, IsWordOf};
ghost use Rattle.secondary_gens.specs.Lists.{Each};

use crate::algebra::all_generators;
use alg_core::{Field, Memory, Space, TermOrder};
use poly_module::{Comb, Poly, copy, one};
use secondary_gens::{combine, combine_all};
use std::alloc::Global;

/// The word that is printed for f: of all polynomials in the marks of the primary invariants and, after
/// these, of the irreducible generators, whose value is f, the one in which no monomial has a value in the
/// span of the values of the smaller monomials of its degree. None exactly where f is no polynomial in the
/// primary invariants and the irreducible generators.
pub fn word<F: Field, O: TermOrder>(
    alloc: Global,
    space: &Space<F, O>,
    theta: &[Poly<F::Elem>],
    irr: &[Poly<F::Elem>],
    f: &Poly<F::Elem>,
) -> Result<Option<Poly<F::Elem>>, Memory>
    requires polynomials { HasPolynomials (over F.field O.order space.now) }
    requires primaries { All (IsPositiveForm (over F.field O.order space.now)) theta.now }
    requires irreducibles { All (IsPositiveForm (over F.field O.order space.now)) irr.now }
    requires form { IsSmallForm (over F.field O.order space.now) f.now }
    ensures none { let S = over F.field O.order space.now in let x = vectors_of S (λ m. m) in
        IfOk result (λ o. IfNone o (¬ InAlgebra S.field (x theta.now) (x irr.now) (vector_of S (λ m. m) f.now))) }
    ensures polynomial { let ws = degrees_of theta.now ++ degrees_of irr.now in
        IfOk result (λ o. IfSome o (IsPoly (word_space (F.field space.now.field) ws) (λ m. m))) }
    ensures printed { let S = over F.field O.order space.now in let x = vectors_of S (λ m. m) in
        IfOk result (λ o. IfSome o (λ w. IsPrintedWord S.field (degrees_of theta.now ++ degrees_of irr.now)
        (x theta.now) (x irr.now) (vector_of S (λ m. m) f.now) (vector_of S (λ m. m) w))) }
{
    let generators = all_generators(alloc, space, theta, irr)?;
    let mut unit = Vec::new(alloc);
    unit.push(one(alloc, space)?)?;
    match combine(alloc, space, generators.as_slice(), unit.as_slice(), f)? {
        Some(combination) => Ok(Some(combination.vector)),
        None => Ok(None),
    }
}

/// A copy of the vector of a combination, where there is one.
fn vector<E: Copy>(alloc: Global, combination: &Option<Comb<E>>) -> Result<Option<Poly<E>>, Memory>
    ensures copy { IfOk result (IsVectorOf combination.now) }
{
    match combination {
        Some(one) => Ok(Some(copy(alloc, &one.vector)?)),
        None => Ok(None),
    }
}

/// Copies of the vectors of combinations.
fn vectors<E: Copy>(
    alloc: Global,
    combinations: &[Option<Comb<E>>],
) -> Result<Vec<Option<Poly<E>>>, Memory>
    ensures copies { IfOk result (λ vs. Each IsVectorOf combinations.now vs.items) }
{
    let mut vectors = Vec::new(alloc);
    for i in 0..combinations.len() {
        let combination = &combinations[i];
        let one = vector(alloc, combination)?;
        vectors.push(one)?;
    }
    Ok(vectors)
}

/// The words that are printed for the polynomials of a list, as `word` gives them: None exactly where one is no
/// polynomial in the primary invariants and the irreducible generators. One elimination serves all that have
/// the same degree.
pub fn words<F: Field, O: TermOrder>(
    alloc: Global,
    space: &Space<F, O>,
    theta: &[Poly<F::Elem>],
    irr: &[Poly<F::Elem>],
    fs: &[Poly<F::Elem>],
) -> Result<Vec<Option<Poly<F::Elem>>>, Memory>
    requires polynomials { HasPolynomials (over F.field O.order space.now) }
    requires primaries { All (IsPositiveForm (over F.field O.order space.now)) theta.now }
    requires irreducibles { All (IsPositiveForm (over F.field O.order space.now)) irr.now }
    requires forms { All (IsSmallForm (over F.field O.order space.now)) fs.now }
    ensures each { IfOk result (λ ws. Each (IsWordOf (over F.field O.order space.now) theta.now irr.now) fs.now ws.items) }
{
    let marked = all_generators(alloc, space, theta, irr)?;
    let mut unit = Vec::new(alloc);
    unit.push(one(alloc, space)?)?;
    let combinations = combine_all(alloc, space, marked.as_slice(), unit.as_slice(), fs)?;
    let words = vectors(alloc, combinations.as_slice())?;
    Ok(words)
}
