//! Secondary invariants, irreducible generators, combinations and words, of two groups of order 2.

use crate::forms::{
    Summand, are_positive_forms, are_small_forms, do_not_fall, has_constants, polynomials,
};
use alg_core::{Dp, Mono, Monomial, Space, Term};
use irreducible_gens::{choose, first_reducible, word, words};
use poly_module::{Comb, Poly};
use prime_field::PrimeField;
use secondary_gens::degrees::degrees;
use secondary_gens::{combine, combine_all, first_redundant};
use std::alloc::Global;
use std::test::Fail;
use test_inputs::field;

/// A coefficient, a position from 0, and the exponents of the marks.
type Part = (u16, u64, &'static [u32]);

const ONE: &[Summand] = &[(1, &[0, 0, 0, 0])];

/// Of the swap of a with b and of c with d over GF(2): the primary invariants a+b, c+d, a*b, c*d.
const SWAPS: &[&[Summand]] = &[
    &[(1, &[1, 0, 0, 0]), (1, &[0, 1, 0, 0])],
    &[(1, &[0, 0, 1, 0]), (1, &[0, 0, 0, 1])],
    &[(1, &[1, 1, 0, 0])],
    &[(1, &[0, 0, 1, 1])],
];

/// a*c+b*d
const CHANGED: &[Summand] = &[(1, &[1, 0, 1, 0]), (1, &[0, 1, 0, 1])];

/// b*c+a*d
const CROSSED: &[Summand] = &[(1, &[0, 1, 1, 0]), (1, &[1, 0, 0, 1])];

/// Secondary invariants of the swap, the first superfluous place, and polynomials with their combinations.
#[derive(Clone, Copy)]
struct Combined {
    secondaries: &'static [&'static [Summand]],
    redundant: Option<u64>,
    polynomials: &'static [&'static [Summand]],
    combinations: &'static [Option<&'static [Part]>],
}

const COMBINED: [Combined; 5] = [
    // @1*@2*%1+%2, none, %2, 0, @1^2*%1, @2^2*@3*%1+@1^2*@4*%1+@1*@2*%2, %1
    Combined {
        secondaries: &[ONE, CHANGED],
        redundant: None,
        polynomials: &[
            CROSSED,
            &[(1, &[1, 0, 0, 0])],
            CHANGED,
            &[],
            &[(1, &[2, 0, 0, 0]), (1, &[0, 2, 0, 0])],
            &[(1, &[2, 0, 2, 0]), (1, &[0, 2, 0, 2])],
            ONE,
        ],
        combinations: &[
            Some(&[(1, 0, &[1, 1, 0, 0]), (1, 1, &[0, 0, 0, 0])]),
            None,
            Some(&[(1, 1, &[0, 0, 0, 0])]),
            Some(&[]),
            Some(&[(1, 0, &[2, 0, 0, 0])]),
            Some(&[
                (1, 0, &[0, 2, 1, 0]),
                (1, 0, &[2, 0, 0, 1]),
                (1, 1, &[1, 1, 0, 0]),
            ]),
            Some(&[(1, 0, &[0, 0, 0, 0])]),
        ],
    },
    Combined {
        secondaries: &[ONE, CHANGED, CHANGED],
        redundant: Some(2),
        polynomials: &[CROSSED],
        combinations: &[Some(&[(1, 0, &[1, 1, 0, 0]), (1, 1, &[0, 0, 0, 0])])],
    },
    // the two that are not 1 add up to @1*@2*%2
    Combined {
        secondaries: &[CROSSED, ONE, CHANGED],
        redundant: Some(1),
        polynomials: &[],
        combinations: &[],
    },
    // the earliest are taken: %2+@1*@2*%3
    Combined {
        secondaries: &[&[], CHANGED, ONE, CHANGED],
        redundant: Some(1),
        polynomials: &[CROSSED],
        combinations: &[Some(&[(1, 2, &[1, 1, 0, 0]), (1, 1, &[0, 0, 0, 0])])],
    },
    Combined {
        secondaries: &[],
        redundant: None,
        polynomials: &[&[(1, &[1, 0, 0, 0]), (1, &[0, 1, 0, 0])]],
        combinations: &[None],
    },
];

/// Whether the exponents are these.
fn has_exps(m: &Mono, exps: &[u32]) -> bool {
    if m.len() != exps.len() {
        return false;
    }
    for i in 0..exps.len() {
        if m.exp(i) != exps[i] {
            return false;
        }
    }
    true
}

/// Whether the term is this.
fn is_part(t: &Term<u16, Mono>, part: &Part) -> bool {
    let (coef, pos, exps) = *part;
    t.coef == coef && t.at.pos == pos && has_exps(&t.at.mono, exps)
}

/// Whether the vector has these terms, in this order.
fn has_parts(v: &Poly<u16>, parts: &[Part]) -> bool {
    let terms = v.terms();
    if terms.len() != parts.len() {
        return false;
    }
    for i in 0..parts.len() {
        if !is_part(&terms[i], &parts[i]) {
            return false;
        }
    }
    true
}

/// Whether it is the vector with these terms, or there is none.
fn is_vector(found: Option<&Poly<u16>>, parts: Option<&[Part]>) -> bool {
    match (found, parts) {
        (Some(v), Some(listed)) => has_parts(v, listed),
        (None, None) => true,
        _ => false,
    }
}

/// The vector of a combination.
fn vector_of(combination: &Option<Comb<u16>>) -> Option<&Poly<u16>> {
    match combination {
        Some(c) => Some(&c.vector),
        None => None,
    }
}

/// Whether the combinations of the polynomials are those that are listed, one by one and all together, and the
/// first superfluous secondary invariant has that place.
fn are_combined(alloc: Global, case: &Combined) -> Result<bool, Fail> {
    let space = Space::of_variables(alloc, field(2)?, 4)?;
    let primaries = polynomials(alloc, &space, SWAPS)?;
    let theta = primaries.as_slice();
    let secondaries = polynomials(alloc, &space, case.secondaries)?;
    let secs = secondaries.as_slice();
    let listed = polynomials(alloc, &space, case.polynomials)?;
    let fs = listed.as_slice();
    if !has_constants(alloc, &space)? || !are_positive_forms(&space, theta) {
        return Err(Fail::new("no primary invariants"));
    }
    if !are_small_forms(&space, secs) || !are_small_forms(&space, fs) {
        return Err(Fail::new("not homogeneous"));
    }
    let all = combine_all(alloc, &space, theta, secs, fs)?;
    if all.len() != case.combinations.len() || fs.len() != all.len() {
        return Ok(false);
    }
    for i in 0..all.len() {
        let one = combine(alloc, &space, theta, secs, &fs[i])?;
        let parts = case.combinations[i];
        if !is_vector(vector_of(&one), parts) || !is_vector(vector_of(&all[i]), parts) {
            return Ok(false);
        }
    }
    Ok(first_redundant(alloc, &space, theta, secs)? == case.redundant)
}

#[test]
fn combines_invariants_and_finds_what_is_superfluous(rt: HostRuntime) -> Result<(), Fail> {
    for case in &COMBINED {
        assert!(rt; are_combined(rt.alloc(), case)?);
    }
    Ok(())
}

/// Of minus one in four variables over GF(3): the primary invariants a^2, b^2, c^2, d^2.
const SQUARES: &[&[Summand]] = &[
    &[(1, &[2, 0, 0, 0])],
    &[(1, &[0, 2, 0, 0])],
    &[(1, &[0, 0, 2, 0])],
    &[(1, &[0, 0, 0, 2])],
];

const AB: &[Summand] = &[(1, &[1, 1, 0, 0])];

const AC: &[Summand] = &[(1, &[1, 0, 1, 0])];

const BC: &[Summand] = &[(1, &[0, 1, 1, 0])];

const AD: &[Summand] = &[(1, &[1, 0, 0, 1])];

const BD: &[Summand] = &[(1, &[0, 1, 0, 1])];

const CD: &[Summand] = &[(1, &[0, 0, 1, 1])];

const ABCD: &[Summand] = &[(1, &[1, 1, 1, 1])];

/// Primary and secondary invariants over GF(p), the places of the irreducible generators, and
/// polynomials with their words. Generators of which one is superfluous follow, and its place.
#[derive(Clone, Copy)]
struct Worded {
    p: u32,
    variables: u32,
    primaries: &'static [&'static [Summand]],
    secondaries: &'static [&'static [Summand]],
    places: &'static [u64],
    irreducibles: &'static [&'static [Summand]],
    polynomials: &'static [&'static [Summand]],
    words: &'static [Option<&'static [Part]>],
    generators: &'static [&'static [Summand]],
    reducible: Option<u64>,
}

/// Of three swaps over GF(2): a+b, c+d, e+f, a*b, c*d, e*f.
const THREE: &[&[Summand]] = &[
    &[(1, &[1, 0, 0, 0, 0, 0]), (1, &[0, 1, 0, 0, 0, 0])],
    &[(1, &[0, 0, 1, 0, 0, 0]), (1, &[0, 0, 0, 1, 0, 0])],
    &[(1, &[0, 0, 0, 0, 1, 0]), (1, &[0, 0, 0, 0, 0, 1])],
    &[(1, &[1, 1, 0, 0, 0, 0])],
    &[(1, &[0, 0, 1, 1, 0, 0])],
    &[(1, &[0, 0, 0, 0, 1, 1])],
];

/// 1, a*c+b*d, a*e+b*f, c*e+d*f, a*c*e+b*d*f
const THREE_CHANGED: &[&[Summand]] = &[
    &[(1, &[0, 0, 0, 0, 0, 0])],
    &[(1, &[1, 0, 1, 0, 0, 0]), (1, &[0, 1, 0, 1, 0, 0])],
    &[(1, &[1, 0, 0, 0, 1, 0]), (1, &[0, 1, 0, 0, 0, 1])],
    &[(1, &[0, 0, 1, 0, 1, 0]), (1, &[0, 0, 0, 1, 0, 1])],
    &[(1, &[1, 0, 1, 0, 1, 0]), (1, &[0, 1, 0, 1, 0, 1])],
];

const WORDED: [Worded; 3] = [
    // the word of the last secondary invariant is $1*$6
    Worded {
        p: 3,
        variables: 4,
        primaries: SQUARES,
        secondaries: &[ONE, AB, AC, BC, AD, BD, CD, ABCD],
        places: &[2, 3, 4, 5, 6, 7],
        irreducibles: &[AB, AC, BC, AD, BD, CD],
        polynomials: &[ONE, AB, AC, BC, AD, BD, CD, ABCD, &[(1, &[1, 0, 0, 0])]],
        words: &[
            Some(&[(1, 0, &[0, 0, 0, 0, 0, 0, 0, 0, 0, 0])]),
            Some(&[(1, 0, &[0, 0, 0, 0, 1, 0, 0, 0, 0, 0])]),
            Some(&[(1, 0, &[0, 0, 0, 0, 0, 1, 0, 0, 0, 0])]),
            Some(&[(1, 0, &[0, 0, 0, 0, 0, 0, 1, 0, 0, 0])]),
            Some(&[(1, 0, &[0, 0, 0, 0, 0, 0, 0, 1, 0, 0])]),
            Some(&[(1, 0, &[0, 0, 0, 0, 0, 0, 0, 0, 1, 0])]),
            Some(&[(1, 0, &[0, 0, 0, 0, 0, 0, 0, 0, 0, 1])]),
            Some(&[(1, 0, &[0, 0, 0, 0, 1, 0, 0, 0, 0, 1])]),
            None,
        ],
        generators: &[AB, AC, BC, AD, BD, CD, ABCD],
        reducible: Some(7),
    },
    // @1^2*@4+@1*@2*$1+$1^2, @3, $1, 1, 0 and none
    Worded {
        p: 2,
        variables: 4,
        primaries: SWAPS,
        secondaries: &[ONE, CHANGED],
        places: &[2],
        irreducibles: &[CHANGED],
        polynomials: &[
            &[(1, &[1, 1, 2, 0]), (1, &[1, 1, 0, 2])],
            AB,
            CHANGED,
            ONE,
            &[],
            AC,
        ],
        words: &[
            Some(&[
                (1, 0, &[2, 0, 0, 1, 0]),
                (1, 0, &[1, 1, 0, 0, 1]),
                (1, 0, &[0, 0, 0, 0, 2]),
            ]),
            Some(&[(1, 0, &[0, 0, 1, 0, 0])]),
            Some(&[(1, 0, &[0, 0, 0, 0, 1])]),
            Some(&[(1, 0, &[0, 0, 0, 0, 0])]),
            Some(&[]),
            None,
        ],
        generators: &[CHANGED],
        reducible: None,
    },
    // all but the constant are kept
    Worded {
        p: 2,
        variables: 6,
        primaries: THREE,
        secondaries: THREE_CHANGED,
        places: &[2, 3, 4, 5],
        irreducibles: &[],
        polynomials: &[&[(1, &[1, 0, 0, 0, 0, 0]), (1, &[0, 1, 0, 0, 0, 0])]],
        words: &[Some(&[(1, 0, &[1, 0, 0, 0, 0, 0])])],
        generators: &[],
        reducible: None,
    },
];

/// The places that are chosen.
fn chosen(alloc: Global, space: &Space<PrimeField, Dp>, case: &Worded) -> Result<Vec<u64>, Fail> {
    let primaries = polynomials(alloc, space, case.primaries)?;
    let theta = primaries.as_slice();
    let secondaries = polynomials(alloc, space, case.secondaries)?;
    let secs = secondaries.as_slice();
    if !has_constants(alloc, space)? || !are_positive_forms(space, theta) {
        return Err(Fail::new("no primary invariants"));
    }
    if !are_small_forms(space, secs) || !do_not_fall(&degrees(alloc, space, secs)?) {
        return Err(Fail::new("no secondary invariants"));
    }
    Ok(choose(alloc, space, theta, secs)?)
}

/// Whether the words of the polynomials are those that are listed, one by one and all together.
fn are_worded(alloc: Global, space: &Space<PrimeField, Dp>, case: &Worded) -> Result<bool, Fail> {
    let primaries = polynomials(alloc, space, case.primaries)?;
    let theta = primaries.as_slice();
    let irreducibles = polynomials(alloc, space, case.irreducibles)?;
    let irr = irreducibles.as_slice();
    let listed = polynomials(alloc, space, case.polynomials)?;
    let fs = listed.as_slice();
    if !has_constants(alloc, space)? || !are_positive_forms(space, theta) {
        return Err(Fail::new("no primary invariants"));
    }
    if !are_positive_forms(space, irr) || !are_small_forms(space, fs) {
        return Err(Fail::new("no generators"));
    }
    let all = words(alloc, space, theta, irr, fs)?;
    if all.len() != case.words.len() || fs.len() != all.len() {
        return Ok(false);
    }
    for i in 0..all.len() {
        let one = word(alloc, space, theta, irr, &fs[i])?;
        let parts = case.words[i];
        if !is_vector(one.as_ref(), parts) || !is_vector(all[i].as_ref(), parts) {
            return Ok(false);
        }
    }
    Ok(true)
}

/// The first superfluous place of the generators.
fn superfluous(
    alloc: Global,
    space: &Space<PrimeField, Dp>,
    case: &Worded,
) -> Result<Option<u64>, Fail> {
    let primaries = polynomials(alloc, space, case.primaries)?;
    let theta = primaries.as_slice();
    let generators = polynomials(alloc, space, case.generators)?;
    let irr = generators.as_slice();
    if !has_constants(alloc, space)? || !are_positive_forms(space, theta) {
        return Err(Fail::new("no primary invariants"));
    }
    if !are_positive_forms(space, irr) {
        return Err(Fail::new("no generators"));
    }
    Ok(first_reducible(alloc, space, theta, irr)?)
}

#[test]
fn chooses_generators_and_prints_words(rt: HostRuntime) -> Result<(), Fail> {
    let alloc = rt.alloc();
    for case in &WORDED {
        let space = Space::of_variables(alloc, field(case.p)?, case.variables)?;
        assert_eq!(rt; chosen(alloc, &space, case)?.as_slice(), case.places);
        assert!(rt; are_worded(alloc, &space, case)?);
        assert_eq!(rt; superfluous(alloc, &space, case)?, case.reducible);
    }
    Ok(())
}
