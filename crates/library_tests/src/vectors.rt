//! Vectors: made of terms and printed, their leads and degrees.

ghost use Rattle.alg_core.specs.Spaces.{over};
ghost use Rattle.poly_module.specs.SpaceVectors.{IsVector};

use alg_core::{BlockOrder, Dp, Field, Mono, Monomial, Space, TermOrder};
use poly_module::{Comb, Vector, degree, is_homogeneous, lead};
use poly_text::print_comb;
use prime_field::PrimeField;
use std::alloc::Global;
use std::test::Fail;
use test_inputs::{Entry, has_small_degrees, shown, space, space_by, vector};

/// The text of a vector as a combination.
fn shown_comb<O: TermOrder>(
    alloc: Global,
    space: &Space<PrimeField, O>,
    vector: Vector<u16, Mono>,
) -> Result<Vec<u8>, Fail>
    requires vector { IsVector (over ⟦<PrimeField as Field>⟧.field O.order space.now) (λ m. m) vector }
{
    Ok(print_comb(alloc, space, &Comb { vector })?)
}

/// Vectors in positions 1 and 2 over GF(3), with the order `Dp`.
fn two_positions(alloc: Global) -> Result<Space<PrimeField, Dp>, Fail> {
    let order = Dp {
        weights: vec![in alloc; 1, 1, 1]?,
    };
    space_by(alloc, 3, order, &[1, 1, 1], &[0, 1])
}

/// Terms, and the text of their sum.
#[derive(Clone, Copy)]
struct Made {
    given: &'static [Entry],
    text: &'static str,
}

const MADE: [Made; 4] = [
    Made {
        given: &[(0, 0, [1, 0, 0])],
        text: "0",
    },
    Made {
        given: &[
            (1, 0, [1, 0, 0]),
            (1, 1, [0, 1, 0]),
            (2, 0, [1, 0, 0]),
            (2, 1, [0, 1, 0]),
        ],
        text: "0",
    },
    Made {
        given: &[
            (1, 0, [0, 0, 1]),
            (2, 0, [1, 0, 0]),
            (0, 0, [1, 1, 0]),
            (1, 0, [0, 1, 0]),
            (1, 0, [0, 0, 1]),
            (1, 0, [1, 0, 0]),
            (1, 0, [0, 0, 2]),
        ],
        text: "@3^2*%1+@2*%1-@3*%1",
    },
    Made {
        given: &[
            (2, 1, [1, 0, 0]),
            (1, 0, [0, 1, 0]),
            (1, 0, [1, 0, 0]),
            (1, 1, [0, 1, 0]),
            (1, 1, [1, 0, 0]),
        ],
        text: "@1*%1+@2*%1+@2*%2",
    },
];

#[test]
fn makes_vectors_of_terms(rt: HostRuntime) -> Result<(), Fail> {
    let alloc = rt.alloc();
    let space = two_positions(alloc)?;
    for case in &MADE {
        let made = vector(alloc, &space, case.given)?;
        assert_eq!(rt;
            shown_comb(alloc, &space, made)?.as_slice(),
            case.text.as_bytes()
        );
    }
    Ok(())
}

/// Terms over GF(p), and the text of the polynomial.
#[derive(Clone, Copy)]
struct Printed {
    p: u32,
    given: &'static [Entry],
    text: &'static str,
}

const PRINTED: [Printed; 6] = [
    Printed {
        p: 3,
        given: &[(2, 0, [2, 1, 0]), (1, 0, [0, 1, 0]), (1, 0, [0, 0, 0])],
        text: "-x^2*y+y+1",
    },
    Printed {
        p: 3,
        given: &[],
        text: "0",
    },
    Printed {
        p: 3,
        given: &[(2, 0, [0, 0, 0])],
        text: "-1",
    },
    Printed {
        p: 2,
        given: &[(1, 0, [1, 0, 0]), (1, 0, [0, 1, 0])],
        text: "x+y",
    },
    Printed {
        p: 11,
        given: &[(6, 0, [0, 0, 0])],
        text: "-5",
    },
    Printed {
        p: 11,
        given: &[(6, 0, [1, 0, 0]), (5, 0, [0, 12, 0])],
        text: "5*y^12-5*x",
    },
];

#[test]
fn prints_polynomials(rt: HostRuntime) -> Result<(), Fail> {
    let alloc = rt.alloc();
    for case in &PRINTED {
        let space = space(alloc, case.p)?;
        let f = vector(alloc, &space, case.given)?;
        assert_eq!(rt; shown(alloc, &space, &f)?.as_slice(), case.text.as_bytes());
    }
    Ok(())
}

/// A vector in two positions of shifts 0 and 5 over GF(3), with weights 1, 2 and 3: the place of its
/// lead, its degree, and whether it is homogeneous.
#[derive(Clone, Copy)]
struct Graded {
    terms: &'static [Entry],
    lead: Option<(u64, [u32; 3])>,
    degree: Option<u64>,
    is_homogeneous: bool,
}

const GRADED: [Graded; 6] = [
    Graded {
        terms: &[],
        lead: None,
        degree: None,
        is_homogeneous: true,
    },
    Graded {
        terms: &[(1, 0, [1, 0, 0]), (2, 0, [1, 0, 0])],
        lead: None,
        degree: None,
        is_homogeneous: true,
    },
    Graded {
        terms: &[(1, 0, [5, 0, 0]), (2, 0, [0, 1, 1]), (1, 1, [0, 0, 0])],
        lead: Some((0, [5, 0, 0])),
        degree: Some(5),
        is_homogeneous: true,
    },
    Graded {
        terms: &[(1, 0, [0, 0, 1]), (1, 0, [2, 0, 0])],
        lead: Some((0, [2, 0, 0])),
        degree: Some(3),
        is_homogeneous: false,
    },
    Graded {
        terms: &[(1, 1, [0, 1, 0]), (1, 0, [0, 1, 0])],
        lead: Some((0, [0, 1, 0])),
        degree: Some(7),
        is_homogeneous: false,
    },
    Graded {
        terms: &[(1, 0, [0, 0, 0]), (1, 0, [0, 1, 0])],
        lead: Some((0, [0, 1, 0])),
        degree: Some(2),
        is_homogeneous: false,
    },
];

/// The `degree` of a vector, where the degrees of its terms are small.
fn degree_of<F: Field<Elem = u16>, O: TermOrder>(
    space: &Space<F, O>,
    v: &Vector<u16, Mono>,
) -> Result<Option<u64>, Fail>
    requires vector { IsVector (over F.field O.order space.now) (λ m. m) v.now }
{
    if has_small_degrees(space, v) {
        Ok(degree(space, v))
    } else {
        Err(Fail::new("no small degrees"))
    }
}

/// The place of the `lead` of a vector.
fn lead_of<F: Field<Elem = u16>, O: TermOrder>(
    space: &Space<F, O>,
    v: &Vector<u16, Mono>,
) -> Option<(u64, [u32; 3])>
    requires vector { IsVector (over F.field O.order space.now) (λ m. m) v.now }
{
    let first = lead(space, v)?;
    let mono = &first.at.mono;
    if mono.len() == 3 {
        Some((first.at.pos, [mono.exp(0), mono.exp(1), mono.exp(2)]))
    } else {
        None
    }
}

#[test]
fn leads_and_degrees_go_by_order_and_weights(rt: HostRuntime) -> Result<(), Fail> {
    let alloc = rt.alloc();
    let order = Dp {
        weights: vec![in alloc; 1, 1, 1]?,
    };
    let space = space_by(alloc, 3, order, &[1, 2, 3], &[0, 5])?;
    for case in &GRADED {
        let v = vector(alloc, &space, case.terms)?;
        assert_eq!(rt; lead_of(&space, &v), case.lead);
        assert_eq!(rt; degree_of(&space, &v)?, case.degree);
        assert_eq!(rt; is_homogeneous(&space, &v), case.is_homogeneous);
    }
    Ok(())
}

// x is greater than y^3 and z^3, which have a greater degree.
#[test]
fn block_order_leads_with_a_lower_degree(rt: HostRuntime) -> Result<(), Fail> {
    let alloc = rt.alloc();
    let order = BlockOrder {
        vars: 1,
        weights: vec![in alloc; 1, 1]?,
    };
    let space = space_by(alloc, 3, order, &[1, 1, 1], &[0])?;
    let terms = [(1, 0, [0, 3, 0]), (2, 0, [1, 0, 0]), (1, 0, [0, 0, 3])];
    let v = vector(alloc, &space, &terms)?;
    assert_eq!(rt; lead_of(&space, &v), Some((0, [1, 0, 0])));
    assert_eq!(rt; degree_of(&space, &v)?, Some(3));
    assert_eq!(rt;
        shown(alloc, &space, &v)?.as_slice(),
        b"-x+y^3+z^3".as_slice()
    );
    Ok(())
}
