//! Gröbner bases of modules over GF(3), their completions, and the criterion.

ghost use Rattle.std.specs.Prelude.{IfOk};
ghost use Rattle.alg_core.specs.Spaces.{over};
ghost use Rattle.poly_module.specs.SpaceVectors.{IsVector, AreVectors};

use crate::conditions::{are_homogeneous, are_nonzero, is_positive};
use alg_core::{Dp, ElimOrder, Field, Mono, Space, TermOrder};
use module_groebner::{
    BasisFault, Completion, Step, divide, first_bad_pair, is_reduced_basis, reduced_basis, s_vector,
};
use poly_module::{Comb, Vector, copy, lead};
use poly_text::print_comb;
use prime_field::PrimeField;
use std::alloc::Global;
use std::test::Fail;
use test_inputs::{Entry, has_small_degrees, space, space_by, vector};

/// The vectors with these terms.
fn vectors<F: Field<Elem = u16>, O: TermOrder>(
    alloc: Global,
    space: &Space<F, O>,
    lists: &[&[Entry]],
) -> Result<Vec<Vector<u16, Mono>>, Fail>
    ensures vectors { IfOk result (λ vs. AreVectors (over F.field O.order space.now) (λ m. m) vs.items) }
{
    let mut made = Vec::new(alloc);
    for list in lists {
        made.push(vector(alloc, space, list)?)?;
    }
    Ok(made)
}

/// The texts of the vectors, as combinations, each with a semicolon after it.
fn shown<O: TermOrder>(
    alloc: Global,
    space: &Space<PrimeField, O>,
    vs: &[Vector<u16, Mono>],
) -> Result<Vec<u8>, Fail>
    requires vectors { AreVectors (over ⟦<PrimeField as Field>⟧.field O.order space.now) (λ m. m) vs.now }
{
    let mut text = Vec::new(alloc);
    for i in 0..vs.len() {
        let v = &vs[i];
        let comb = Comb {
            vector: copy(alloc, v)?,
        };
        text.extend_from_slice(&print_comb(alloc, space, &comb)?)?;
        text.push(b';')?;
    }
    Ok(text)
}

const X: Entry = (1, 0, [1, 0, 0]);

const X2: Entry = (1, 0, [2, 0, 0]);

const XY: Entry = (1, 0, [1, 1, 0]);

const Y2: Entry = (1, 0, [0, 2, 0]);

/// The reduced basis of the homogeneous vectors; or the degree of an element above the cap.
fn basis_or_degree<F: Field<Elem = u16>, O: TermOrder>(
    alloc: Global,
    space: &Space<F, O>,
    generators: &[Vector<u16, Mono>],
    cap: u32,
) -> Result<(Vec<Vector<u16, Mono>>, Option<u64>), Fail>
    requires vectors { AreVectors (over F.field O.order space.now) (λ m. m) generators.now }
    ensures vectors { IfOk result (λ r. AreVectors (over F.field O.order space.now) (λ m. m) r.0.items) }
{
    if cap > 1000 || !is_positive(space) || !are_homogeneous(space, generators) {
        return Err(Fail::new("not homogeneous"));
    }
    match reduced_basis(alloc, space, generators, cap) {
        Ok(basis) => Ok((basis, None)),
        Err(BasisFault::Above(bound)) => Ok((Vec::new(alloc), Some(bound.degree))),
        Err(BasisFault::Memory) => Err(Fail::new("memory")),
    }
}

/// Generators and a cap: the reduced basis, or the degree of an element above the cap.
#[derive(Clone, Copy)]
struct Reduced {
    generators: &'static [&'static [Entry]],
    cap: u32,
    basis: &'static str,
    above: Option<u64>,
}

const REDUCED: [Reduced; 6] = [
    Reduced {
        generators: &[&[X2], &[XY, Y2], &[]],
        cap: 3,
        basis: "@2^3*%1;@1^2*%1;@1*@2*%1+@2^2*%1;",
        above: None,
    },
    Reduced {
        generators: &[&[X2], &[XY, Y2]],
        cap: 2,
        basis: "",
        above: Some(3),
    },
    Reduced {
        generators: &[],
        cap: 0,
        basis: "",
        above: None,
    },
    Reduced {
        generators: &[&[]],
        cap: 0,
        basis: "",
        above: None,
    },
    Reduced {
        generators: &[&[X2]],
        cap: 1,
        basis: "",
        above: Some(2),
    },
    Reduced {
        generators: &[&[XY], &[X]],
        cap: 2,
        basis: "@1*%1;",
        above: None,
    },
];

#[test]
fn reduces_bases_up_to_a_cap(rt: HostRuntime) -> Result<(), Fail> {
    let alloc = rt.alloc();
    let space = space(alloc, 3)?;
    for case in &REDUCED {
        let generators = vectors(alloc, &space, case.generators)?;
        let (basis, above) = basis_or_degree(alloc, &space, generators.as_slice(), case.cap)?;
        assert_eq!(rt; above, case.above);
        assert_eq!(rt;
            shown(alloc, &space, basis.as_slice())?.as_slice(),
            case.basis.as_bytes()
        );
    }
    Ok(())
}

/// Two positions of degrees 0 and 1, the first of which is greater.
fn two_positions(alloc: Global) -> Result<Space<PrimeField, ElimOrder>, Fail> {
    let order = ElimOrder {
        first: 1,
        weights: vec![in alloc; 1, 1, 1]?,
    };
    space_by(alloc, 3, order, &[1, 1, 1], &[0, 1])
}

/// The first bad pair of the list, where its members are homogeneous and not 0.
fn bad_pair<F: Field<Elem = u16>, O: TermOrder>(
    alloc: Global,
    space: &Space<F, O>,
    list: &[Vector<u16, Mono>],
) -> Result<Option<(u64, u64)>, Fail>
    requires vectors { AreVectors (over F.field O.order space.now) (λ m. m) list.now }
{
    if !is_positive(space) || !are_homogeneous(space, list) || !are_nonzero(space, list) {
        return Err(Fail::new("not homogeneous, or 0"));
    }
    Ok(first_bad_pair(alloc, space, list)?)
}

/// Whether the list is the reduced basis of the generators, where all are homogeneous.
fn is_basis<F: Field<Elem = u16>, O: TermOrder>(
    alloc: Global,
    space: &Space<F, O>,
    list: &[Vector<u16, Mono>],
    generators: &[Vector<u16, Mono>],
) -> Result<bool, Fail>
    requires list { AreVectors (over F.field O.order space.now) (λ m. m) list.now }
    requires generators { AreVectors (over F.field O.order space.now) (λ m. m) generators.now }
{
    if !is_positive(space) || !are_homogeneous(space, list) || !are_homogeneous(space, generators) {
        return Err(Fail::new("not homogeneous"));
    }
    Ok(is_reduced_basis(alloc, space, list, generators)?)
}

// The leads x and y share no variable, and yet their pair is bad.
#[test]
fn coprime_leads_may_be_a_bad_pair(rt: HostRuntime) -> Result<(), Fail> {
    let alloc = rt.alloc();
    let space = two_positions(alloc)?;
    let list = vectors(
        alloc,
        &space,
        &[&[X, (1, 1, [0, 0, 0])], &[(1, 0, [0, 1, 0])]],
    )?;
    assert_eq!(rt; bad_pair(alloc, &space, list.as_slice())?, Some((1, 2)));
    let (basis, _) = basis_or_degree(alloc, &space, list.as_slice(), 100)?;
    assert_eq!(rt;
        shown(alloc, &space, basis.as_slice())?.as_slice(),
        b"@1*%1+%2;@2*%1;@2*%2;".as_slice()
    );
    assert_eq!(rt; bad_pair(alloc, &space, basis.as_slice())?, None);
    assert!(rt; is_basis(alloc, &space, basis.as_slice(), list.as_slice())?);
    assert!(rt; !is_basis(alloc, &space, list.as_slice(), basis.as_slice())?);
    Ok(())
}

/// The texts of the reduced bases that `reduced` and `finish` make of one completion.
fn completed<O: TermOrder>(
    alloc: Global,
    space: &Space<PrimeField, O>,
    generators: &[Vector<u16, Mono>],
) -> Result<(Vec<u8>, Vec<u8>), Fail>
    requires vectors { AreVectors (over ⟦<PrimeField as Field>⟧.field O.order space.now) (λ m. m) generators.now }
{
    if !is_positive(space) || !are_homogeneous(space, generators) {
        return Err(Fail::new("not homogeneous"));
    }
    let mut completion = Completion::new(alloc, space, generators, 5)?;
    loop {
        match completion.advance(space)? {
            Step::Finished => break,
            Step::Above(_) => return Err(Fail::new("above the cap")),
            Step::More => {}
        }
    }
    let reduced = completion.reduced(space)?;
    let first = shown(alloc, space, reduced.as_slice())?;
    match completion.finish(space) {
        Ok(finished) => Ok((first, shown(alloc, space, finished.as_slice())?)),
        Err(_) => Err(Fail::new("memory")),
    }
}

#[test]
fn finish_gives_the_list_of_reduced(rt: HostRuntime) -> Result<(), Fail> {
    let alloc = rt.alloc();
    let space = space(alloc, 3)?;
    let generators = vectors(alloc, &space, &[&[X2], &[XY, Y2]])?;
    let (reduced, finished) = completed(alloc, &space, generators.as_slice())?;
    assert_eq!(rt;
        reduced.as_slice(),
        b"@2^3*%1;@1^2*%1;@1*@2*%1+@2^2*%1;".as_slice()
    );
    assert_eq!(rt; reduced.as_slice(), finished.as_slice());
    Ok(())
}

/// The S-vector of a and b, where they are small and have their leads at one position.
fn s_vector_of<F: Field<Elem = u16>, O: TermOrder>(
    alloc: Global,
    space: &Space<F, O>,
    a: &Vector<u16, Mono>,
    b: &Vector<u16, Mono>,
) -> Result<Vector<u16, Mono>, Fail>
    requires left { IsVector (over F.field O.order space.now) (λ m. m) a.now }
    requires right { IsVector (over F.field O.order space.now) (λ m. m) b.now }
    ensures vector { IfOk result (IsVector (over F.field O.order space.now) (λ m. m)) }
{
    if !is_positive(space) || !has_small_degrees(space, a) || !has_small_degrees(space, b) {
        return Err(Fail::new("no small degrees"));
    }
    let (Some(s), Some(t)) = (lead(space, a), lead(space, b)) else {
        return Err(Fail::new("0"));
    };
    if s.at.pos != t.at.pos {
        return Err(Fail::new("leads at two positions"));
    }
    Ok(s_vector(alloc, space, a, b)?)
}

/// The remainder of v, which is small, by the list, whose members are homogeneous and not 0.
fn remainder_of<F: Field<Elem = u16>, O: TermOrder>(
    alloc: Global,
    space: &Space<F, O>,
    v: &Vector<u16, Mono>,
    list: &[Vector<u16, Mono>],
) -> Result<Vector<u16, Mono>, Fail>
    requires vector { IsVector (over F.field O.order space.now) (λ m. m) v.now }
    requires list { AreVectors (over F.field O.order space.now) (λ m. m) list.now }
    ensures vector { IfOk result (IsVector (over F.field O.order space.now) (λ m. m)) }
{
    if !is_positive(space) || !has_small_degrees(space, v) {
        return Err(Fail::new("no small degrees"));
    }
    if !are_homogeneous(space, list) || !are_nonzero(space, list) {
        return Err(Fail::new("not homogeneous, or 0"));
    }
    Ok(divide(alloc, space, v, list)?)
}

#[test]
fn divides_by_a_basis_and_cancels_leads(rt: HostRuntime) -> Result<(), Fail> {
    let alloc = rt.alloc();
    let space = space(alloc, 3)?;
    let first = vector(alloc, &space, &[X2])?;
    let second = vector(alloc, &space, &[XY, Y2])?;
    let third = vector(alloc, &space, &[(1, 0, [0, 3, 0])])?;
    let cancelled = s_vector_of(alloc, &space, &first, &second)?;
    let v = vector(alloc, &space, &[(1, 0, [3, 1, 0]), (1, 0, [0, 2, 1])])?;
    let rest = remainder_of(alloc, &space, &v, &[third, first, second])?;
    assert_eq!(rt;
        shown(alloc, &space, &[cancelled, rest])?.as_slice(),
        b"-@1*@2^2*%1;@2^2*@3*%1;".as_slice()
    );
    Ok(())
}
