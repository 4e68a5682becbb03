//! Echelon bases of the invariants of one degree.

ghost use Rattle.std.specs.Prelude.{IfOk};
ghost use Rattle.alg_core.specs.Spaces.{over};
ghost use Rattle.poly_module.specs.SpaceVectors.{ArePolys};

use alg_core::{Dp, Field, Space, TermOrder};
use invariant_space::{SpaceFault, basis};
use poly_module::Poly;
use prime_field::PrimeField;
use std::alloc::Global;
use std::process::Abort;
use std::test::Fail;
use test_inputs::{generators, has_polynomials, shown, space};

const IDENTITY: [i16; 9] = [1, 0, 0, 0, 1, 0, 0, 0, 1];

/// It puts y for x and x for y.
const SWAP: [i16; 9] = [0, 1, 0, 1, 0, 0, 0, 0, 1];

/// It puts y for x, -x for y and -z for z.
const TURN: [i16; 9] = [0, 1, 0, -1, 0, 0, 0, 0, -1];

/// The invariants of a degree under a matrix over GF(p).
#[derive(Clone, Copy)]
struct Invariants {
    p: u32,
    generator: [i16; 9],
    degree: u32,
    basis: &'static [&'static str],
}

const INVARIANTS: [Invariants; 6] = [
    Invariants {
        p: 3,
        generator: TURN,
        degree: 0,
        basis: &["1"],
    },
    Invariants {
        p: 3,
        generator: TURN,
        degree: 1,
        basis: &[],
    },
    Invariants {
        p: 3,
        generator: TURN,
        degree: 3,
        basis: &["x^2*z-y^2*z", "x*y*z"],
    },
    Invariants {
        p: 2,
        generator: SWAP,
        degree: 1,
        basis: &["x+y", "z"],
    },
    Invariants {
        p: 2,
        generator: SWAP,
        degree: 2,
        basis: &["x^2+y^2", "x*y", "x*z+y*z", "z^2"],
    },
    Invariants {
        p: 2,
        generator: IDENTITY,
        degree: 1,
        basis: &["x", "y", "z"],
    },
];

/// The basis of the invariants, where the degree has at most so many monomials.
fn basis_of(
    alloc: Global,
    space: &Space<PrimeField, Dp>,
    generator: &[i16],
    degree: u32,
    max_terms: u32,
) -> Result<Result<Vec<Poly<u16>>, SpaceFault>, Fail>
    ensures polynomials { let S = over ⟦<PrimeField as Field>⟧.field ⟦<Dp as TermOrder>⟧.order space.now in
        IfOk result (λ r. IfOk r (λ b. ArePolys S (λ m. m) b.items)) }
{
    let gens = generators(alloc, &space.field, 3, &[generator])?;
    if degree > 12288 || !has_polynomials(alloc, space)? {
        return Err(Fail::new("no constants"));
    }
    Ok(basis(alloc, space, gens.as_slice(), degree, max_terms))
}

fn examine(rt: &impl Abort, alloc: Global, case: &Invariants) -> Result<(), Fail> {
    let space = space(alloc, case.p)?;
    let Ok(found) = basis_of(alloc, &space, &case.generator, case.degree, 10)? else {
        return Err(Fail::new("no basis"));
    };
    assert_eq!(rt; found.len(), case.basis.len());
    for i in 0..found.len() {
        let text = shown(alloc, &space, &found[i])?;
        assert_eq!(rt; text.as_slice(), case.basis[i].as_bytes());
    }
    Ok(())
}

#[test]
fn finds_invariants(rt: HostRuntime) -> Result<(), Fail> {
    for case in &INVARIANTS {
        examine(&rt, rt.alloc(), case)?;
    }
    Ok(())
}

#[test]
fn tells_the_bound(rt: HostRuntime) -> Result<(), Fail> {
    let alloc = rt.alloc();
    let space = space(alloc, 2)?;
    assert!(rt; basis_of(alloc, &space, &SWAP, 2, 6)?.is_ok());
    let Err(fault) = basis_of(alloc, &space, &SWAP, 2, 5)? else {
        return Err(Fail::new("no bound"));
    };
    assert_eq!(rt; format!(in alloc; "{fault}")?.as_str(), "bound terms 2 6");
    Ok(())
}

#[test]
fn want_of_memory_has_its_word(rt: HostRuntime) -> Result<(), Fail> {
    let text = format!(in rt.alloc(); "{}", SpaceFault::Memory)?;
    assert_eq!(rt; text.as_str(), "memory");
    Ok(())
}
