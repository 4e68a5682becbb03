//! The Reynolds operator.

ghost use Rattle.std.specs.Prelude.{◌≡◌, ◌≤◌, IfOk};
ghost use Rattle.alg_core.specs.Spaces.{over};
ghost use Rattle.poly_module.specs.Sizes.{IsLow};
ghost use Rattle.poly_module.specs.SpaceVectors.{IsPoly};
ghost use Rattle.matrix_group.specs.Groups.{size};
ghost use Rattle.reynolds_op.specs.Averages.{IsMatrixGroup};

use alg_core::{Field, Space, TermOrder};
use matrix_group::{Group, enumerate};
use poly_module::Poly;
use prime_field::PrimeField;
use reynolds_op::Reynolds;
use std::alloc::Global;
use std::test::Fail;
use test_inputs::{field, generators, has_polynomials, read, shown, space};

/// Over GF(3): x goes to y, y to -x, and z to -z.
const TURN: [i16; 9] = [0, 1, 0, -1, 0, 0, 0, 0, -1];

/// x and y change places.
const SWAP: [i16; 4] = [0, 1, 1, 0];

/// The group that the n by n matrix generates.
fn group_of<F: Field<Elem = u16>>(
    alloc: Global,
    field: &F,
    n: u64,
    cells: &[i16],
) -> Result<Group<u16>, Fail>
    ensures group { IfOk result (λ g. IsMatrixGroup (F.field field.now) (size g) g) }
    ensures size { IfOk result (λ g. size g ≡ n) }
{
    let gens = generators(alloc, field, n, &[cells])?;
    match enumerate(alloc, field, gens.as_slice(), 100) {
        Ok(group) => Ok(group),
        Err(_) => Err(Fail::new("not enumerated")),
    }
}

/// A polynomial over GF(3), and its average under the four powers of the turn.
#[derive(Clone, Copy)]
struct Average {
    f: &'static str,
    average: &'static str,
}

const AVERAGES: [Average; 4] = [
    Average {
        f: "y^2",
        average: "-x^2-y^2",
    },
    Average {
        f: "x",
        average: "0",
    },
    Average {
        f: "-x*y*z+z",
        average: "-x*y*z",
    },
    Average {
        f: "1",
        average: "1",
    },
];

/// The text of the average, by `Reynolds::apply`.
fn average_of<O: TermOrder>(
    alloc: Global,
    space: &Space<PrimeField, O>,
    group: &Group<u16>,
    f: &Poly<u16>,
) -> Result<Vec<u8>, Fail>
    requires polynomial { IsPoly (over ⟦<PrimeField as Field>⟧.field O.order space.now) (λ m. m) f.now }
    requires low { IsLow 4294967295 (λ m. m) f.now }
    requires group { IsMatrixGroup (⟦<PrimeField as Field>⟧.field space.now.field) (size group.now) group.now }
    requires size { size group.now ≤ 3 }
{
    if !has_polynomials(alloc, space)? {
        return Err(Fail::new("no constants"));
    }
    let Some(reynolds) = Reynolds::of(&space.field, group) else {
        return Err(Fail::new("modular"));
    };
    let average = reynolds.apply(alloc, space, f)?;
    shown(alloc, space, &average)
}

#[test]
fn averages_over_a_group(rt: HostRuntime) -> Result<(), Fail> {
    let alloc = rt.alloc();
    let space = space(alloc, 3)?;
    let group = group_of(alloc, &space.field, 3, &TURN)?;
    for case in &AVERAGES {
        let f = read(alloc, &space, case.f)?;
        let average = average_of(alloc, &space, &group, &f)?;
        assert_eq!(rt; average.as_slice(), case.average.as_bytes());
    }
    Ok(())
}

/// Whether the group of the swap over GF(p) has a Reynolds operator.
fn has_reynolds(alloc: Global, p: u32) -> Result<bool, Fail> {
    let field = field(p)?;
    let group = group_of(alloc, &field, 2, &SWAP)?;
    Ok(Reynolds::of(&field, &group).is_some())
}

#[test]
fn is_none_where_the_order_is_zero(rt: HostRuntime) -> Result<(), Fail> {
    assert!(rt; !has_reynolds(rt.alloc(), 2)?);
    assert!(rt; has_reynolds(rt.alloc(), 3)?);
    Ok(())
}
