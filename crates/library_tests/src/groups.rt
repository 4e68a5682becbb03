//! The action of matrices on polynomials over GF(3), invariance, and the groups that matrices generate.

ghost use Rattle.std.specs.Prelude.{IfOk, All, length, ◌<◌};
ghost use Rattle.alg_core.specs.Spaces.{over};
ghost use Rattle.poly_module.specs.Sizes.{IsLow};
ghost use Rattle.poly_module.specs.SpaceVectors.{IsPoly};
ghost use Rattle.matrix_group.specs.Actions.{ActsOn};

use alg_core::{Field, Space, TermOrder};
use lin_algebra::Matrix;
use matrix_group::{GroupFault, act, enumerate, is_invariant, row_form};
use poly_module::Poly;
use prime_field::PrimeField;
use std::alloc::Global;
use std::test::Fail;
use test_inputs::{field, generators, has_polynomials, read, shown, space};

/// x goes to x + y.
const TRANSVECTION: [i16; 4] = [1, 1, 0, 1];

/// y goes to -y.
const REFLECTION: [i16; 4] = [1, 0, 0, -1];

/// A polynomial, and what it becomes where x + y is put for x.
#[derive(Clone, Copy)]
struct Image {
    f: &'static str,
    image: &'static str,
}

const IMAGES: [Image; 4] = [
    Image {
        f: "x",
        image: "x+y",
    },
    Image {
        f: "x^2*y",
        image: "x^2*y-x*y^2+y^3",
    },
    Image {
        f: "-x*z+1",
        image: "-x*z-y*z+1",
    },
    Image { f: "0", image: "0" },
];

/// The 2 by 2 matrices, which act on polynomials of the space.
#[tactic(auto, using(crate::proofs::SquareMatrices::all_act))]
fn acting<O: TermOrder>(
    alloc: Global,
    space: &Space<PrimeField, O>,
    lists: &[&[i16]],
) -> Result<Vec<Matrix<u16>>, Fail>
    ensures some { IfOk result (λ ms. 0 < length ms.items) }
    ensures act { IfOk result (λ ms. All (ActsOn (over ⟦<PrimeField as Field>⟧.field O.order space.now)) ms.items) }
{
    if space.grading.weights.len() < 2 {
        return Err(Fail::new("not two variables"));
    }
    generators(alloc, &space.field, 2, lists)
}

/// The text of the image of f under the first of the 2 by 2 matrices.
fn image_of<O: TermOrder>(
    alloc: Global,
    space: &Space<PrimeField, O>,
    f: &Poly<u16>,
    gens: &[&[i16]],
) -> Result<Vec<u8>, Fail>
    requires polynomial { IsPoly (over ⟦<PrimeField as Field>⟧.field O.order space.now) (λ m. m) f.now }
    requires low { IsLow 4294967295 (λ m. m) f.now }
{
    let gens = acting(alloc, space, gens)?;
    if !has_polynomials(alloc, space)? {
        return Err(Fail::new("no constants"));
    }
    let image = act(alloc, space, f, &gens[0])?;
    shown(alloc, space, &image)
}

/// The text of row i, from 0, of the first of the 2 by 2 matrices, as a linear form.
fn row_of<O: TermOrder>(
    alloc: Global,
    space: &Space<PrimeField, O>,
    gens: &[&[i16]],
    i: usize,
) -> Result<Vec<u8>, Fail> {
    let gens = acting(alloc, space, gens)?;
    if i as u64 >= gens[0].rows || !has_polynomials(alloc, space)? {
        return Err(Fail::new("no row"));
    }
    let form = row_form(alloc, space, &gens[0], i)?;
    shown(alloc, space, &form)
}

#[test]
fn puts_rows_for_variables(rt: HostRuntime) -> Result<(), Fail> {
    let alloc = rt.alloc();
    let space = space(alloc, 3)?;
    for case in &IMAGES {
        let f = read(alloc, &space, case.f)?;
        let image = image_of(alloc, &space, &f, &[&TRANSVECTION])?;
        assert_eq!(rt; image.as_slice(), case.image.as_bytes());
    }
    let row = row_of(alloc, &space, &[&TRANSVECTION], 0)?;
    assert_eq!(rt; row.as_slice(), b"x+y".as_slice());
    Ok(())
}

/// A polynomial and matrices, and whether it is its own image under each of them.
#[derive(Clone, Copy)]
struct Asked {
    f: &'static str,
    gens: &'static [&'static [i16]],
    is_invariant: bool,
}

const ASKED: [Asked; 4] = [
    Asked {
        f: "y",
        gens: &[&TRANSVECTION, &REFLECTION],
        is_invariant: false,
    },
    Asked {
        f: "y",
        gens: &[&REFLECTION, &TRANSVECTION],
        is_invariant: false,
    },
    Asked {
        f: "y",
        gens: &[&TRANSVECTION],
        is_invariant: true,
    },
    Asked {
        f: "x^3-x*y^2+z",
        gens: &[&TRANSVECTION, &REFLECTION],
        is_invariant: true,
    },
];

/// Whether f `is_invariant` under the 2 by 2 matrices.
fn invariant<O: TermOrder>(
    alloc: Global,
    space: &Space<PrimeField, O>,
    f: &Poly<u16>,
    gens: &[&[i16]],
) -> Result<bool, Fail>
    requires polynomial { IsPoly (over ⟦<PrimeField as Field>⟧.field O.order space.now) (λ m. m) f.now }
    requires low { IsLow 4294967295 (λ m. m) f.now }
{
    let gens = acting(alloc, space, gens)?;
    if !has_polynomials(alloc, space)? {
        return Err(Fail::new("no constants"));
    }
    Ok(is_invariant(alloc, space, f, gens.as_slice())?)
}

#[test]
fn asks_each_generator(rt: HostRuntime) -> Result<(), Fail> {
    let alloc = rt.alloc();
    let space = space(alloc, 3)?;
    for case in &ASKED {
        let f = read(alloc, &space, case.f)?;
        let found = invariant(alloc, &space, &f, case.gens)?;
        assert_eq!(rt; found, case.is_invariant, "{}", case.f);
    }
    Ok(())
}

/// 2 by 2 matrices over GF(p), and the order of the group that they generate, or how many elements are
/// counted, where there are more than `max`.
#[derive(Clone, Copy)]
struct Order {
    p: u32,
    gens: &'static [&'static [i16]],
    max: u64,
    order: Result<u64, u64>,
}

// The general linear group over GF(2) has 6 elements, the quaternions over GF(3) 8; 2 has order 10 modulo 11,
// and 3 order 256 modulo 257.
const ORDERS: [Order; 9] = [
    Order {
        p: 2,
        gens: &[&[1, 0, 0, 1]],
        max: 1,
        order: Ok(1),
    },
    Order {
        p: 2,
        gens: &[&[1, 0, 0, 1]],
        max: 0,
        order: Err(1),
    },
    Order {
        p: 2,
        gens: &[&[0, 1, 1, 0], &TRANSVECTION],
        max: 6,
        order: Ok(6),
    },
    Order {
        p: 2,
        gens: &[&[0, 1, 1, 0], &TRANSVECTION],
        max: 5,
        order: Err(6),
    },
    Order {
        p: 3,
        gens: &[&[0, 1, -1, 0], &[1, 1, 1, -1]],
        max: 100,
        order: Ok(8),
    },
    Order {
        p: 3,
        gens: &[&[0, 1, -1, 0], &[0, 1, -1, 0]],
        max: 100,
        order: Ok(4),
    },
    Order {
        p: 11,
        gens: &[&[2, 0, 0, 1]],
        max: 9,
        order: Err(10),
    },
    Order {
        p: 11,
        gens: &[&[2, 0, 0, 1]],
        max: 10,
        order: Ok(10),
    },
    Order {
        p: 257,
        gens: &[&[3, 0, 0, 1]],
        max: 1000,
        order: Ok(256),
    },
];

/// The order of the group of the matrices over GF(p), by `enumerate`, or how many elements are counted.
fn order_of(case: &Order, alloc: Global) -> Result<Result<u64, u64>, Fail> {
    let field = field(case.p)?;
    let gens = generators(alloc, &field, 2, case.gens)?;
    let max = case.max.min(1000);
    match enumerate(alloc, &field, gens.as_slice(), max) {
        Ok(group) => Ok(Ok(group.order())),
        Err(GroupFault::GroupBound { counted }) => Ok(Err(counted)),
        Err(GroupFault::Memory) => Err(Fail::new("memory")),
    }
}

#[test]
fn counts_the_elements(rt: HostRuntime) -> Result<(), Fail> {
    for case in &ORDERS {
        let order = order_of(case, rt.alloc())?;
        assert_eq!(rt; order, case.order, "over GF({})", case.p);
    }
    Ok(())
}

// Each element in turn is multiplied from the right by the swap, and then by the transvection.
#[test]
fn lists_elements_as_they_are_found(rt: HostRuntime) -> Result<(), Fail> {
    let alloc = rt.alloc();
    let field = field(2)?;
    let gens = generators(alloc, &field, 2, &[&[0, 1, 1, 0], &TRANSVECTION])?;
    let listed = [
        [1, 0, 0, 1],
        [0, 1, 1, 0],
        [1, 1, 0, 1],
        [0, 1, 1, 1],
        [1, 1, 1, 0],
        [1, 0, 1, 1],
    ];
    let Ok(group) = enumerate(alloc, &field, gens.as_slice(), 6) else {
        return Err(Fail::new("no group"));
    };
    let elements = group.elements();
    assert_eq!(rt; elements.len(), listed.len());
    for i in 0..listed.len() {
        if i < elements.len() {
            assert_eq!(rt;
                elements[i].cells.as_slice(),
                listed[i].as_slice(),
                "element {i}"
            );
        }
    }
    Ok(())
}

#[test]
fn group_faults_have_their_words(rt: HostRuntime) -> Result<(), Fail> {
    let alloc = rt.alloc();
    let fault = GroupFault::GroupBound { counted: 7 };
    assert_eq!(rt; format!(in alloc; "{fault}")?.as_str(), "bound group 7");
    Ok(())
}
