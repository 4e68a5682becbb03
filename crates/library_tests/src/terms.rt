//! Monomials, names, and the orders of terms.

use alg_core::{
    BlockOrder, Dp, ElimOrder, Field, ModTerm, Mono, Monomial, Name, TermOrder, is_zero,
    weighted_degree,
};
use std::alloc::Global;
use std::cmp::Ordering;
use std::process::Abort;
use std::test::Fail;
use test_inputs::field;

/// Two terms, each a position with the exponents of x, y and z, of which the first is greater.
#[derive(Clone, Copy)]
struct Falling {
    greater: (u64, [u32; 3]),
    smaller: (u64, [u32; 3]),
}

/// The term at a position with these exponents.
fn term(alloc: Global, place: (u64, [u32; 3])) -> Result<ModTerm<Mono>, Fail> {
    let (pos, exps) = place;
    let mono = Mono::from_exps(alloc, &exps)?;
    Ok(ModTerm { pos, mono })
}

/// Compares terms of any kind of monomial, where they fit.
fn compared<O: TermOrder, M: Monomial>(
    order: &O,
    a: &ModTerm<M>,
    b: &ModTerm<M>,
) -> Option<Ordering> {
    if order.fits(a) && order.fits(b) {
        Some(order.compare(a, b))
    } else {
        None
    }
}

/// Compares the two both ways.
fn examine<O: TermOrder>(
    rt: &impl Abort,
    alloc: Global,
    order: &O,
    falling: &Falling,
) -> Result<(), Fail> {
    let a = term(alloc, falling.greater)?;
    let b = term(alloc, falling.smaller)?;
    assert_eq!(rt; compared(order, &a, &b), Some(Ordering::Greater));
    assert_eq!(rt; compared(order, &b, &a), Some(Ordering::Less));
    assert_eq!(rt; compared(order, &a, &a), Some(Ordering::Equal));
    Ok(())
}

// The monomials of degree 2 fall as in Singular's `dp`: x^2, x*y, y^2, x*z, y*z, z^2.
#[test]
fn dp_falls_through_the_quadratic_monomials(rt: HostRuntime) -> Result<(), Fail> {
    let alloc = rt.alloc();
    let order = Dp {
        weights: vec![in alloc; 1, 1, 1]?,
    };
    let falling = [
        [2, 0, 0],
        [1, 1, 0],
        [0, 2, 0],
        [1, 0, 1],
        [0, 1, 1],
        [0, 0, 2],
    ];
    for i in 1..falling.len() {
        let pair = Falling {
            greater: (0, falling[i - 1]),
            smaller: (0, falling[i]),
        };
        examine(&rt, alloc, &order, &pair)?;
    }
    Ok(())
}

#[test]
fn dp_goes_by_weights_and_positions(rt: HostRuntime) -> Result<(), Fail> {
    let alloc = rt.alloc();
    let order = Dp {
        weights: vec![in alloc; 3, 1, 1]?,
    };
    let table = [
        Falling {
            greater: (0, [1, 0, 0]),
            smaller: (0, [0, 2, 0]),
        },
        Falling {
            greater: (0, [1, 0, 0]),
            smaller: (1, [1, 0, 0]),
        },
    ];
    for pair in table {
        examine(&rt, alloc, &order, &pair)?;
    }
    Ok(())
}

#[test]
fn block_order_goes_by_the_first_block(rt: HostRuntime) -> Result<(), Fail> {
    let alloc = rt.alloc();
    let order = BlockOrder {
        vars: 1,
        weights: vec![in alloc; 5, 5]?,
    };
    let table = [
        Falling {
            greater: (0, [1, 0, 0]),
            smaller: (0, [0, 2, 0]),
        },
        Falling {
            greater: (0, [0, 2, 0]),
            smaller: (0, [0, 1, 0]),
        },
    ];
    for pair in table {
        examine(&rt, alloc, &order, &pair)?;
    }
    let narrow = ModTerm {
        pos: 0,
        mono: Mono::from_exps(alloc, &[1])?,
    };
    assert_eq!(rt; compared(&order, &narrow, &narrow), None);
    Ok(())
}

#[test]
fn elimination_order_goes_by_the_first_positions(rt: HostRuntime) -> Result<(), Fail> {
    let alloc = rt.alloc();
    let order = ElimOrder {
        first: 1,
        weights: vec![in alloc; 1, 0, 1]?,
    };
    let table = [
        Falling {
            greater: (0, [0, 2, 0]),
            smaller: (1, [1, 0, 0]),
        },
        Falling {
            greater: (1, [2, 0, 0]),
            smaller: (1, [1, 0, 0]),
        },
    ];
    for pair in table {
        examine(&rt, alloc, &order, &pair)?;
    }
    assert!(rt; !order.is_positive());
    Ok(())
}

/// The exponents of a monomial of two variables.
fn pair<M: Monomial>(m: &M) -> Option<(u32, u32)> {
    if m.len() == 2 {
        Some((m.exp(0), m.exp(1)))
    } else {
        None
    }
}

// (3, 1) with (1, 1): product, quotient; with (0, 4): the least common multiple.
#[test]
fn monomials_are_computed(rt: HostRuntime) -> Result<(), Fail> {
    let alloc = rt.alloc();
    let a = Mono::from_exps(alloc, &[3, 1])?;
    let b = Mono::from_exps(alloc, &[1, 1])?;
    assert_eq!(rt; pair(&a.product(alloc, &b)?), Some((4, 2)));
    assert!(rt; b.divides(&a));
    assert_eq!(rt; pair(&a.quotient(alloc, &b)?), Some((2, 0)));
    assert_eq!(rt; weighted_degree(&[5, 7], 0, &a), 22);
    Ok(())
}

#[test]
fn monomials_have_multiples_and_copies(rt: HostRuntime) -> Result<(), Fail> {
    let alloc = rt.alloc();
    let a = Mono::from_exps(alloc, &[3, 1])?;
    let b = Mono::from_exps(alloc, &[0, 4])?;
    assert!(rt; !b.divides(&a));
    assert_eq!(rt; pair(&a.lcm(alloc, &b)?), Some((3, 4)));
    assert_eq!(rt; pair(&b.copy(alloc)?), Some((0, 4)));
    Ok(())
}

#[test]
fn names_are_their_bytes(rt: HostRuntime) -> Result<(), Fail> {
    let name = Name::new(rt.alloc(), b"x_1")?;
    assert_eq!(rt; name.bytes(), b"x_1".as_slice());
    Ok(())
}

#[test]
fn zero_is_told(rt: HostRuntime) -> Result<(), Fail> {
    let field = field(3)?;
    assert!(rt; is_zero(&field, field.zero()));
    assert!(rt; !is_zero(&field, field.one()));
    Ok(())
}
