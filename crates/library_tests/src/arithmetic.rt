//! Sums, multiples, products and values of polynomials over GF(3), and those that are made at once.

ghost use Rattle.std.specs.Prelude.{IfOk, All};
ghost use Rattle.alg_core.specs.Spaces.{over, entries};
ghost use Rattle.poly_module.specs.SpaceVectors.{IsVector, IsPoly, ArePolys};
ghost use Rattle.test_inputs.specs.Smallness.{IsSmall};

use alg_core::{Field, ModTerm, Mono, Space, TermOrder, is_place};
use poly_module::{
    Poly, add, are_equal, coefficient, copy, monomial, mul, mul_term, one, scale, single, sub,
    substitute, variable,
};
use prime_field::PrimeField;
use std::alloc::Global;
use std::test::Fail;
use test_inputs::{Entry, has_polynomials, is_small_monomial, read, shown, space, term};

/// Two polynomials over GF(3), with their sum and their difference.
#[derive(Clone, Copy)]
struct Sum {
    left: &'static str,
    right: &'static str,
    sum: &'static str,
    difference: &'static str,
}

#[test]
fn adds_and_subtracts(rt: HostRuntime) -> Result<(), Fail> {
    let alloc = rt.alloc();
    let space = space(alloc, 3)?;
    let table = [
        Sum {
            left: "x-y",
            right: "-x-y+1",
            sum: "y+1",
            difference: "-x-1",
        },
        Sum {
            left: "x-y",
            right: "x-y",
            sum: "-x+y",
            difference: "0",
        },
    ];
    for case in table {
        let a = read(alloc, &space, case.left)?;
        let b = read(alloc, &space, case.right)?;
        let sum = add(alloc, &space, &a, &b)?;
        assert_eq!(rt; shown(alloc, &space, &sum)?.as_slice(), case.sum.as_bytes());
        let difference = sub(alloc, &space, &a, &b)?;
        assert_eq!(rt;
            shown(alloc, &space, &difference)?.as_slice(),
            case.difference.as_bytes()
        );
    }
    Ok(())
}

/// x - y over GF(3) times a value, and that times x*z.
#[derive(Clone, Copy)]
struct Multiple {
    factor: u16,
    scaled: &'static str,
    shifted: &'static str,
}

/// The text of a multiple of f by a term, by `mul_term`.
fn shifted<O: TermOrder>(
    alloc: Global,
    space: &Space<PrimeField, O>,
    factor: &Entry,
    f: &Poly<u16>,
) -> Result<Vec<u8>, Fail>
    requires polynomial { IsPoly (over ⟦<PrimeField as Field>⟧.field O.order space.now) (λ m. m) f.now }
    requires small { IsSmall (entries (λ m. m) f.now) }
{
    let factor = term(alloc, space, factor)?;
    if !is_small_monomial(&factor.at.mono) {
        return Err(Fail::new("the factor is not small"));
    }
    let multiple = mul_term(alloc, space, factor.coef, &factor.at.mono, f)?;
    shown(alloc, space, &multiple)
}

/// The text of a multiple of f by a value, by `scale`.
fn scaled<O: TermOrder>(
    alloc: Global,
    space: &Space<PrimeField, O>,
    factor: u16,
    f: &Poly<u16>,
) -> Result<Vec<u8>, Fail>
    requires polynomial { IsPoly (over ⟦<PrimeField as Field>⟧.field O.order space.now) (λ m. m) f.now }
{
    if !space.field.has(factor) {
        return Err(Fail::new("no value of the field"));
    }
    let multiple = scale(alloc, space, factor, f)?;
    shown(alloc, space, &multiple)
}

#[test]
fn multiplies_by_terms(rt: HostRuntime) -> Result<(), Fail> {
    let alloc = rt.alloc();
    let space = space(alloc, 3)?;
    let f = read(alloc, &space, "x-y")?;
    let table = [
        Multiple {
            factor: 0,
            scaled: "0",
            shifted: "0",
        },
        Multiple {
            factor: 2,
            scaled: "-x+y",
            shifted: "-x^2*z+x*y*z",
        },
    ];
    for case in table {
        assert_eq!(rt;
            scaled(alloc, &space, case.factor, &f)?.as_slice(),
            case.scaled.as_bytes()
        );
        let factor = (case.factor, 0, [1, 0, 1]);
        assert_eq!(rt;
            shifted(alloc, &space, &factor, &f)?.as_slice(),
            case.shifted.as_bytes()
        );
    }
    Ok(())
}

/// The text of a product.
fn product_of<O: TermOrder>(
    alloc: Global,
    space: &Space<PrimeField, O>,
    f: &Poly<u16>,
    g: &Poly<u16>,
) -> Result<Vec<u8>, Fail>
    requires left { IsPoly (over ⟦<PrimeField as Field>⟧.field O.order space.now) (λ m. m) f.now }
    requires right { IsPoly (over ⟦<PrimeField as Field>⟧.field O.order space.now) (λ m. m) g.now }
    requires small { IsSmall (entries (λ m. m) f.now) }
    requires small_too { IsSmall (entries (λ m. m) g.now) }
{
    let product = mul(alloc, space, f, g)?;
    shown(alloc, space, &product)
}

/// Two polynomials over GF(3), and their product.
#[derive(Clone, Copy)]
struct Product {
    left: &'static str,
    right: &'static str,
    product: &'static str,
}

#[test]
fn multiplies_polynomials(rt: HostRuntime) -> Result<(), Fail> {
    let alloc = rt.alloc();
    let space = space(alloc, 3)?;
    let table = [
        Product {
            left: "x+y",
            right: "x-y",
            product: "x^2-y^2",
        },
        Product {
            left: "x+y+z",
            right: "x^2-x*y+y^2-x*z-y*z+z^2",
            product: "x^3+y^3+z^3",
        },
        Product {
            left: "0",
            right: "x",
            product: "0",
        },
        Product {
            left: "x",
            right: "0",
            product: "0",
        },
    ];
    for case in table {
        let f = read(alloc, &space, case.left)?;
        let g = read(alloc, &space, case.right)?;
        let product = product_of(alloc, &space, &f, &g)?;
        assert_eq!(rt; product.as_slice(), case.product.as_bytes());
    }
    Ok(())
}

/// A polynomial over GF(3), what is put for x, y and z, and the value.
#[derive(Clone, Copy)]
struct Value {
    f: &'static str,
    images: [&'static str; 3],
    value: &'static str,
}

const VALUES: [Value; 5] = [
    Value {
        f: "x^2*y",
        images: ["x+y", "x-y", "z"],
        value: "x^3+x^2*y-x*y^2-y^3",
    },
    Value {
        f: "x-y",
        images: ["y", "x", "z"],
        value: "-x+y",
    },
    Value {
        f: "-1",
        images: ["x+y", "x-y", "z"],
        value: "-1",
    },
    Value {
        f: "0",
        images: ["x+y", "x-y", "z"],
        value: "0",
    },
    Value {
        f: "x*y+z",
        images: ["x", "-x", "x^2"],
        value: "0",
    },
];

/// The polynomials with these texts.
fn read_all<O: TermOrder>(
    alloc: Global,
    space: &Space<PrimeField, O>,
    texts: &[&str],
) -> Result<Vec<Poly<u16>>, Fail>
    ensures images { IfOk result (λ fs. ArePolys (over ⟦<PrimeField as Field>⟧.field O.order space.now) (λ m. m) fs.items) }
    ensures small { IfOk result (λ fs. All (λ f. IsSmall (entries (λ m. m) f)) fs.items) }
{
    let mut polynomials = Vec::new(alloc);
    for text in texts {
        polynomials.push(read(alloc, space, text)?)?;
    }
    Ok(polynomials)
}

/// The text of the value of f at the images.
fn value_of<O: TermOrder>(
    alloc: Global,
    space: &Space<PrimeField, O>,
    f: &Poly<u16>,
    images: &[&str],
) -> Result<Vec<u8>, Fail>
    requires polynomial { IsPoly (over ⟦<PrimeField as Field>⟧.field O.order space.now) (λ m. m) f.now }
    requires small { IsSmall (entries (λ m. m) f.now) }
{
    let images = read_all(alloc, space, images)?;
    if images.len() != 3 || !has_polynomials(alloc, space)? {
        return Err(Fail::new("no three variables"));
    }
    let value = substitute(alloc, space, f, images.as_slice())?;
    shown(alloc, space, &value)
}

#[test]
fn substitutes_images_in_order(rt: HostRuntime) -> Result<(), Fail> {
    let alloc = rt.alloc();
    let space = space(alloc, 3)?;
    for case in &VALUES {
        let f = read(alloc, &space, case.f)?;
        let value = value_of(alloc, &space, &f, &case.images)?;
        assert_eq!(rt; value.as_slice(), case.value.as_bytes());
    }
    Ok(())
}

/// The text of a multiple of x^a·y^b·z^c, by `monomial`.
fn monomial_text<O: TermOrder>(
    alloc: Global,
    space: &Space<PrimeField, O>,
    coef: u16,
    exponents: &[u32],
) -> Result<Vec<u8>, Fail> {
    if !has_polynomials(alloc, space)? || !space.field.has(coef) || exponents.len() != 3 {
        return Err(Fail::new("no monomial"));
    }
    let made = monomial(alloc, space, coef, exponents)?;
    shown(alloc, space, &made)
}

/// The text of variable i, from 0, or of 1, where there is none.
fn variable_text<O: TermOrder>(
    alloc: Global,
    space: &Space<PrimeField, O>,
    i: usize,
) -> Result<Vec<u8>, Fail> {
    if !has_polynomials(alloc, space)? {
        return Err(Fail::new("no polynomials"));
    }
    let made = if i < 3 {
        variable(alloc, space, i)?
    } else {
        one(alloc, space)?
    };
    shown(alloc, space, &made)
}

#[test]
fn makes_polynomials_at_once(rt: HostRuntime) -> Result<(), Fail> {
    let alloc = rt.alloc();
    let space = space(alloc, 3)?;
    let made = monomial_text(alloc, &space, 2, &[1, 0, 1])?;
    assert_eq!(rt; made.as_slice(), b"-x*z".as_slice());
    for (i, text) in [(1, "y"), (3, "1")] {
        assert_eq!(rt;
            variable_text(alloc, &space, i)?.as_slice(),
            text.as_bytes()
        );
    }
    Ok(())
}

/// The coefficient of f at the exponents.
fn coefficient_of<O: TermOrder>(
    alloc: Global,
    space: &Space<PrimeField, O>,
    f: &Poly<u16>,
    exponents: &[u32],
) -> Result<u16, Fail>
    requires polynomial { IsPoly (over ⟦<PrimeField as Field>⟧.field O.order space.now) (λ m. m) f.now }
{
    let mono = Mono::from_exps(alloc, exponents)?;
    let at = ModTerm { pos: 0, mono };
    if is_place(space, &at) {
        Ok(coefficient(space, f, &at))
    } else {
        Err(Fail::new("no place"))
    }
}

#[test]
fn looks_polynomials_up(rt: HostRuntime) -> Result<(), Fail> {
    let alloc = rt.alloc();
    let space = space(alloc, 3)?;
    let f = read(alloc, &space, "x^2-y")?;
    assert_eq!(rt; coefficient_of(alloc, &space, &f, &[0, 1, 0])?, 2);
    assert_eq!(rt; coefficient_of(alloc, &space, &f, &[1, 1, 0])?, 0);
    let g = copy(alloc, &f)?;
    assert_eq!(rt; g.terms().len(), 2);
    let y = term(alloc, &space, &(2, 0, [0, 1, 0]))?;
    let h = single(alloc, &space, &y)?;
    assert!(rt; are_equal(&space, &f, &f));
    assert!(rt; !are_equal(&space, &f, &h));
    Ok(())
}
