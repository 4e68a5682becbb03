//! Texts of polynomials: what is read prints again, and what is told of all other texts.

ghost use Rattle.std.specs.Prelude.{IfOk, IsTrue};
ghost use Rattle.alg_core.specs.Spaces.{over};
ghost use Rattle.poly_module.specs.SpaceVectors.{HasPolynomials};

use alg_core::{Dp, Field, ModTerm, Mono, Space, TermOrder, ValueKind, is_place};
use poly_text::{Names, TextFault, print_poly, read_poly};
use prime_field::PrimeField;
use std::alloc::Global;
use std::test::Fail;
use test_inputs::{are_three, has_places, names, space_by};

/// Polynomials over GF(p) in x, y and z, and, where they are marked, in `@1`, `@2` and `$1`.
fn space(alloc: Global, p: u32, is_marked: bool) -> Result<Space<PrimeField, Dp>, Fail> {
    let weights: &[u32] = if is_marked {
        &[1, 1, 1, 1, 1, 1]
    } else {
        &[1, 1, 1]
    };
    let order = Dp {
        weights: Vec::from_slice(alloc, weights)?,
    };
    space_by(alloc, p, order, weights, &[0])
}

/// Whether there are polynomials over the space.
fn has_polynomials(alloc: Global, space: &Space<PrimeField, Dp>) -> Result<bool, Fail>
    ensures has { IfOk result (λ b. IsTrue b → HasPolynomials (over ⟦<PrimeField as Field>⟧.field ⟦<Dp as TermOrder>⟧.order space.now)) }
{
    let zeros = vec![in alloc; 0; space.grading.weights.len()]?;
    let mono = Mono::from_exps(alloc, zeros.as_slice())?;
    let at = ModTerm { pos: 0, mono };
    Ok(is_place(space, &at))
}

/// What `read_poly` answers, the polynomial by its printed text.
fn read_again(
    alloc: Global,
    space: &Space<PrimeField, Dp>,
    names: &Names,
    text: &str,
) -> Result<Result<Vec<u8>, TextFault>, Fail> {
    if !has_places(names, space.grading.weights.len())
        || !are_three(names)
        || !has_polynomials(alloc, space)?
    {
        return Err(Fail::new("no polynomials in these names"));
    }
    match read_poly(alloc, space, names, text.as_bytes()) {
        Ok(f) => Ok(Ok(print_poly(alloc, space, names, &f)?)),
        Err(fault) => Ok(Err(fault)),
    }
}

/// The same over GF(p).
fn answer(
    alloc: Global,
    p: u32,
    is_marked: bool,
    text: &str,
) -> Result<Result<Vec<u8>, TextFault>, Fail> {
    let space = space(alloc, p, is_marked)?;
    let names = if is_marked {
        names(alloc, Some(2), Some(1))?
    } else {
        names(alloc, None, None)?
    };
    read_again(alloc, &space, &names, text)
}

/// A text that is printed over GF(p).
#[derive(Clone, Copy)]
struct Text {
    p: u32,
    text: &'static str,
}

const TEXTS: [Text; 8] = [
    Text { p: 3, text: "0" },
    Text { p: 3, text: "-1" },
    Text {
        p: 3,
        text: "x^4096",
    },
    Text {
        p: 3,
        text: "x^2*y*@1*@2^3*$1-@2*$1^2-x*y+1",
    },
    Text {
        p: 11,
        text: "4*y^12-5*x^3-5",
    },
    Text {
        p: 32003,
        text: "16001*x-16001*y",
    },
    Text {
        p: 2,
        text: "x+y+@1+@2+$1+1",
    },
    Text {
        p: 257,
        text: "-128*x^10*$1^11",
    },
];

#[test]
fn reads_what_is_printed(rt: HostRuntime) -> Result<(), Fail> {
    for case in &TEXTS {
        match answer(rt.alloc(), case.p, true, case.text)? {
            Ok(printed) => assert_eq!(rt; printed.as_slice(), case.text.as_bytes()),
            Err(fault) => panic!(rt; "{}: {fault:?}", case.text),
        }
    }
    Ok(())
}

/// A text of the grammar over GF(p) that is not printed: the first term and condition that fails.
#[derive(Clone, Copy)]
struct ValueFault {
    p: u32,
    text: &'static str,
    term: u64,
    kind: ValueKind,
}

const VALUE_FAULTS: [ValueFault; 17] = [
    ValueFault {
        p: 3,
        text: "y+x",
        term: 2,
        kind: ValueKind::Order,
    },
    ValueFault {
        p: 3,
        text: "x+x",
        term: 2,
        kind: ValueKind::Order,
    },
    ValueFault {
        p: 3,
        text: "2*y",
        term: 1,
        kind: ValueKind::Coefficient,
    },
    ValueFault {
        p: 2,
        text: "-x",
        term: 1,
        kind: ValueKind::Coefficient,
    },
    ValueFault {
        p: 2,
        text: "2",
        term: 1,
        kind: ValueKind::Coefficient,
    },
    ValueFault {
        p: 3,
        text: "x^4097",
        term: 1,
        kind: ValueKind::Exponent,
    },
    ValueFault {
        p: 3,
        text: "x^5000",
        term: 1,
        kind: ValueKind::Exponent,
    },
    ValueFault {
        p: 3,
        text: "x^3000*y^2000",
        term: 1,
        kind: ValueKind::Degree,
    },
    ValueFault {
        p: 3,
        text: "w",
        term: 1,
        kind: ValueKind::Name,
    },
    ValueFault {
        p: 3,
        text: "x+w",
        term: 2,
        kind: ValueKind::Name,
    },
    ValueFault {
        p: 3,
        text: "@1",
        term: 1,
        kind: ValueKind::Name,
    },
    ValueFault {
        p: 3,
        text: "$1",
        term: 1,
        kind: ValueKind::Name,
    },
    ValueFault {
        p: 3,
        text: "%1",
        term: 1,
        kind: ValueKind::Name,
    },
    ValueFault {
        p: 3,
        text: "ring1",
        term: 1,
        kind: ValueKind::Name,
    },
    ValueFault {
        p: 3,
        text: "y*w^5000+2",
        term: 1,
        kind: ValueKind::Name,
    },
    ValueFault {
        p: 3,
        text: "y*x",
        term: 1,
        kind: ValueKind::Factor,
    },
    ValueFault {
        p: 3,
        text: "x*x",
        term: 1,
        kind: ValueKind::Factor,
    },
];

#[test]
fn tells_the_first_fault_of_values(rt: HostRuntime) -> Result<(), Fail> {
    for case in &VALUE_FAULTS {
        let Err(found) = answer(rt.alloc(), case.p, false, case.text)? else {
            panic!(rt; "{} was read", case.text);
        };
        let fault = TextFault::Value {
            term: case.term,
            kind: case.kind,
        };
        assert_eq!(rt; found, fault, "{}", case.text);
    }
    Ok(())
}

#[test]
fn tells_an_index_past_its_list(rt: HostRuntime) -> Result<(), Fail> {
    let Err(found) = answer(rt.alloc(), 3, true, "@3+x")? else {
        return Err(Fail::new("read"));
    };
    let fault = TextFault::Value {
        term: 1,
        kind: ValueKind::Index,
    };
    assert_eq!(rt; found, fault);
    Ok(())
}

/// A text that is none of the grammar, and where it leaves it.
#[derive(Clone, Copy)]
struct SyntaxFault {
    text: &'static str,
    place: u64,
}

const SYNTAX_FAULTS: [SyntaxFault; 19] = [
    SyntaxFault { text: "", place: 0 },
    SyntaxFault {
        text: "+x",
        place: 0,
    },
    SyntaxFault {
        text: "-",
        place: 1,
    },
    SyntaxFault {
        text: "x*",
        place: 2,
    },
    SyntaxFault {
        text: "x^1",
        place: 3,
    },
    SyntaxFault {
        text: "x^0",
        place: 2,
    },
    SyntaxFault {
        text: "x^2^2",
        place: 3,
    },
    SyntaxFault {
        text: "x y",
        place: 1,
    },
    SyntaxFault {
        text: "@0",
        place: 1,
    },
    SyntaxFault {
        text: "@01",
        place: 1,
    },
    SyntaxFault {
        text: "@123456",
        place: 6,
    },
    SyntaxFault {
        text: "1*x",
        place: 1,
    },
    SyntaxFault {
        text: "0*x",
        place: 1,
    },
    SyntaxFault {
        text: "00",
        place: 1,
    },
    SyntaxFault {
        text: "-0",
        place: 1,
    },
    SyntaxFault {
        text: "x+0",
        place: 2,
    },
    SyntaxFault {
        text: "123456",
        place: 5,
    },
    SyntaxFault {
        text: "ring",
        place: 4,
    },
    SyntaxFault {
        text: "ring*x",
        place: 4,
    },
];

#[test]
fn tells_where_the_grammar_is_left(rt: HostRuntime) -> Result<(), Fail> {
    for case in &SYNTAX_FAULTS {
        let Err(found) = answer(rt.alloc(), 3, false, case.text)? else {
            panic!(rt; "{} was read", case.text);
        };
        let fault = TextFault::Syntax { place: case.place };
        assert_eq!(rt; found, fault, "{}", case.text);
    }
    Ok(())
}
