//! Vectors, made of terms.

ghost use Rattle.std.specs.Prelude.{◌^◌, ◌-◌, IfOk, IsTrue};
ghost use Rattle.alg_core.specs.Fields.{Has};
ghost use Rattle.alg_core.specs.Spaces.{over, place, IsPlace};
ghost use Rattle.poly_module.specs.SpaceVectors.{vector_of, IsVector, IsUpTo};

use alg_core::{Field, ModTerm, Mono, Monomial, Space, Term, TermOrder, is_place, term_degree};
use poly_module::{Vector, make};
use std::alloc::Global;
use std::test::Fail;

/// A coefficient, a position and the exponents of x, y and z.
pub type Entry = (u16, u64, [u32; 3]);

/// The term, where it is one of the space.
pub fn term<F: Field<Elem = u16>, O: TermOrder>(
    alloc: Global,
    space: &Space<F, O>,
    entry: &Entry,
) -> Result<Term<u16, Mono>, Fail>
    ensures has { IfOk result (λ t. Has (F.field space.now.field) t.coef) }
    ensures place { IfOk result (λ t. IsPlace (over F.field O.order space.now) (place (λ m. m) t.at)) }
{
    let (coef, pos, exps) = *entry;
    let at = ModTerm {
        pos,
        mono: Mono::from_exps(alloc, &exps)?,
    };
    if space.field.has(coef) && is_place(space, &at) {
        Ok(Term { coef, at })
    } else {
        Err(Fail::new("no term of the space"))
    }
}

/// The sum of the terms, by `make`.
pub fn vector<F: Field<Elem = u16>, O: TermOrder>(
    alloc: Global,
    space: &Space<F, O>,
    listed: &[Entry],
) -> Result<Vector<u16, Mono>, Fail>
    ensures vector { IfOk result (IsVector (over F.field O.order space.now) (λ m. m)) }
{
    let mut terms = Vec::new(alloc);
    for entry in listed {
        terms.push(term(alloc, space, entry)?)?;
    }
    let made = make(alloc, space, terms.as_slice())?;
    Ok(made)
}

/// Whether no term has a degree over 1000.
pub fn has_small_degrees<F: Field<Elem = u16>, O: TermOrder>(
    space: &Space<F, O>,
    v: &Vector<u16, Mono>,
) -> bool
    requires vector { IsVector (over F.field O.order space.now) (λ m. m) v.now }
    ensures is { let S = over F.field O.order space.now in IsTrue result → IsUpTo S (2 ^ 64 - 1) (vector_of S (λ m. m) v.now) }
    ensures low { let S = over F.field O.order space.now in IsTrue result → IsUpTo S (2 ^ 31 - 1) (vector_of S (λ m. m) v.now) }
{
    let terms = v.terms();
    for i in 0..terms.len() {
        let t = &terms[i];
        if term_degree(space, &t.at) > 1000 {
            return false;
        }
    }
    true
}
