ghost use Rattle.std.specs.Prelude.{◌≡◌, ◌<◌, ◌≤◌, ℕ, All, IfNone, IfOk, IfSome, length, replicate, slice_index_or, slice_set};
ghost use Rattle.alg_core.specs.Keys.{key, Key};
ghost use Rattle.alg_core.specs.Spaces.{over, IsPlace};
ghost use Rattle.poly_module.specs.MonomialVariables.{variable};
ghost use Rattle.poly_module.specs.SpaceVectors.{IsPoly, IsVector};
ghost use Rattle.invariant_space.specs.Images.{IsQuotient, AreQuotients, IsTable};
ghost use Rattle.invariant_space.specs.Monomials.{keys_of};

use alg_core::{Field, Memory, ModTerm, Mono, Space, Term, TermOrder};
use poly_module::Poly;
use std::alloc::Global;
use std::cmp::Ordering;

/// Where a monomial stands in a list of terms, from one place on and before another.
fn place_between<F: Field, O: TermOrder>(
    space: &Space<F, O>,
    terms: &[Term<F::Elem, Mono>],
    at: &ModTerm<Mono>,
    from: usize,
    to: usize,
) -> Option<usize>
    requires place { IsPlace (over F.field O.order space.now) (at.now.pos, at.now.mono) }
    requires fits { IsVector (over F.field O.order space.now) (λ m. m) terms.now }
    requires to { to ≤ length terms.now }
    ensures within { IfSome result (λ i. i < length terms.now) }
    ensures some { let t = key (at.now.pos, at.now.mono) in
        IfSome result (λ i. slice_index_or (keys_of terms.now) i t ≡ t) }
    ensures none { let t = key (at.now.pos, at.now.mono) in IfNone result ((i : ℕ) → from ≤ i → i < to
        → (v : Key) → slice_index_or (keys_of terms.now) i v ≡ v → ¬ (v ≡ t)) }
{
    for i in from..to {
        let term = &terms[i];
        match space.order.compare(&term.at, at) {
            Ordering::Equal => return Some(i),
            _ => {}
        }
    }
    None
}

/// Where the quotient of a monomial t by the variable x stands in the list of the degree below. The
/// search begins at a place and goes on from the front.
fn quotient_place<F: Field, O: TermOrder>(
    alloc: Global,
    space: &Space<F, O>,
    below: &Poly<F::Elem>,
    t: &ModTerm<Mono>,
    x: &ModTerm<Mono>,
    from: usize,
) -> Result<Option<usize>, Memory>
    requires fits { IsVector (over F.field O.order space.now) (λ m. m) below.now }
    requires place { IsPlace (over F.field O.order space.now) (t.now.pos, t.now.mono) }
    requires position { t.now.pos ≡ 0 }
    requires same { length t.now.mono ≡ length x.now.mono }
    requires from { from ≤ length below.now }
    ensures within { IfOk result (λ o. IfSome o (λ u. u < length below.now)) }
    ensures quotient { IfOk result (λ o. (j : ℕ) → key (x.now.pos, x.now.mono) ≡ (0, variable j)
        → IsQuotient (keys_of below.now) j (key (t.now.pos, t.now.mono)) o) }
{
    if !x.divides(t) {
        return Ok(None);
    }
    let mono = t.quotient(alloc, x)?;
    let at = ModTerm { pos: t.pos, mono };
    let terms = below.terms();
    match place_between(space, terms, &at, from, terms.len()) {
        Some(place) => Ok(Some(place)),
        None => Ok(place_between(space, terms, &at, 0, from)),
    }
}

/// The places of the quotients by one variable. The quotients of a falling list fall, so each is sought
/// from the place of the one before it on.
fn quotients<F: Field, O: TermOrder>(
    alloc: Global,
    space: &Space<F, O>,
    above: &Poly<F::Elem>,
    below: &Poly<F::Elem>,
    x: &ModTerm<Mono>,
) -> Result<Vec<Option<usize>>, Memory>
    requires above { IsPoly (over F.field O.order space.now) (λ m. m) above.now }
    requires below { IsVector (over F.field O.order space.now) (λ m. m) below.now }
    requires wide { length x.now.mono ≡ length space.now.grading.weights.items }
    ensures quotients { IfOk result (λ r. (j : ℕ) → key (x.now.pos, x.now.mono) ≡ (0, variable j)
        → AreQuotients (keys_of above.now) (keys_of below.now) j r.items) }
{
    let mut places = Vec::new(alloc);
    let mut from = 0;
    for term in above.terms() {
        let place = quotient_place(alloc, space, below, &term.at, x, from)?;
        from = place.unwrap_or(from);
        places.push(place)?;
    }
    Ok(places)
}

/// Variable i as a monomial in so many variables.
fn variable_monomial(alloc: Global, variables: usize, i: usize) -> Result<Mono, Memory>
    requires variable { i < variables }
    ensures is { IfOk result (λ m. m ≡ slice_set (replicate variables 0) i 1) }
{
    let mut exponents = vec![in alloc; 0; variables]?;
    exponents[i] = 1;
    let mono = Mono::from_exps(alloc, exponents.as_slice())?;
    Ok(mono)
}

/// For each variable the places in the list below of the quotients of the monomials above.
pub(crate) fn table<F: Field, O: TermOrder>(
    alloc: Global,
    space: &Space<F, O>,
    above: &Poly<F::Elem>,
    below: &Poly<F::Elem>,
) -> Result<Vec<Vec<Option<usize>>>, Memory>
    requires above { IsPoly (over F.field O.order space.now) (λ m. m) above.now }
    requires below { IsVector (over F.field O.order space.now) (λ m. m) below.now }
    ensures count { IfOk result (λ r. length r.items ≡ length space.now.grading.weights.items) }
    ensures table { IfOk result (λ r. IsTable (keys_of above.now) (keys_of below.now) r.items) }
{
    let mut table = Vec::new(alloc);
    let variables = space.grading.weights.len();
    for j in 0..variables {
        let mono = variable_monomial(alloc, variables, j)?;
        let x = ModTerm { pos: 0, mono };
        table.push(quotients(alloc, space, above, below, &x)?)?;
    }
    Ok(table)
}
