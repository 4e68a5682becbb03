ghost use Rattle.std.specs.Prelude.{◌≡◌, ℕ, ◌<◌, ◌≤◌, ◌+◌, ◌^◌, ◌++◌, List, length, map, All, IfOk};
ghost use Rattle.alg_core.specs.Spaces.{over, entry, entries};
ghost use Rattle.poly_module.specs.SpaceVectors.{IsVector};
ghost use Rattle.poly_text.specs.Outputs.{Says};
ghost use Rattle.poly_text.specs.Syntax.{spelling};
ghost use Rattle.poly_text.specs.Texts.{at_position, by_position, combination_term, combination_text};
ghost use Rattle.poly_text.specs.Printing.{term_text, led, IsFirstPosition, IsNearer};

use crate::output::Output;
use crate::print::{
    absolute, is_negative, put_coefficient, put_factors, put_mark, put_sign, put_star, put_zero,
};
use crate::syntax::Mark;
use alg_core::{Field, Memory, Mono, Monomial, Space, Term, TermOrder};
use poly_module::Comb;
use prime_field::PrimeField;
use std::alloc::Global;

/// The text of a combination: its terms by rising secondary invariant, those at one of them by falling monomial.
/// In a term the primary invariants `@1`, `@2`, .. stand before the secondary invariant; the rest is as in a polynomial.
pub fn print_comb<O: TermOrder>(
    alloc: Global,
    space: &Space<PrimeField, O>,
    c: &Comb<u16>,
) -> Result<Vec<u8>, Memory>
    requires vector { IsVector (over ⟦<PrimeField as Field>⟧.field O.order space.now) (λ m. m) c.now.vector }
    ensures text { let S = over ⟦<PrimeField as Field>⟧.field O.order space.now in
        IfOk result (λ t. t.items ≡ combination_text S (entries (λ m. m) c.now.vector)) }
{
    let mut output = Output::keeping(alloc);
    put_comb(&mut output, space.field.characteristic(), c);
    output.finish()
}

/// Puts the text of a combination over GF(p). The space need not be known: the terms stand as they are stored, those
/// at one position fall. Takes time in the product of the positions that occur and the terms.
pub fn put_comb(output: &mut Output, p: u32, c: &Comb<u16>)
    requires below { All (λ t. t.coef < p) c.now.vector }
    requires low { All (λ t. t.at.pos + 1 < 2 ^ 64) c.now.vector }
    ensures is { let es = entries (λ m. m) c.now.vector in (n : ℕ) → All (λ e. e.0.0 < n) es
        → (w : List ℕ) → Says output.old w → Says output.new (w ++ spelling (map (combination_term p) (by_position n es))) }
{
    let terms = c.vector.terms();
    let mut from = 0;
    let mut is_first = true;
    while let Some(position) = next_position(terms, from) {
        put_terms_at(output, is_first, p, terms, position);
        is_first = false;
        from = position + 1;
    }
    put_zero(output, is_first);
}

/// The nearer of a position that was found, if any, and this one, where it is not below `from`.
fn nearer(found: Option<u64>, from: u64, position: u64) -> Option<u64>
    ensures is { IsNearer found from position result }
{
    match found {
        Some(least) if least <= position => found,
        _ if from <= position => Some(position),
        _ => found,
    }
}

/// The least position of a term that is not below `from`.
fn next_position(terms: &[Term<u16, Mono>], from: u64) -> Option<u64>
    ensures is { IsFirstPosition (entries (λ m. m) terms.now) from result }
{
    let mut next = None;
    for i in 0..terms.len() {
        next = nearer(next, from, terms[i].at.pos);
    }
    next
}

/// Puts the terms at a position, in their order.
fn put_terms_at(
    output: &mut Output,
    is_first: bool,
    p: u32,
    terms: &[Term<u16, Mono>],
    position: u64,
)
    requires below { All (λ t. t.coef < p) terms.now }
    requires low { position + 1 < 2 ^ 64 }
    ensures is { let ts = map (combination_term p) (at_position position (entries (λ m. m) terms.now)) in
        (w : List ℕ) → Says output.old w → Says output.new (w ++ led is_first ts) }
{
    let mut first = is_first;
    for i in 0..terms.len() {
        let term = &terms[i];
        if term.at.pos == position {
            put_combination_term(output, first, p, term);
            first = false;
        }
    }
}

/// Puts a term of a combination over GF(p).
fn put_combination_term(output: &mut Output, is_first: bool, p: u32, term: &Term<u16, Mono>)
    requires below { term.now.coef < p }
    requires low { term.now.at.pos + 1 < 2 ^ 64 }
    ensures is { let text = term_text is_first (combination_term p (entry (λ m. m) term.now)) in
        (w : List ℕ) → Says output.old w → Says output.new (w ++ text) }
{
    put_sign(output, is_first, is_negative(p, term.coef));
    let size = absolute(p, term.coef);
    put_coefficient(output, size);
    let is_begun = put_factors(
        output,
        size != 1,
        &[],
        term.at.mono.len() as u64,
        &term.at.mono,
    );
    put_star(output, is_begun);
    put_mark(output, Mark::Secondary, term.at.pos + 1);
}
