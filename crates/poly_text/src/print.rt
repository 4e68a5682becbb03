ghost use Rattle.std.specs.Prelude.{◌≡◌, ◌<◌, ◌+◌, ◌^◌, ◌++◌, ◌||◌, ◌==◌, [], ◌∷◌, ℕ, List, All, length, map, IfOk, decimal, not, if◌then◌else◌};
ghost use Rattle.alg_core.specs.Spaces.{over, entry, entries};
ghost use Rattle.poly_module.specs.SpaceVectors.{IsPoly};
ghost use Rattle.poly_text.specs.Outputs.{Says};
ghost use Rattle.poly_text.specs.Syntax.{Marked, Factor, mark_byte, variable_text, factor_text, spelling};
ghost use Rattle.poly_text.specs.Texts.{place_count, variable_in, factors_from, is_negative, absolute, residue_text, monomial_text, term_in, polynomial_text};
ghost use Rattle.poly_text.specs.Printing.{star, joined, coefficient_text, is_none, sign_text, term_text};

use crate::Names;
use crate::digits::Digits;
use crate::output::Output;
use crate::syntax::Mark;
use alg_core::{Field, Memory, Mono, Monomial, Name, Space, Term, TermOrder};
use poly_module::Poly;
use prime_field::PrimeField;
use std::alloc::Global;

/// The text of a polynomial: the terms fall, a coefficient is the integer from -(p-1)/2 to (p-1)/2 in its class (1
/// where p is 2), of absolute value 1 not printed but where it stands alone, an exponent 1 is not printed, and zero is `0`.
pub fn print_poly<O: TermOrder>(
    alloc: Global,
    space: &Space<PrimeField, O>,
    names: &Names,
    f: &Poly<u16>,
) -> Result<Vec<u8>, Memory>
    requires polynomial { IsPoly (over ⟦<PrimeField as Field>⟧.field O.order space.now) (λ m. m) f.now }
    requires places { length space.now.grading.weights.items ≡ place_count names.now }
    ensures text { let S = over ⟦<PrimeField as Field>⟧.field O.order space.now in
        IfOk result (λ t. t.items ≡ polynomial_text S names.now (entries (λ m. m) f.now)) }
{
    let mut output = Output::keeping(alloc);
    let primaries = names.primaries.unwrap_or(0);
    put_poly(
        &mut output,
        space.field.characteristic(),
        &names.vars,
        primaries,
        f,
    );
    output.finish()
}

/// Puts the text of a polynomial over GF(p) in the named variables, then `@1` to the number of primary
/// invariants, then the irreducible generators. The space need not be known: the terms stand as they are stored.
pub fn put_poly(output: &mut Output, p: u32, names: &[Name], primaries: u64, f: &Poly<u16>)
    requires below { All (λ t. t.coef < p) f.now }
    ensures is { let terms = map (term_in names.now primaries p) (entries (λ m. m) f.now) in
        (w : List ℕ) → Says output.old w → Says output.new (w ++ spelling terms) }
{
    let terms = f.terms();
    for i in 0..terms.len() {
        put_term(output, i == 0, p, names, primaries, &terms[i]);
    }
    put_zero(output, terms.is_empty());
}

/// Puts a term of a polynomial over GF(p).
fn put_term(
    output: &mut Output,
    is_first: bool,
    p: u32,
    names: &[Name],
    primaries: u64,
    term: &Term<u16, Mono>,
)
    requires below { term.now.coef < p }
    ensures is { let text = term_text is_first (term_in names.now primaries p (entry (λ m. m) term.now)) in
        (w : List ℕ) → Says output.old w → Says output.new (w ++ text) }
{
    put_sign(output, is_first, is_negative(p, term.coef));
    let size = absolute(p, term.coef);
    put_coefficient(output, size);
    let is_begun = put_factors(output, size != 1, names, primaries, &term.at.mono);
    put_one(output, is_begun);
}

/// Whether the integer of least absolute value in the class of c modulo p is negative.
pub(crate) fn is_negative(p: u32, c: u16) -> bool
    ensures is { result ≡ is_negative p c }
{
    2 * u32::from(c) > p
}

/// The absolute value of that integer.
pub(crate) fn absolute(p: u32, c: u16) -> u32
    requires below { c < p }
    ensures is { result ≡ absolute p c }
{
    if is_negative(p, c) {
        p - u32::from(c)
    } else {
        u32::from(c)
    }
}

/// Puts the integer from -(p-1)/2 to (p-1)/2 in the class of c modulo p; for p = 2 it is 0 or 1.
pub fn put_residue(output: &mut Output, p: u32, c: u16)
    requires below { c < p }
    ensures is { (w : List ℕ) → Says output.old w → Says output.new (w ++ residue_text p c) }
{
    put_sign(output, true, is_negative(p, c));
    put_number(output, u64::from(absolute(p, c)));
}

/// Puts a monomial in the named variables: its powers with `*` between them, or `1`.
pub fn put_monomial(output: &mut Output, names: &[Name], mono: &Mono)
    ensures is { (w : List ℕ) → Says output.old w → Says output.new (w ++ monomial_text names.now mono.now) }
{
    let is_begun = put_factors(output, false, names, 0, mono);
    put_one(output, is_begun);
}

/// Puts the sign of a term.
pub(crate) fn put_sign(output: &mut Output, is_first: bool, is_negative: bool)
    ensures is { (w : List ℕ) → Says output.old w → Says output.new (w ++ sign_text is_first is_negative) }
{
    if is_negative {
        output.put(b"-");
    } else if !is_first {
        output.put(b"+");
    }
}

/// Puts what a polynomial without terms has.
pub(crate) fn put_zero(output: &mut Output, is_zero: bool)
    ensures is { (w : List ℕ) → Says output.old w → Says output.new (w ++ (if is_zero then 48 ∷ [] else [])) }
{
    if is_zero {
        output.put(b"0");
    }
}

/// Puts what a term with neither a coefficient nor a factor has.
fn put_one(output: &mut Output, is_begun: bool)
    ensures is { (w : List ℕ) → Says output.old w → Says output.new (w ++ (if is_begun then [] else 49 ∷ [])) }
{
    if !is_begun {
        output.put(b"1");
    }
}

/// Puts what stands before a factor that is not the first of a term.
pub(crate) fn put_star(output: &mut Output, is_begun: bool)
    ensures is { (w : List ℕ) → Says output.old w → Says output.new (w ++ star is_begun) }
{
    if is_begun {
        output.put(b"*");
    }
}

/// Puts an exponent after its variable.
fn put_exponent(output: &mut Output, exponent: u32)
    ensures is { (w : List ℕ) → Says output.old w → Says output.new (w ++ (if exponent == 1 then [] else 94 ∷ decimal exponent)) }
{
    if exponent != 1 {
        output.put(b"^");
        put_number(output, u64::from(exponent));
    }
}

/// Puts a coefficient before factors.
pub(crate) fn put_coefficient(output: &mut Output, c: u32)
    ensures is { (w : List ℕ) → Says output.old w → Says output.new (w ++ coefficient_text c) }
{
    if c != 1 {
        put_number(output, u64::from(c));
    }
}

/// Puts the powers of a monomial. `is_begun` says, before and after, that the term has a coefficient or a factor.
pub(crate) fn put_factors(
    output: &mut Output,
    is_begun: bool,
    names: &[Name],
    primaries: u64,
    mono: &Mono,
) -> bool
    ensures is { let factors = factors_from (variable_in names.now primaries) 0 mono.now in
        (w : List ℕ) → Says output.old w → Says output.new (w ++ joined is_begun factors) }
    ensures begun { result ≡ (is_begun || not (is_none (factors_from (variable_in names.now primaries) 0 mono.now))) }
{
    let mut begun = is_begun;
    for i in 0..mono.len() {
        let exponent = mono.exp(i);
        if exponent != 0 {
            put_factor(output, begun, names, primaries, i, exponent);
            begun = true;
        }
    }
    begun
}

/// Puts a power of the variable at the place i.
fn put_factor(
    output: &mut Output,
    is_begun: bool,
    names: &[Name],
    primaries: u64,
    i: usize,
    exponent: u32,
)
    requires small { i + 1 < 2 ^ 64 }
    ensures is { let f : Factor = record { variable = variable_in names.now primaries i; exponent = exponent } in
        (w : List ℕ) → Says output.old w → Says output.new (w ++ (star is_begun ++ factor_text f)) }
{
    put_star(output, is_begun);
    put_variable(output, names, primaries, i);
    put_exponent(output, exponent);
}

/// Puts the variable at the place i.
fn put_variable(output: &mut Output, names: &[Name], primaries: u64, i: usize)
    requires small { i + 1 < 2 ^ 64 }
    ensures is { (w : List ℕ) → Says output.old w → Says output.new (w ++ variable_text (variable_in names.now primaries i)) }
{
    if i < names.len() {
        let name = &names[i];
        output.put(name.bytes());
        return;
    }
    let place = (i - names.len()) as u64;
    if place < primaries {
        put_mark(output, Mark::Primary, place + 1);
    } else {
        put_mark(output, Mark::Irreducible, place - primaries + 1);
    }
}

/// Puts the variable with a sign and an index.
pub(crate) fn put_mark(output: &mut Output, mark: Mark, index: u64)
    ensures is { (w : List ℕ) → Says output.old w → Says output.new (w ++ variable_text (Marked mark index)) }
{
    output.put(&[byte_of(mark)]);
    put_number(output, index);
}

/// The sign of a list.
fn byte_of(mark: Mark) -> u8
    ensures is { result ≡ mark_byte mark }
{
    match mark {
        Mark::Primary => b'@',
        Mark::Irreducible => b'$',
        Mark::Secondary => b'%',
    }
}

/// Puts the number in decimal.
pub fn put_number(output: &mut Output, n: u64)
    ensures is { (w : List ℕ) → Says output.old w → Says output.new (w ++ decimal n) }
{
    let digits = Digits::of(u128::from(n));
    output.put(digits.as_slice());
}
