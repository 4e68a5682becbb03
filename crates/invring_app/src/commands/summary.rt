//! The summary of a certificate, as lines of text.

ghost use Rattle.std.specs.Prelude.{◌≡◌, ◌≤◌, ◌++◌, ℕ, List, All, IfOk, length};
ghost use Rattle.poly_module.specs.GreatestExponents.{total};
ghost use Rattle.poly_text.specs.Outputs.{Says};
ghost use Rattle.secondary_gens.specs.Forms.{degree_of, degrees_of};
ghost use Rattle.invring_app.specs.Summaries.{numbers_line, summary_text, HasFewVariables};

use alg_core::{Memory, Mono, Monomial};
use certificate_io::Certificate;
use poly_module::Poly;
use poly_text::{Output, put_number};
use std::alloc::Global;

/// The sum of the exponents of a monomial.
fn total(mono: &Mono) -> u64
    requires few { length mono.now ≤ 8 }
    ensures is { result ≡ total mono.now }
{
    let mut sum = 0;
    for i in 0..mono.len() {
        sum += u64::from(mono.exp(i));
    }
    sum
}

/// The greatest degree of a term, and 0 where there is none.
fn degree(polynomial: &Poly<u16>) -> u64
    requires few { HasFewVariables polynomial.now }
    ensures is { result ≡ degree_of polynomial.now }
{
    let terms = polynomial.terms();
    let mut degree = 0;
    for i in 0..terms.len() {
        let term = &terms[i];
        degree = total(&term.at.mono).max(degree);
    }
    degree
}

/// The degrees of the polynomials.
fn degrees(alloc: Global, polynomials: &[Poly<u16>]) -> Result<Vec<u64>, Memory>
    requires few { All HasFewVariables polynomials.now }
    ensures are { IfOk result (λ ds. ds.items ≡ degrees_of polynomials.now) }
{
    let mut degrees = Vec::new(alloc);
    for i in 0..polynomials.len() {
        let polynomial = &polynomials[i];
        degrees.push(degree(polynomial))?;
    }
    Ok(degrees)
}

/// Puts a line with a word and each of the numbers after a space.
fn put_numbers(output: &mut Output, word: &[u8], numbers: &[u64])
    ensures is { (w : List ℕ) → Says output.old w → Says output.new (w ++ numbers_line word.now numbers.now) }
{
    output.put(word);
    for i in 0..numbers.len() {
        output.put(b" ");
        put_number(output, numbers[i]);
    }
    output.put(b"\n");
}

/// The summary of the certificate of so many exchanged pairs of variables: that number, the order of the
/// group, the rank, and the degrees of the primary and secondary invariants and of the irreducible
/// generators, as `secondary 0 2`.
pub(crate) fn summary(alloc: Global, pairs: u32, cert: &Certificate<u16>) -> Result<Vec<u8>, Memory>
    requires primaries { All HasFewVariables cert.now.primaries }
    requires secondaries { All HasFewVariables cert.now.secondaries }
    requires irreducibles { All HasFewVariables cert.now.irreducibles }
    ensures text { IfOk result (λ t. t.items ≡ summary_text pairs cert.now) }
{
    let primaries = degrees(alloc, &cert.primaries)?;
    let secondaries = degrees(alloc, &cert.secondaries)?;
    let irreducibles = degrees(alloc, &cert.irreducibles)?;
    let mut output = Output::keeping(alloc);
    put_numbers(&mut output, b"demo", &[u64::from(pairs)]);
    put_numbers(&mut output, b"order", &[cert.order]);
    put_numbers(&mut output, b"primary", &primaries);
    put_numbers(&mut output, b"rank", &[cert.rank]);
    put_numbers(&mut output, b"secondary", &secondaries);
    put_numbers(&mut output, b"irreducible", &irreducibles);
    output.finish()
}
