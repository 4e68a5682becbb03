ghost use Rattle.std.specs.Prelude.{◌≡◌, ℕ, List, ◌++◌, IfOk, length, min};
ghost use Rattle.poly_text.specs.Outputs.{Says, length_limit};
ghost use Rattle.certificate_io.specs.Printable.{IsPrintable};
ghost use Rattle.certificate_io.specs.Texts.{ended, heading_lines, module_lines, generator_lines, certificate_text};

use crate::certificate::Certificate;
use crate::lines::{
    put_evidence_lines, put_matrix_lines, put_names_line, put_number_line, put_polynomial_lines,
    put_power_lines,
};
use alg_core::Memory;
use poly_text::Output;
use std::alloc::Global;

/// Puts the lines of the problem: version, field, variables, generators, order of the group.
fn put_heading(output: &mut Output, cert: &Certificate<u16>)
    requires printable { IsPrintable cert.now }
    ensures is { (w : List ℕ) → Says output.old w → Says output.new (w ++ ended (heading_lines cert.now)) }
{
    output.put(b"invring certificate 1\n");
    put_number_line(output, b"field", u64::from(cert.characteristic));
    put_names_line(output, cert.names.as_slice());
    put_matrix_lines(output, cert.characteristic, cert.matrices.as_slice());
    put_number_line(output, b"order", cert.order);
}

/// Puts the lines of the primary invariants and of the module over them: lifts, powers, rank.
fn put_module(output: &mut Output, cert: &Certificate<u16>)
    requires printable { IsPrintable cert.now }
    ensures is { (w : List ℕ) → Says output.old w → Says output.new (w ++ ended (module_lines cert.now)) }
{
    let p = cert.characteristic;
    let names = cert.names.as_slice();
    let primaries = cert.primaries.as_slice();
    let count = primaries.len() as u64;
    put_polynomial_lines(output, b"primary", p, names, 0, primaries);
    put_polynomial_lines(output, b"lift", p, names, count, cert.lifts.as_slice());
    put_power_lines(output, p, names, count, cert.powers.as_slice());
    put_number_line(output, b"rank", cert.rank);
}

/// Puts the lines of the secondary invariants, the evidence, the irreducible generators and the words.
fn put_generators(output: &mut Output, cert: &Certificate<u16>)
    requires printable { IsPrintable cert.now }
    ensures is { (w : List ℕ) → Says output.old w → Says output.new (w ++ ended (generator_lines cert.now)) }
{
    let p = cert.characteristic;
    let names = cert.names.as_slice();
    let primaries = cert.primaries.as_slice().len() as u64;
    let secondaries = cert.secondaries.as_slice();
    let count = secondaries.len() as u64;
    put_polynomial_lines(output, b"secondary", p, names, 0, secondaries);
    put_evidence_lines(output, p, names, primaries, count, &cert.evidence);
    put_polynomial_lines(
        output,
        b"irreducible",
        p,
        names,
        0,
        cert.irreducibles.as_slice(),
    );
    put_polynomial_lines(output, b"word", p, &[], primaries, cert.words.as_slice());
    output.put(b"end\n");
}

/// Puts the text of a certificate.
fn put_certificate(output: &mut Output, cert: &Certificate<u16>)
    requires printable { IsPrintable cert.now }
    ensures is { (w : List ℕ) → Says output.old w → Says output.new (w ++ certificate_text cert.now) }
{
    put_heading(output, cert);
    put_module(output, cert);
    put_generators(output, cert);
}

/// The text of a certificate over GF(p), version 1: lines of words with one space between them, each
/// ended by a newline. Its polynomials and combinations stand as they are stored.
pub fn print_certificate(alloc: Global, cert: &Certificate<u16>) -> Result<Vec<u8>, Memory>
    requires printable { IsPrintable cert.now }
    ensures text { IfOk result (λ t. t.items ≡ certificate_text cert.now) }
{
    let mut output = Output::keeping(alloc);
    put_certificate(&mut output, cert);
    output.finish()
}

/// The length of that text in bytes, or 18446744073709551615 where it is longer. Takes no memory.
pub fn printed_length(cert: &Certificate<u16>) -> u64
    requires printable { IsPrintable cert.now }
    ensures length { result ≡ min (length (certificate_text cert.now)) length_limit }
{
    let mut output = Output::counting();
    put_certificate(&mut output, cert);
    output.length()
}
