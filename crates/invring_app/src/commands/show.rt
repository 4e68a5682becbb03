//! The invariants of a certificate, where it holds.

ghost use Rattle.std.specs.Prelude.{◌≡◌, IfErr, IfOk, length, map};
ghost use Rattle.alg_core.specs.LimitRanges.{AreLimits};
ghost use Rattle.alg_core.specs.Spaces.{over, entries};
ghost use Rattle.certificate_io.specs.Conditions.{IsCertificate};
ghost use Rattle.poly_module.specs.SpaceVectors.{ArePolys};
ghost use Rattle.poly_text.specs.Texts.{place_count};
ghost use Rattle.invring_app.specs.Answers.{ending_of, IsAnswer, IsFault};
ghost use Rattle.invring_app.specs.Commands.Checks.{shown_text, shown_where};
ghost use Rattle.invring_app.specs.Lines.{listed_line};

use crate::commands::check::verdict_on;
use crate::commands::verdicts::certificate_in;
use crate::commands::{Answer, Command};
use crate::fault::Fault;
use crate::field::field_of;
use alg_core::{Dp, Field, Limits, Memory, Space, TermOrder};
use cert_check::Verdict;
use certificate_io::Certificate;
use poly_module::Poly;
use poly_text::{Names, print_poly};
use prime_field::PrimeField;
use std::alloc::Global;

/// The title and the printed polynomials, with commas between them, and a newline.
fn listed_line(
    alloc: Global,
    space: &Space<PrimeField, Dp>,
    names: &Names,
    title: &[u8],
    polynomials: &[Poly<u16>],
) -> Result<Vec<u8>, Memory>
    requires polynomials { ArePolys (over (⟦<PrimeField as Field>⟧.field) (⟦<Dp as TermOrder>⟧.order) space.now) (λ m. m) polynomials.now }
    requires places { length space.now.grading.weights.items ≡ place_count names.now }
    ensures text { let S = over (⟦<PrimeField as Field>⟧.field) (⟦<Dp as TermOrder>⟧.order) space.now in
        IfOk result (λ t. t.items ≡ listed_line title.now S names.now (map (entries (λ m. m)) polynomials.now)) }
{
    let mut line = Vec::from_slice(alloc, title)?;
    for i in 0..polynomials.len() {
        let polynomial = &polynomials[i];
        let text = print_poly(alloc, space, names, polynomial)?;
        if i > 0 {
            line.push(b',')?;
        }
        line.extend_from_slice(&text)?;
    }
    line.push(b'\n')?;
    Ok(line)
}

/// The lines of the primary invariants, of the secondary invariants and of the irreducible generators.
fn shown(alloc: Global, cert: Certificate<u16>) -> Result<Vec<u8>, Memory>
    requires certificate { IsCertificate cert }
    ensures text { IfOk result (λ t. t.items ≡ shown_text cert) }
{
    let field = field_of(cert.characteristic);
    let variables = cert.names.len() as u32;
    let space = Space::of_variables(alloc, field, variables)?;
    let names = Names {
        vars: cert.names,
        primaries: None,
        irreducibles: None,
    };
    let mut text = listed_line(alloc, &space, &names, b"P=", &cert.primaries)?;
    let secondaries = listed_line(alloc, &space, &names, b"S=", &cert.secondaries)?;
    text.extend_from_slice(&secondaries)?;
    let irreducibles = listed_line(alloc, &space, &names, b"IS=", &cert.irreducibles)?;
    text.extend_from_slice(&irreducibles)?;
    Ok(text)
}

/// What is written of a certificate with a verdict: its invariants where it is accepted, else nothing.
fn text_of(alloc: Global, cert: Certificate<u16>, verdict: Verdict) -> Result<Vec<u8>, Memory>
    requires certificate { IsCertificate cert }
    ensures text { IfOk result (λ t. t.items ≡ shown_where verdict cert) }
{
    match verdict {
        Verdict::Accepted => {
            let text = shown(alloc, cert)?;
            Ok(text)
        }
        Verdict::Rejected { .. } => Ok(Vec::new(alloc)),
    }
}

/// What `show` answers to the bytes of a certificate: its invariants where it holds, else nothing.
pub(crate) fn show_answer(alloc: Global, bytes: &[u8], limits: &Limits) -> Result<Answer, Fault>
    requires limits { AreLimits limits.now }
    ensures answer { IfOk result (λ a. IsAnswer Command.Show limits.now bytes.now (ending_of a.verdict a.text.items)) }
    ensures fault { IfErr result (IsFault Command.Show limits.now bytes.now) }
{
    let cert = certificate_in(alloc, bytes)?;
    let verdict = verdict_on(alloc, &cert, limits)?;
    let text = text_of(alloc, cert, verdict)?;
    Ok(Answer { text, verdict })
}
