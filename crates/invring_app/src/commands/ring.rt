//! The certificate of the generators of a script, as its text.

ghost use Rattle.std.specs.Prelude.{◌≡◌, ◌≤◌, IfErr, IfOk, length};
ghost use Rattle.alg_core.specs.LimitRanges.{AreLimits};
ghost use Rattle.finvar_text.specs.Problems.{Problem, IsProblemText};
ghost use Rattle.certificate_io.specs.Printable.{IsPrintable};
ghost use Rattle.certificate_io.specs.Texts.{certificate_text};
ghost use Rattle.invring_app.specs.Commands.Rings.{IsCertified};
ghost use Rattle.invring_app.specs.RingFaults.{IsTooLong};
ghost use Rattle.invring_app.specs.Answers.{IsAnswer, IsFault};
ghost use Rattle.invring_app.specs.Endings.{Answers};

mod averages;
mod evidence;
mod generators;
mod images;
mod kernels;
mod over;
mod present;
mod ranked;
mod unmarked;
mod whole;
mod written;

use crate::commands::Command;
use crate::fault::Fault;
use crate::status::BoundFault;
use alg_core::Limits;
use certificate_io::{Certificate, print_certificate, printed_length};
use finvar_text::read_script;
use std::alloc::Global;
pub(crate) use whole::certificate;

/// TextBound says that the text of the certificate is longer than the limit. No text is made.
pub(crate) fn within(cert: &Certificate<u16>, limits: &Limits) -> Result<(), Fault>
    requires printable { IsPrintable cert.now }
    requires limits { AreLimits limits.now }
    ensures short { IfOk result (λ _. length (certificate_text cert.now) ≤ limits.now.max_text) }
    ensures fault { IfErr result (IsTooLong (length (certificate_text cert.now)) limits.now.max_text) }
{
    let bytes = printed_length(cert);
    if bytes > limits.max_text {
        return Err(Fault::Bound(BoundFault::TextBound { bytes }));
    }
    Ok(())
}

/// The text of the certificate, where it is within the limit.
fn text_within(alloc: Global, cert: &Certificate<u16>, limits: &Limits) -> Result<Vec<u8>, Fault>
    requires printable { IsPrintable cert.now }
    requires limits { AreLimits limits.now }
    ensures text { IfOk result (λ t. t.items ≡ certificate_text cert.now) }
    ensures short { IfOk result (λ t. length (certificate_text cert.now) ≤ limits.now.max_text) }
    ensures fault { IfErr result (IsTooLong (length (certificate_text cert.now)) limits.now.max_text) }
{
    within(cert, limits)?;
    let text = print_certificate(alloc, cert)?;
    Ok(text)
}

/// The text of the certificate of a script. The first fault is answered in the order length, syntax,
/// values, and then of the group, the search, the number of standard monomials, the graph of the
/// differences where the characteristic divides the order of the group, the degrees of the averages or of
/// the values of the fixed members, and the length of the text. `Memory` may come anywhere.
pub fn ring_text(alloc: Global, script: &[u8], limits: &Limits) -> Result<Vec<u8>, Fault>
    requires limits { AreLimits limits.now }
    ensures certified { IfOk result (λ text. (q : Problem) × IsProblemText script.now q × IsCertified q limits.now.tries text.items) }
    ensures text { IfOk result (λ text. IsAnswer Command.Ring limits.now script.now (Answers text.items)) }
    ensures fault { IfErr result (IsFault Command.Ring limits.now script.now) }
{
    let script = read_script(alloc, script)?;
    let cert = certificate(alloc, script, limits)?;
    let text = text_within(alloc, &cert, limits)?;
    Ok(text)
}
