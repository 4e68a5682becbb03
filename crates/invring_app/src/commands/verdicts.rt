//! Certificates that are read, and the lines of verdicts on them.

ghost use Rattle.std.specs.Prelude.{◌≡◌, IfErr, IfOk};
ghost use Rattle.invring_app.specs.Commands.Checks.{verdict_line};
ghost use Rattle.invring_app.specs.Inputs.{IsTextOf};
ghost use Rattle.invring_app.specs.CheckFaults.{IsReadingTold};

use crate::fault::Fault;
use crate::reading::MAX_CERTIFICATE;
use alg_core::{InputFault, Memory};
use cert_check::Verdict;
use certificate_io::{Certificate, read_certificate};
use poly_text::Digits;
use std::alloc::Global;

/// The certificate of a text. The first fault is answered in the order length, syntax, values.
pub(crate) fn certificate_in(alloc: Global, bytes: &[u8]) -> Result<Certificate<u16>, Fault>
    ensures certificate { IfOk result (λ c. IsTextOf bytes.now c) }
    ensures fault { IfErr result (IsReadingTold bytes.now) }
{
    if bytes.len() > MAX_CERTIFICATE {
        return Err(Fault::Input(InputFault::Long));
    }
    let cert = read_certificate(alloc, bytes)?;
    Ok(cert)
}

/// The line of a verdict.
pub(crate) fn line_of_verdict(alloc: Global, verdict: Verdict) -> Result<Vec<u8>, Memory>
    ensures is { IfOk result (λ t. t.items ≡ verdict_line verdict) }
{
    match verdict {
        Verdict::Accepted => {
            let line = Vec::from_slice(alloc, b"accepted\n")?;
            Ok(line)
        }
        Verdict::Rejected { condition, item } => {
            let mut line = Vec::from_slice(alloc, b"rejected K")?;
            let number = Digits::of(u128::from(condition));
            line.extend_from_slice(number.as_slice())?;
            line.push(b' ')?;
            let place = Digits::of(u128::from(item));
            line.extend_from_slice(place.as_slice())?;
            line.push(b'\n')?;
            Ok(line)
        }
    }
}
