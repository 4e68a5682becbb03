//! Whether a certificate holds.

ghost use Rattle.std.specs.Prelude.{IfErr, IfOk};
ghost use Rattle.alg_core.specs.LimitRanges.{AreLimits};
ghost use Rattle.certificate_io.specs.Conditions.{IsCertificate};
ghost use Rattle.invring_app.specs.Answers.{ending_of, IsAnswer, IsFault};
ghost use Rattle.invring_app.specs.CheckFaults.{IsVerdict, IsVerdictOn, IsCheckTold};

use crate::commands::verdicts::{certificate_in, line_of_verdict};
use crate::commands::{Answer, Command};
use crate::fault::Fault;
use alg_core::Limits;
use cert_check::{Verdict, check};
use certificate_io::Certificate;
use std::alloc::Global;

/// The verdict on a certificate, or the bound that is met before there is one.
pub(crate) fn verdict_on(
    alloc: Global,
    cert: &Certificate<u16>,
    limits: &Limits,
) -> Result<Verdict, Fault>
    requires certificate { IsCertificate cert.now }
    requires limits { AreLimits limits.now }
    ensures verdict { IfOk result (IsVerdictOn limits.now cert.now) }
    ensures fault { IfErr result (IsCheckTold limits.now cert.now) }
{
    let verdict = check(alloc, cert, limits)?;
    Ok(verdict)
}

/// The verdict on the certificate of a text: `Accepted` where each of the conditions K1 to K11 holds, else the
/// first that fails, and the first item at which it does. The first fault is answered in the order length, syntax,
/// values; a bound at its place among the conditions. `Memory` may come anywhere.
pub fn check_text(alloc: Global, cert: &[u8], limits: &Limits) -> Result<Verdict, Fault>
    requires limits { AreLimits limits.now }
    ensures verdict { IfOk result (IsVerdict limits.now cert.now) }
    ensures fault { IfErr result (IsFault Command.Check limits.now cert.now) }
{
    let cert = certificate_in(alloc, cert)?;
    let verdict = verdict_on(alloc, &cert, limits)?;
    Ok(verdict)
}

/// What `check` answers to the bytes of a certificate: the line of the verdict.
pub(crate) fn check_answer(alloc: Global, bytes: &[u8], limits: &Limits) -> Result<Answer, Fault>
    requires limits { AreLimits limits.now }
    ensures answer { IfOk result (λ a. IsAnswer Command.Check limits.now bytes.now (ending_of a.verdict a.text.items)) }
    ensures fault { IfErr result (IsFault Command.Check limits.now bytes.now) }
{
    let verdict = check_text(alloc, bytes, limits)?;
    let text = line_of_verdict(alloc, verdict)?;
    Ok(Answer { text, verdict })
}
