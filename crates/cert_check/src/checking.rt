//! The check of a certificate.

ghost use Rattle.std.specs.Prelude.{◌≡◌, ◌+◌, ℕ, Ok, Err};
ghost use Rattle.alg_core.specs.LimitRanges.{AreLimits};
ghost use Rattle.certificate_io.specs.Conditions.{IsCertificate};
ghost use Rattle.cert_check.specs.Conditions.{Condition, number};
ghost use Rattle.cert_check.specs.Work.{GroupStop, RankStop, IsAccepted, IsRejectedAt, IsStoppedAt, IsTermStop};
ghost use Rattle.cert_check.specs.declared.verdict.Verdict.TheVariants as verdicts;
ghost use Rattle.cert_check.specs.declared.verdict.CheckRefusal.TheVariants as refusals;

use crate::ending::Ending;
use crate::verdict::{CheckRefusal, Verdict};
use crate::walk::walk;
use alg_core::Limits;
use certificate_io::Certificate;
use std::alloc::Global;

/// Whether the conditions K1 to K11 hold of a certificate, or the first that fails. Each limit is met at
/// its place in their order: that on the group before the printed order is looked at, that on the standard
/// monomials before the printed rank, and that on the degrees of the secondary invariants before K9.
/// CheckRefusal::Memory comes only where memory is refused.
pub fn check(
    alloc: Global,
    cert: &Certificate<u16>,
    limits: &Limits,
) -> Result<Verdict, CheckRefusal>
    requires certificate { IsCertificate cert.now }
    requires limits { AreLimits limits.now }

    // The verdict.
    ensures accepted { result ≡ Ok verdicts.Accepted → IsAccepted cert.now limits.now }
    ensures rejected { (condition item : ℕ) → result ≡ Ok (verdicts.Rejected condition item)
        → (a : Condition) × (condition ≡ number a) × IsRejectedAt cert.now limits.now a item }

    // The limits.
    ensures group { (counted : ℕ) → result ≡ Err (refusals.GroupBound counted)
        → (counted ≡ limits.now.max_order + 1) × IsStoppedAt cert.now limits.now GroupStop }
    ensures rank { (counted : ℕ) → result ≡ Err (refusals.RankBound counted)
        → (counted ≡ limits.now.max_rank + 1) × IsStoppedAt cert.now limits.now RankStop }
    ensures terms { (degree count : ℕ) → result ≡ Err (refusals.TermBound degree count)
        → IsTermStop cert.now limits.now degree count }
{
    match walk(alloc, cert, limits) {
        Ok(()) => Ok(Verdict::Accepted),
        Err(Ending::Rejected { condition, item }) => Ok(Verdict::Rejected { condition, item }),
        Err(Ending::GroupBound { counted }) => Err(CheckRefusal::GroupBound { counted }),
        Err(Ending::RankBound { counted }) => Err(CheckRefusal::RankBound { counted }),
        Err(Ending::TermBound { degree, count }) => Err(CheckRefusal::TermBound { degree, count }),
        Err(Ending::Memory) => Err(CheckRefusal::Memory),
    }
}
