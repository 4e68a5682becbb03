//! The certificate of a script, part by part.

ghost use Rattle.std.specs.Prelude.{◌≡◌, IfErr, IfOk};
ghost use Rattle.alg_core.specs.LimitRanges.{AreLimits};
ghost use Rattle.certificate_io.specs.Printable.{IsPrintable};
ghost use Rattle.finvar_text.specs.Problems.{problem_in, IsSound};
ghost use Rattle.invring_app.specs.Commands.Rings.{IsCertificateOf, IsKept};
ghost use Rattle.invring_app.specs.RingFaults.{IsRingTold};

use super::generators::generators_of;
use super::images::images_of;
use super::ranked::rank_script;
use super::written::copies;
use crate::fault::Fault;
use crate::field::field_of;
use alg_core::Limits;
use certificate_io::Certificate;
use finvar_text::Script;
use matrix_group::enumerate;
use reynolds_op::Reynolds;
use std::alloc::Global;

/// The certificate of the script: by averages, or where the characteristic divides the order of the group by
/// kernel evidence.
pub(crate) fn certificate(
    alloc: Global,
    script: Script,
    limits: &Limits,
) -> Result<Certificate<u16>, Fault>
    requires sound { IsSound script }
    requires limits { AreLimits limits.now }
    ensures certificate { IfOk result (λ c. IsCertificateOf (problem_in script) limits.now.tries c) }
    ensures kept { IfOk result (λ c. IsKept (problem_in script) limits.now) }
    ensures printable { IfOk result (λ c. IsPrintable c) }
    ensures fault { IfErr result (IsRingTold (problem_in script) limits.now) }
{
    let field = field_of(script.characteristic);
    let group = enumerate(alloc, &field, &script.gens, limits.max_order)?;
    let order = group.order();
    let averaging = Reynolds::of(&field, &group);
    let ranked = rank_script(alloc, &script, limits)?;
    let images = images_of(alloc, &script, &ranked, averaging, order, limits)?;
    let made = generators_of(alloc, &script, &ranked, images, order, limits)?;
    let over = ranked.over;
    let rank = over.free_module.monomials().len() as u64;
    let lifts = copies(alloc, over.free_module.lifts())?;
    Ok(Certificate {
        characteristic: script.characteristic,
        names: script.names,
        matrices: script.gens,
        order,
        primaries: ranked.primaries,
        lifts,
        powers: over.powers,
        rank,
        secondaries: made.secondaries,
        evidence: made.evidence,
        irreducibles: made.irreducibles,
        words: made.words,
    })
}
