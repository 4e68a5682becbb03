//! Evidence, line by line.

ghost use Rattle.std.specs.Prelude.{◌≡◌, IfOk, length, map};
ghost use Rattle.std.specs.Option.{option_map};
ghost use Rattle.certificate_io.specs.Certificates.{evidence_of};
ghost use Rattle.cert_check.specs.Parts.{members as members_of};
ghost use Rattle.invring_app.specs.EvidenceLines.{ForEach, IsEvidenceWith, combinations_in, fixed_count};

use alg_core::{Memory, Mono, Monomial};
use certificate_io::{Evidence, Image, Line};
use poly_module::Comb;
use std::alloc::Global;
use syzygy_kernel::Member;

/// The monomials, each with the combination at its place.
fn image_lines(
    alloc: Global,
    monomials: &[Mono],
    combs: Vec<Comb<u16>>,
) -> Result<Vec<Image<u16>>, Memory>
    requires same { length monomials.now ≡ length combs.items }
    ensures monomials { IfOk result (λ ls. map (λ x. x.mono) ls.items ≡ monomials.now) }
    ensures combinations { IfOk result (λ ls. map (λ x. x.comb) ls.items ≡ combs.items) }
{
    let mut lines = Vec::new(alloc);
    for comb in combs {
        let mono = monomials[lines.len()].copy(alloc)?;
        lines.push(Image { mono, comb })?;
    }
    Ok(lines)
}

/// The members, of which each that is fixed has the next combination.
fn member_lines(
    alloc: Global,
    members: Vec<Member<u16>>,
    combs: Vec<Comb<u16>>,
) -> Result<Vec<Line<u16>>, Memory>
    requires same { fixed_count members.items ≡ length combs.items }
    ensures members { IfOk result (λ ls. members_of ls.items ≡ members.items) }
    ensures combinations { IfOk result (λ ls. combinations_in ls.items ≡ combs.items) }
{
    let mut lines = Vec::new(alloc);
    let mut rest = combs.into_iter();
    for member in members {
        let comb = if member.is_fixed { rest.next() } else { None };
        lines.push(Line { u: member.u, comb })?;
    }
    Ok(lines)
}

/// The evidence of the members, or where there are none of the averages of the monomials, with the
/// combination of each fixed member or average.
pub(crate) fn evidence(
    alloc: Global,
    monomials: &[Mono],
    members: Option<Vec<Member<u16>>>,
    combs: Vec<Comb<u16>>,
) -> Result<Evidence<u16>, Memory>
    requires same { ForEach monomials.now (option_map (λ v. v.items) members) combs.items }
    ensures is { IfOk result (λ e. IsEvidenceWith monomials.now (option_map (λ v. v.items) members) combs.items (evidence_of e)) }
{
    let Some(members) = members else {
        return Ok(Evidence::Reynolds(image_lines(alloc, monomials, combs)?));
    };
    Ok(Evidence::Kernel(member_lines(alloc, members, combs)?))
}
