//! The work of a check, condition by condition.

ghost use Rattle.std.specs.Prelude.{IfOk, IfErr};
ghost use Rattle.alg_core.specs.LimitRanges.{AreLimits};
ghost use Rattle.alg_core.specs.Spaces.{over as space_over};
ghost use Rattle.certificate_io.specs.Conditions.{IsCertificate};
ghost use Rattle.cert_check.specs.Endings.{IsGiven, IsTold};
ghost use Rattle.cert_check.specs.Work.{IsAccepted};

use crate::ending::Ending;
use crate::evidence::check_evidence;
use crate::group::check_group;
use crate::lift_basis::check_lift_basis;
use crate::lifts::check_lifts;
use crate::marked::marked_of;
use crate::powers::check_powers;
use crate::primaries::check_primaries;
use crate::rank::checked_module;
use crate::reducibility::check_reducibility;
use crate::redundance::check_redundance;
use crate::secondaries::check_secondaries;
use crate::terms::check_terms;
use crate::words::check_words;
use alg_core::{Dp, Field, Limits, Space, TermOrder};
use certificate_io::Certificate;
use lin_algebra::Matrix;
use prime_field::PrimeField;
use std::alloc::Global;

/// Each condition in turn, until one fails or a limit is exceeded, over the space of the variables.
fn walk_over(
    alloc: Global,
    space: &Space<PrimeField, Dp>,
    cert: &Certificate<u16>,
    gens: &[Matrix<u16>],
    limits: &Limits,
) -> Result<(), Ending>
    requires given { let S = space_over (⟦<PrimeField as Field>⟧.field) (⟦<Dp as TermOrder>⟧.order) space.now in IsGiven S gens.now cert.now }
    requires limits { AreLimits limits.now }
    ensures accepted { IfOk result (λ _. IsAccepted cert.now limits.now) }
    ensures told { IfErr result (IsTold cert.now limits.now) }
{
    let group = check_group(alloc, space, cert, gens, limits)?;
    check_primaries(alloc, space, cert, gens, limits)?;
    let marked = marked_of(alloc, space, cert, gens, limits)?;
    check_lifts(alloc, space, &marked, cert, gens, limits)?;
    check_powers(alloc, space, &marked, cert, gens, limits)?;
    check_lift_basis(alloc, space, &marked, cert, gens, limits)?;
    let free_module = checked_module(alloc, space, &marked, cert, gens, limits)?;
    check_secondaries(alloc, space, cert, gens, limits)?;
    check_evidence(
        alloc,
        space,
        &marked,
        cert,
        gens,
        &group,
        &free_module,
        limits,
    )?;
    check_terms(alloc, space, cert, gens, limits)?;
    check_redundance(alloc, space, cert, gens, limits)?;
    check_words(alloc, space, cert, gens, limits)?;
    check_reducibility(alloc, space, cert, gens, limits)?;
    Ok(())
}

/// Each condition in turn, until one fails or a limit is exceeded.
pub(crate) fn walk(alloc: Global, cert: &Certificate<u16>, limits: &Limits) -> Result<(), Ending>
    requires certificate { IsCertificate cert.now }
    requires limits { AreLimits limits.now }
    ensures accepted { IfOk result (λ _. IsAccepted cert.now limits.now) }
    ensures told { IfErr result (IsTold cert.now limits.now) }
{
    let field = PrimeField::new(cert.characteristic).unwrap();
    let space = Space::of_variables(alloc, field, cert.names.len() as u32)?;
    walk_over(alloc, &space, cert, cert.matrices.as_slice(), limits)?;
    Ok(())
}
