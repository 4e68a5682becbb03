use crate::evidence::Evidence;
use alg_core::Name;
use finite_certificate::Power;
use lin_algebra::Matrix;
use poly_module::Poly;
use std::marker::Model;

/// A certificate that the primary and secondary invariants and the irreducible generators of a group of
/// matrices are right. Polynomials are in the variables alone, but where marks are named: `@1`, `@2`, ..
/// stand for the primary invariants, `$1`, `$2`, .. for the irreducible generators.
#[derive(Drop)]
pub struct Certificate<E> {
    pub characteristic: u32,
    pub names: Vec<Name>,
    /// The generators, each with a row and a column for each name.
    pub matrices: Vec<Matrix<E>>,
    /// How many elements the group has.
    pub order: u64,
    pub primaries: Vec<Poly<E>>,
    /// The relations between the variables and the marks `@`, by falling lead.
    pub lifts: Vec<Poly<E>>,
    /// For each variable, in their order, a power, as the value of a polynomial with marks `@`.
    pub powers: Vec<Power<E>>,
    /// How many standard monomials there are.
    pub rank: u64,
    pub secondaries: Vec<Poly<E>>,
    pub evidence: Evidence<E>,
    pub irreducibles: Vec<Poly<E>>,
    /// Each secondary invariant, in their order, as a polynomial in the marks `@` and `$`.
    pub words: Vec<Poly<E>>,
}

impl<E> Model for Certificate<E> {
    ghost use Rattle.std.specs.Prelude.{map};
    ghost use Rattle.certificate_io.specs.Certificates.{CertificateOf, matrix_of, evidence_of};

    ghost Value = { CertificateOf E };

    ghost view = { λ c. record {
      characteristic = c.characteristic;
      names = c.names.items;
      matrices = map matrix_of c.matrices.items;
      order = c.order;
      primaries = c.primaries.items;
      lifts = c.lifts.items;
      powers = c.powers.items;
      rank = c.rank;
      secondaries = c.secondaries.items;
      evidence = evidence_of c.evidence;
      irreducibles = c.irreducibles.items;
      words = c.words.items;
    } };
}
