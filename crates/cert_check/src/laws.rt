ghost use Rattle.std.specs.Prelude.{◌≡◌, ℕ, List, All};
ghost use Rattle.alg_core.specs.Fields.{FieldOn};
ghost use Rattle.lin_algebra.specs.declared.matrix.Matrix.{Matrix};
ghost use Rattle.matrix_group.specs.Groups.{IsNonsingular};
ghost use Rattle.certificate_io.specs.Certificates.{CertificateOf};
ghost use Rattle.alg_core.specs.declared.limits.Limits.{Limits};
ghost use Rattle.cert_check.specs.Ends.{End, IsEnd};
ghost use Rattle.cert_check.specs.WellFormed.{IsWellFormed};
ghost use Rattle.cert_check.specs.Conditions.{Holds};
ghost use Rattle.cert_check.specs.Properties.{HasProperties};
ghost use Rattle.cert_check.specs.Makings.{IsMade};

/// A certificate that meets each condition has the properties, whoever made it: every invariant is a
/// combination since by its evidence the averages of the standard monomials are, or the values of the
/// fixed members of a kernel, in which case the characteristic may divide the order of the group.
/// (Derksen and Kemper, Computational Invariant Theory, sections 2.2 and 3.5.)
pub fn certificates_have_properties()
    ensures properties { (k : FieldOn ℕ) (gens : List (Matrix ℕ)) (c : CertificateOf ℕ) → IsWellFormed k c gens → Holds k gens c
        → HasProperties k gens c }
{}

/// A certificate that is made from invertible matrices meets each condition. From given matrices, with given
/// names of the variables and so many candidates of each degree, just one can be made.
pub fn made_certificates()
    ensures hold { (k : FieldOn ℕ) (gens : List (Matrix ℕ)) (c : CertificateOf ℕ) (tries : ℕ)
        → IsWellFormed k c gens → All (IsNonsingular k) gens → IsMade k gens c tries → Holds k gens c }
    ensures one { (k : FieldOn ℕ) (gens : List (Matrix ℕ)) (c d : CertificateOf ℕ) (tries : ℕ)
        → IsWellFormed k c gens → IsWellFormed k d gens → c.names ≡ d.names
        → IsMade k gens c tries → IsMade k gens d tries → c ≡ d }
{}

/// A check ends in one way: it accepts, fails at one item of one condition, or stops at one limit.
pub fn checks_end_once()
    ensures one { (k : FieldOn ℕ) (gens : List (Matrix ℕ)) (c : CertificateOf ℕ) (l : Limits) (e f : End)
        → IsEnd k gens c l e → IsEnd k gens c l f → e ≡ f }
{}
