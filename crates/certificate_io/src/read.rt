ghost use Rattle.std.specs.Prelude.{◌≡◌, ◌≤◌, ℕ, length, IfErr, IfOk};
ghost use Rattle.certificate_io.specs.Certificates.{CertificateOf};
ghost use Rattle.certificate_io.specs.Conditions.{IsCertificate};
ghost use Rattle.certificate_io.specs.Faults.{IsCertFault, IsRead};
ghost use Rattle.certificate_io.specs.Texts.{certificate_text};

use crate::certificate::Certificate;
use crate::fault::CertFault;
use crate::shape::lines_of;
use crate::values::certificate_of;
use std::alloc::Global;

/// The certificate that a text prints, or the first fault of the text.
///
/// The texts that are read are those that `print_certificate` prints of certificates that meet the conditions on values:
/// polynomials and combinations of degrees and exponents up to 4096, in variables and marks whose indices have at most
/// 5 digits. Of any other text the fault is `Syntax` where it is none of the grammar, with the number of lines more than
/// the most with which some text begins; else `Value`, with the first line, from 1, at which a condition fails, and the
/// first condition that fails there. So the shape of all lines is judged before any value. It is `Memory` only where
/// memory is refused.
pub fn read_certificate(alloc: Global, bytes: &[u8]) -> Result<Certificate<u16>, CertFault>
    requires short { length bytes.now ≤ 268435456 }
    ensures certificate { IfOk result IsCertificate }
    ensures printed { IfOk result (λ c. certificate_text c ≡ bytes.now) }
    ensures every { (c : CertificateOf ℕ) → IsCertificate c → certificate_text c ≡ bytes.now → IsRead (λ d. d) result c }
    ensures fault { IfErr result (IsCertFault bytes.now) }
{
    let lines = lines_of(alloc, bytes)?;
    let certificate = certificate_of(alloc, lines.as_slice())?;
    Ok(certificate)
}
