//! The load of a certificate, and its reading over a product line.
#![tactic(auto)]

ghost use Rattle.std.specs.Prelude.{◌≡◌, [], ◌∷◌, IfOk, IsOk};
ghost use Rattle.fam_outer.specs.Loading.{AreGiven, only};
ghost use Rattle.famlint_loads.specs.CertificateLoads.{ReadsCertificate, IsUsableCertificate};
ghost use Rattle.famlint_loads.specs.Loads.{Comes, IsReadFault, IsReadOf, certificate_source};
ghost use Rattle.famlint_loads.specs.ProductLines.{IsUsableLine};

use crate::fault::{Failure, Fault};
use crate::load::load_text;
use crate::product_line::ProductLine;
use certificate_format::{Certificate, CertificateFault, CertificateRefusal, read_certificate};
use fam_outer::{CERTIFICATE_BYTES, Files};
use std::alloc::Global;

/// The certificate that bytes spell over a product line.
fn certificate_of(alloc: Global, line: &ProductLine, bytes: &[u8]) -> Result<Certificate, Failure>
    requires { IsUsableLine line.now }
    ensures certificate { Comes (ReadsCertificate line.now bytes.now) result }
    ensures usable { IfOk result (λ made. IsUsableCertificate line.now made) }
    ensures read { IsReadFault result → ⊥ }
{
    let features = line.model.features.items();
    let atoms = line.family.atoms.items();
    let names = line.family.code.names.items();
    match read_certificate(alloc, features, atoms, names, bytes) {
        Ok(certificate) => Ok(certificate),
        Err(CertificateRefusal::NoMemory) => Err(Failure::NoMemory),
        Err(CertificateRefusal::Fault(fault)) => Err(Failure::Refused(Fault::Certificate(fault))),
    }
}

/// The certificate of CERTIFICATE over a product line, of at most 16,777,216 bytes.
pub fn load_certificate<F: Files>(
    alloc: Global,
    line: &ProductLine,
    path: &str,
    files: &mut F,
) -> Result<Certificate, Failure>
    requires { IsUsableLine line.now }
    ensures given { AreGiven F.loads (F.content files.old) files.old files.new (certificate_source path.now ∷ [])
        only (IsOk result) (λ bytes. Comes (ReadsCertificate line.now bytes) result) }
    ensures usable { IfOk result (λ made. IsUsableCertificate line.now made) }
    ensures kept { F.content files.new ≡ F.content files.old }
    ensures read { IsReadOf (path.now ∷ []) (F.faults files.old) (F.faults files.new)
        (F.failed files.new) result }
{
    let long = Fault::Certificate(CertificateFault::TooLong);
    let text = load_text(alloc, path, CERTIFICATE_BYTES as u32, long, files)?;
    certificate_of(alloc, line, text.bytes())
}
