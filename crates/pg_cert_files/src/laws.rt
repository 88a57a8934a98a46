//! What holds of the definition of reading: its faults, its limits, and that it takes back what is
//! printed.
ghost use Rattle.std.specs.Prelude.{◌≡◌, ◌≤◌, ℕ, List, length, Ok, Err};
ghost use Rattle.pg_cert_files.specs.Prelude.{IsWithinLimits, printed_certificate, Cert, Fault};
ghost use Rattle.pg_cert_files.specs.CertFile.{certificate};
ghost use Rattle.pg_cert_files.specs.FirstFault.{IsFirstFault};
ghost use Rattle.pg_cert_files.specs.declared.limits.TheConstants.{MAX_CERT_BYTES};

/// What reading gives is within the limits of the format.
pub fn reads_within_limits()
    ensures { (text : List ℕ) (c : Cert) → certificate text ≡ Ok c → IsWithinLimits c }
{}

/// A fault that reading gives is the first: the file is too large; or the lines before the one it
/// names have none, and of those that apply to that line it counts first: C5, and else the least
/// number; or no line has one, and the file ends too early.
pub fn names_the_first_fault()
    ensures { (text : List ℕ) (fault : Fault) (number : ℕ) → certificate text ≡ Err (fault, number)
        → IsFirstFault text fault number }
{}

/// A printed certificate reads back as itself, where its text isn't too large for a file.
pub fn reads_back()
    ensures { (c : Cert) → IsWithinLimits c
        → length (printed_certificate c) ≤ MAX_CERT_BYTES
        → certificate (printed_certificate c) ≡ Ok c }
{}
