//! What holds of the definition of reading: its faults, its limits, and that it takes back what is
//! printed.
ghost use Rattle.std.specs.Prelude.{◌≡◌, ◌≤◌, ℕ, List, length, Ok, Err};
ghost use Rattle.pg_image.specs.Prelude.{Fault, MAX_CERT_BYTES};
ghost use Rattle.pg_image.specs.Limits.{IsImageWithinLimits};
ghost use Rattle.pg_image.specs.Print.{printed_image_certificate};
ghost use Rattle.pg_image.specs.declared.cert.ImageCert.{ImageCert};
ghost use Rattle.pg_image.specs.FirstFault.{IsFirstFault};
ghost use Rattle.pg_image.specs.ImageFile.{image_certificate};

/// What reading gives is within the limits of the format.
pub fn reads_within_limits()
    ensures { (text : List ℕ) (c : ImageCert) → image_certificate text ≡ Ok c
        → IsImageWithinLimits c }
{}

/// A fault that reading gives is the first: the file is too large; or the lines before the one it
/// names have none, and of those that apply to that line it counts first: C5, and else the least
/// number; or no line has one, and the file ends too early.
pub fn names_the_first_fault()
    ensures { (text : List ℕ) (fault : Fault) (number : ℕ)
        → image_certificate text ≡ Err (fault, number)
        → IsFirstFault text fault number }
{}

/// A printed certificate reads back as itself, where its text isn't too large for a file.
pub fn reads_back()
    ensures { (c : ImageCert) → IsImageWithinLimits c
        → length (printed_image_certificate c) ≤ MAX_CERT_BYTES
        → image_certificate (printed_image_certificate c) ≡ Ok c }
{}
