//! A certificate as its file says it.
use pg_cert::Cert;
use pg_image::ImageCert;

/// A certificate as its file says it.
#[derive(Debug, Drop)]
pub enum Evidence {
    /// All its nodes are plain.
    Plain(Cert),
    /// Some of its nodes may be images of others.
    Folded(ImageCert),
}
