//! The nodes of a certificate.
ghost use Rattle.std.specs.Prelude.{◌≡◌, ◌≤◌};
ghost use Rattle.pg_results.specs.Prelude.{node_count, MAX_NODES};

use pg_cert::Cert;

/// Returns how many nodes the claims of the certificate have together, at most 200,000.
pub fn node_count(certificate: &Cert) -> u32
    requires { node_count certificate.now.claims ≤ MAX_NODES }
    ensures { result ≡ node_count certificate.now.claims }
{
    let mut count = 0;
    for claim in certificate.claims.as_slice() {
        count += claim.nodes.as_slice().len() as u32;
    }
    count
}
