//! Certificates of one claim and of two.
ghost use Rattle.std.specs.Prelude.{◌≡◌, ◌∷◌, [], IfOk};
ghost use Rattle.pg_cert.specs.declared.cert.Version.TheVariants.{One};

use pg_base::Memory;
use pg_cert::{Cert, Claim, Claims, Version};
use std::alloc::Global;

/// The certificate of one claim, of version 1.
pub fn one_claim(alloc: Global, claim: Claim) -> Result<Cert, Memory>
    ensures version { IfOk result (λ certificate. certificate.version ≡ One) }
    ensures claims { IfOk result (λ certificate. certificate.claims ≡ claim ∷ []) }
{
    let mut claims = Vec::new(alloc);
    claims.push(claim)?;
    Ok(Cert {
        version: Version::One,
        claims: Claims::from_vec(claims),
    })
}

/// The certificate of two claims in this order, of version 1.
pub fn two_claims(alloc: Global, first: Claim, second: Claim) -> Result<Cert, Memory>
    ensures version { IfOk result (λ certificate. certificate.version ≡ One) }
    ensures claims { IfOk result (λ certificate. certificate.claims ≡ first ∷ second ∷ []) }
{
    let mut claims = Vec::new(alloc);
    claims.push(first)?;
    claims.push(second)?;
    Ok(Cert {
        version: Version::One,
        claims: Claims::from_vec(claims),
    })
}
