//! The text of a connectivity game's certificate.
ghost use Rattle.std.specs.Prelude.{◌≡◌, ◌++◌, map, OnOk, IfOk, string_bytes};
ghost use Rattle.pg_family_files.specs.Prelude.{decimal, flat_map, behind_spaces, spelled};
ghost use Rattle.pg_family_files.specs.SpanCertPrint.{IsWithinRanges, body_words, claim_lines};
ghost use Rattle.pg_family_files.specs.SpanCertPrint.{first_words, printed_span};

use pg_base::Memory;
use pg_cert::put_set;
use pg_span::{SpanBody, SpanCert, SpanClaim};
use std::alloc::{AllocError, Global};
use std::fmt::Write;

/// Puts numbers, each after a space.
fn put_numbers(out: &mut String, numbers: &[u16]) -> Result<(), AllocError>
    ensures { OnOk result
        (string_bytes out.new ≡ string_bytes out.old ++ behind_spaces (map decimal numbers.now)) }
{
    for n in numbers {
        write!(out, " {n}")?;
    }
    Ok(())
}

/// Puts the edge that is claimed first, where there is one.
fn put_first(out: &mut String, first: Option<u16>) -> Result<(), AllocError>
    ensures { OnOk result
        (string_bytes out.new ≡ string_bytes out.old ++ behind_spaces (first_words first)) }
{
    if let Some(v) = first {
        write!(out, " first {v}")?;
    }
    Ok(())
}

/// Puts the line of a body.
fn put_body(out: &mut String, body: &SpanBody) -> Result<(), AllocError>
    ensures { OnOk result
        (string_bytes out.new ≡ string_bytes out.old ++ spelled (body_words body.now)) }
{
    match body {
        SpanBody::Trees { first, a1, a2 } => {
            out.push_str("trees")?;
            put_first(out, *first)?;
            put_set(out, a1)?;
            out.push_str(" /")?;
            put_set(out, a2)?;
        }
        SpanBody::Parts(parts) => {
            out.push_str("parts")?;
            put_numbers(out, parts.as_slice())?;
        }
    }
    out.push_str("\n")?;
    Ok(())
}

/// Puts the two lines of a claim.
fn put_claim(out: &mut String, claim: &SpanClaim) -> Result<(), AllocError>
    ensures { OnOk result
        (string_bytes out.new ≡ string_bytes out.old ++ flat_map spelled (claim_lines claim.now)) }
{
    let turn = claim.turn.word();
    let side = claim.side.word();
    write!(out, "claim {turn} {side}\n")?;
    put_body(out, &claim.body)
}

/// Puts the lines of claims.
fn put_claims(out: &mut String, claims: &[SpanClaim]) -> Result<(), AllocError>
    ensures { OnOk result
        (string_bytes out.new
        ≡ string_bytes out.old ++ flat_map (λ c. flat_map spelled (claim_lines c)) claims.now) }
{
    for claim in claims {
        put_claim(out, claim)?;
    }
    Ok(())
}

/// The text of a certificate of one to eight claims without a number above `MAX_SPAN_NUMBER`, with
/// a line feed after every line.
///
/// # Errors
///
/// `Memory` where no memory is left.
#[tactic(auto, unfolding(crate::specs::SpanCertPrint::printed_span))]
pub fn print_span_cert(alloc: Global, c: &SpanCert) -> Result<Vec<u8>, Memory>
    requires { IsWithinRanges c.now }
    ensures { IfOk result (λ text. text.items ≡ printed_span c.now) }
{
    let mut out = String::new(alloc);
    out.push_str("posgame-span-cert 1\n")?;
    put_claims(&mut out, c.claims.as_slice())?;
    Ok(out.into_bytes())
}
