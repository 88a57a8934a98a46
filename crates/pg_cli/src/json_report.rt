//! Reports on certificates, as JSON.
ghost use Rattle.std.specs.Prelude.{◌≡◌, IfOk, string_bytes};
ghost use Rattle.pg_cli.specs.Prelude.{array, view};
ghost use Rattle.pg_cli.specs.Report.{code_text, rejection_text, report_text};
ghost use Rattle.pg_cli.specs.Values.{IsByte, claim_data, claims_data, rejection_data, report_data};

use crate::code::Code;
use pg_base::Memory;
use pg_game::{Field, Game};
use pg_judge::ClaimHead;
use serde_json::{Value, json};
use std::alloc::{AllocError, Global};

/// A claim: its goal, the number of its nodes, its side and its turn.
fn claim_value(alloc: Global, claim: &ClaimHead) -> Result<Value, AllocError>
    ensures { IfOk result (λ v. view v ≡ claim_data claim.now) }
{
    json!(in alloc; {
        "goal": claim.goal.word(), "nodes": claim.nodes, "side": claim.side.word(),
        "turn": claim.turn.word()
    })
}

/// The claims in order.
fn claims_value(alloc: Global, claims: &[ClaimHead]) -> Result<Value, AllocError>
    ensures { IfOk result (λ v. view v ≡ array (claims_data claims.now)) }
{
    let mut values = Vec::new(alloc);
    for claim in claims {
        values.push(claim_value(alloc, claim)?)?;
    }
    Ok(Value::Array(values))
}

/// A valid certificate for a game, with these claims.
fn report_value(alloc: Global, game: &Game, claims: &[ClaimHead]) -> Result<Value, AllocError>
    ensures { IfOk result (λ v. view v ≡ report_data game.now claims.now) }
{
    let claims = claims_value(alloc, claims)?;
    let kind = game.kind.word();
    match &game.field {
        Field::Lines(field) => {
            let lines = field.lines.as_slice().len();
            if game.bias == 1 {
                json!(in alloc; {
                    "claims": claims, "kind": kind, "lines": lines, "points": field.points
                })
            } else {
                json!(in alloc; {
                    "bias": game.bias, "claims": claims, "kind": kind, "lines": lines,
                    "points": field.points
                })
            }
        }
        Field::Graph(graph) => {
            let points = graph.ends.as_slice().len();
            json!(in alloc; {
                "claims": claims, "kind": kind, "points": points, "vertices": graph.vertices
            })
        }
    }
}

/// What a report says of a valid certificate for a game, with these claims: one line of compact
/// JSON (RFC 8259) with its line feed.
///
/// It is an object whose keys ascend: `bias`, where Y claims more than one point in a turn,
/// `claims`, `kind`, and `lines` and `points` of a line game, or `points` (its edges) and
/// `vertices` of a switching game. Each claim is an object with the keys `goal`, `nodes` (their
/// number), `side` and `turn`.
///
/// # Errors
///
/// `Memory` where no memory is found.
pub fn report(alloc: Global, game: &Game, claims: &[ClaimHead]) -> Result<String, Memory>
    ensures { IfOk result (λ text. string_bytes text ≡ report_text game.now claims.now) }
{
    let mut text = report_value(alloc, game, claims)?.to_string(alloc)?;
    text.push('\n')?;
    Ok(text)
}

/// A code: its letter and its number.
fn code_word(alloc: Global, code: Code) -> Result<String, AllocError>
    ensures word { IfOk result (λ word. string_bytes word ≡ code_text code) }
    ensures byte { IfOk result (λ _. IsByte code) }
{
    match code {
        Code::Node(number) => format!(in alloc; "J{number}"),
        Code::Image(number) => format!(in alloc; "I{number}"),
    }
}

/// A certificate that isn't valid.
fn rejection_value(alloc: Global, claim: u32, node: u32, code: Code) -> Result<Value, AllocError>
    ensures value { IfOk result (λ v. view v ≡ rejection_data claim node code) }
    ensures byte { IfOk result (λ _. IsByte code) }
{
    let word = code_word(alloc, code)?;
    json!(in alloc; {"claim": claim, "node": node, "reject": word})
}

/// What a report says of a certificate that isn't valid, by the numbers of the first faulty claim
/// and node, and the code of the fault: an object with the keys `claim`, `node` and `reject`, such
/// as `J6` or `I3`, as one line of compact JSON with its line feed.
///
/// # Errors
///
/// `Memory` where no memory is found.
pub fn rejection(alloc: Global, claim: u32, node: u32, code: Code) -> Result<String, Memory>
    ensures { IfOk result (λ text. string_bytes text ≡ rejection_text claim node code) }
{
    let mut text = rejection_value(alloc, claim, node, code)?.to_string(alloc)?;
    text.push('\n')?;
    Ok(text)
}
