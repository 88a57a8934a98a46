//! Why a command isn't carried out.
ghost use Rattle.std.specs.Prelude.{◌≡◌, ◌≤◌, length};
ghost use Rattle.pg_messages.specs.Texts.{faulty_claim_text, faulty_node_text, file_fault_text};
ghost use Rattle.pg_messages.specs.Texts.{no_claim_text, refusal_text};
ghost use Rattle.pg_messages.specs.Statuses.{refusal_status};

use crate::line::{Line, push_number};
use crate::statuses::{FAULTY_GAME, FAULTY_RECORD, NO_MEANING, REFUSED};
use pg_base::Side;

/// Why a command isn't carried out.
#[derive(Clone, Copy, Debug)]
pub enum Refusal {
    /// The words of the command line have no meaning.
    NoMeaning,
    /// The certificate has no claim of the side with the game's turn.
    NoClaim {
        /// The side.
        side: Side,
    },
    /// The game file has a fault.
    Game {
        /// The number of the fault.
        number: u8,
        /// The number of its line, 0 for the whole file.
        line: u32,
    },
    /// The certificate file has a fault.
    Certificate {
        /// The number of the fault.
        number: u8,
        /// The number of its line, 0 for the whole file.
        line: u32,
    },
    /// The certificate isn't valid for the game.
    Rejected {
        /// The number of the first faulty claim.
        claim: u32,
        /// The number of its first faulty node.
        node: u32,
        /// The least number of the node's faults.
        why: u8,
    },
    /// The certificate isn't valid for the connectivity game.
    RejectedSpan {
        /// The number of the first faulty claim.
        claim: u32,
        /// The number of its fault.
        why: u8,
    },
    /// The certificate isn't valid for the game on vectors.
    RejectedVectors {
        /// The number of the first faulty claim.
        claim: u32,
        /// The number of its first faulty node.
        node: u32,
        /// The least number of the node's faults.
        why: u8,
    },
    /// The certificate has a node that can't be unfolded for the game.
    RejectedImage {
        /// The number of the first faulty claim.
        claim: u32,
        /// The number of its first faulty node.
        node: u32,
        /// The least number of the node's faults.
        why: u8,
    },
    /// The record file has a fault.
    Record {
        /// The number of the fault.
        number: u8,
        /// The number of its line, 0 for the whole file.
        line: u32,
    },
}

/// The text of a fault in a file: the file's sign, the number of the fault, and that of its line.
fn fault_text(file: &str, number: u8, line: u32) -> Line
    requires { length file.now ≤ 20 }
    ensures { result.bytes ≡ file_fault_text file.now number line }
{
    let mut text = Line::new();
    text.push_str(file);
    push_number(&mut text, u32::from(number));
    text.push_str(" line ");
    push_number(&mut text, line);
    text.push_str("\n");
    text
}

/// The text of a certificate with a faulty claim: the sign of its faults, the number of the fault,
/// and that of the claim.
fn faulty_claim_text(sign: &str, claim: u32, why: u8) -> Line
    requires { length sign.now ≤ 20 }
    ensures { result.bytes ≡ faulty_claim_text sign.now claim why }
{
    let mut text = Line::new();
    text.push_str(sign);
    push_number(&mut text, u32::from(why));
    text.push_str(" claim ");
    push_number(&mut text, claim);
    text.push_str("\n");
    text
}

/// The text of a certificate with a faulty node: the sign of its faults, the number of the fault,
/// and those of claim and node.
fn faulty_node_text(sign: &str, claim: u32, node: u32, why: u8) -> Line
    requires { length sign.now ≤ 15 }
    ensures { result.bytes ≡ faulty_node_text sign.now claim node why }
{
    let mut text = Line::new();
    text.push_str(sign);
    push_number(&mut text, u32::from(why));
    text.push_str(" claim ");
    push_number(&mut text, claim);
    text.push_str(" node ");
    push_number(&mut text, node);
    text.push_str("\n");
    text
}

/// The text where a side has no claim.
fn no_claim_text(side: Side) -> Line
    ensures { result.bytes ≡ no_claim_text side }
{
    let mut text = Line::new();
    text.push_str("words: no claim for side ");
    text.push_str(side.word());
    text.push_str("\n");
    text
}

impl Refusal {
    /// The text of the refusal, with its line feed. It takes no memory.
    pub fn text(self) -> Line
        ensures { result.bytes ≡ refusal_text self }
    {
        match self {
            Refusal::NoMeaning => {
                let mut text = Line::new();
                text.push_str("words: no meaning\n");
                text
            }
            Refusal::NoClaim { side } => no_claim_text(side),
            Refusal::Game { number, line } => fault_text("game G", number, line),
            Refusal::Certificate { number, line } => fault_text("certificate C", number, line),
            Refusal::Rejected { claim, node, why } => {
                faulty_node_text("rejected J", claim, node, why)
            }
            Refusal::RejectedSpan { claim, why } => faulty_claim_text("rejected S", claim, why),
            Refusal::RejectedVectors { claim, node, why } => {
                faulty_node_text("rejected V", claim, node, why)
            }
            Refusal::RejectedImage { claim, node, why } => {
                faulty_node_text("rejected I", claim, node, why)
            }
            Refusal::Record { number, line } => fault_text("record F", number, line),
        }
    }

    /// The status of the refusal.
    pub fn status(self) -> u8
        ensures { result ≡ refusal_status self }
    {
        match self {
            Refusal::NoMeaning | Refusal::NoClaim { .. } => NO_MEANING,
            Refusal::Game { .. } => FAULTY_GAME,
            Refusal::Certificate { .. }
            | Refusal::Rejected { .. }
            | Refusal::RejectedSpan { .. }
            | Refusal::RejectedVectors { .. }
            | Refusal::RejectedImage { .. } => REFUSED,
            Refusal::Record { .. } => FAULTY_RECORD,
        }
    }
}
