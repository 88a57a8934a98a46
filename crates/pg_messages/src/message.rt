//! The messages, each with its text.
ghost use Rattle.std.specs.Prelude.{◌≡◌, ◌+◌, ◌≤◌, length};
ghost use Rattle.pg_messages.specs.declared.line.TheConstants.{ROOM};
ghost use Rattle.pg_base.specs.Texts.{count_text};
ghost use Rattle.pg_messages.specs.Texts.{accepted_text, claim_text, counts_text, lost_text};
ghost use Rattle.pg_messages.specs.Texts.{message_text, move_text, outcome_word, reply_text};
ghost use Rattle.pg_messages.specs.Texts.{result_text};

use crate::line::{Line, push_number};
use crate::refusal::Refusal;
use pg_base::{Goal, Kind, Score, Side};

/// Why a reply is refused.
#[derive(Clone, Copy, Debug, PartialEq, Eq)]
pub enum ReplyFault {
    /// It isn't a number.
    NoNumber,
    /// The game has no such point.
    NoPoint,
    /// The point isn't free.
    Taken,
    /// The game has ended.
    Over,
    /// No move stands that could be taken back.
    NothingToTakeBack,
}

/// What the program says, a line at a time.
#[derive(Clone, Copy, Debug)]
pub enum Message {
    /// A command isn't carried out.
    Refused(Refusal),
    /// A claim is accepted.
    Accepted {
        /// Who is to move at first.
        turn: Side,
        /// Whose claim it is.
        side: Side,
        /// What the side forces.
        goal: Goal,
    },
    /// A claim is played.
    Claim {
        /// The side that is played.
        side: Side,
        /// What the side forces.
        goal: Goal,
    },
    /// The side that is played takes this point.
    Move(u16),
    /// A reply is refused.
    NoReply(ReplyFault),
    /// A game has ended, or is decided.
    Result {
        /// The kind of the game.
        kind: Kind,
        /// How it ends.
        score: Score,
    },
    /// A switching game is Short's, whoever moves first.
    ClassShort,
    /// A switching game is Cut's, whoever moves first.
    ClassCut,
    /// A connectivity game is Maker's, whoever moves first.
    ClassMaker,
    /// A connectivity game is Breaker's, whoever moves first.
    ClassBreaker,
    /// The game is won by the side that moves first.
    ClassFirstMover,
    /// So many positions were expanded, and the question is open.
    Unknown(u32),
    /// A game on lines was made.
    LineGame {
        /// The number of its points.
        points: u32,
        /// The number of its lines.
        lines: u32,
    },
    /// A switching game was made.
    SwitchingGame {
        /// The number of its vertices.
        vertices: u32,
        /// The number of its edges.
        edges: u32,
    },
    /// A game was solved.
    Expanded {
        /// How many positions were expanded for the question asked last.
        positions: u32,
        /// How many nodes the certificate has.
        nodes: u32,
    },
    /// So many moves of a recorded game stand.
    Standing(u32),
    /// A recorded game with so many standing moves was stored.
    Recorded(u32),
    /// A move of a recorded game lost value.
    Lost {
        /// The number of the move among those that stand, counted from 0.
        number: u32,
        /// Its point.
        point: u16,
        /// The kind of the game.
        kind: Kind,
        /// The value of the position before the move.
        before: Score,
        /// The value of the position after it.
        after: Score,
    },
    /// A recorded game with so many standing moves was reviewed.
    Reviewed(u32),
    /// A position of a recorded game stays open.
    UnknownAt {
        /// How many moves were made before it.
        moves: u32,
        /// How many positions were expanded.
        positions: u32,
    },
}

/// The text of one word that ends with its line feed.
fn text_of(words: &str) -> Line
    requires { length words.now ≤ ROOM }
    ensures { result.bytes ≡ words.now }
{
    let mut text = Line::new();
    text.push_str(words);
    text
}

/// The text that accepts a claim.
fn accepted_text(turn: Side, side: Side, goal: Goal) -> Line
    ensures { result.bytes ≡ accepted_text turn side goal }
{
    let mut text = Line::new();
    text.push_str("accepted ");
    text.push_str(turn.word());
    text.push_str(" ");
    text.push_str(side.word());
    text.push_str(" ");
    text.push_str(goal.word());
    text.push_str("\n");
    text
}

/// The text of a claim that is played.
fn claim_text(side: Side, goal: Goal) -> Line
    ensures { result.bytes ≡ claim_text side goal }
{
    let mut text = Line::new();
    text.push_str("claim ");
    text.push_str(side.word());
    text.push_str(" ");
    text.push_str(goal.word());
    text.push_str("\n");
    text
}

/// The text of a move.
fn move_text(v: u16) -> Line
    ensures { result.bytes ≡ move_text v }
{
    let mut text = Line::new();
    text.push_str("move ");
    push_number(&mut text, u32::from(v));
    text.push_str("\n");
    text
}

/// The text by which a reply is refused.
fn reply_text(fault: ReplyFault) -> Line
    ensures { result.bytes ≡ reply_text fault }
{
    match fault {
        ReplyFault::NoNumber => text_of("refused: not a number\n"),
        ReplyFault::NoPoint => text_of("refused: no such point\n"),
        ReplyFault::Taken => text_of("refused: taken\n"),
        ReplyFault::Over => text_of("refused: over\n"),
        ReplyFault::NothingToTakeBack => text_of("refused: nothing to take back\n"),
    }
}

/// The word for the outcome of a game of the kind: the name of the side that wins, or `draw`.
fn outcome_word(kind: Kind, score: Score) -> &'static str
    ensures { result.now ≡ outcome_word kind score }
{
    match (kind, score) {
        (Kind::MakerBreaker, Score::XWins) => "maker",
        (Kind::MakerBreaker, _) => "breaker",
        (Kind::MakerMaker, Score::XWins) => "x",
        (Kind::MakerMaker, Score::YWins) => "y",
        (Kind::MakerMaker, Score::Draw) => "draw",
        (Kind::AvoiderEnforcer, Score::XWins) => "avoider",
        (Kind::AvoiderEnforcer, _) => "enforcer",
        (Kind::Switching, Score::XWins) => "short",
        (Kind::Switching, _) => "cut",
    }
}

/// The text of an outcome.
fn result_text(kind: Kind, score: Score) -> Line
    ensures { result.bytes ≡ result_text kind score }
{
    let mut text = Line::new();
    text.push_str("result ");
    text.push_str(outcome_word(kind, score));
    text.push_str("\n");
    text
}

/// The text of two numbers, each between words.
fn counts_text(first: &str, one: u32, second: &str, other: u32, last: &str) -> Line
    requires { length first.now + (length second.now + length last.now) ≤ 40 }
    ensures { result.bytes ≡ counts_text first.now one second.now other last.now }
{
    let mut text = Line::new();
    text.push_str(first);
    push_number(&mut text, one);
    text.push_str(second);
    push_number(&mut text, other);
    text.push_str(last);
    text
}

/// The text of a number between words.
fn count_text(first: &str, count: u32, last: &str) -> Line
    requires { length first.now + length last.now ≤ 50 }
    ensures { result.bytes ≡ count_text first.now count last.now }
{
    let mut text = Line::new();
    text.push_str(first);
    push_number(&mut text, count);
    text.push_str(last);
    text
}

/// The text of a move that lost value.
fn lost_text(number: u32, point: u16, kind: Kind, before: Score, after: Score) -> Line
    ensures { result.bytes ≡ lost_text number point kind before after }
{
    let mut text = Line::new();
    text.push_str("lost ");
    push_number(&mut text, number);
    text.push_str(" ");
    push_number(&mut text, u32::from(point));
    text.push_str(" ");
    text.push_str(outcome_word(kind, before));
    text.push_str(" ");
    text.push_str(outcome_word(kind, after));
    text.push_str("\n");
    text
}

impl Message {
    /// The text of the message, with its line feed. It takes no memory.
    pub fn text(self) -> Line
        ensures { result.bytes ≡ message_text self }
    {
        match self {
            Message::Refused(refusal) => refusal.text(),
            Message::Accepted { turn, side, goal } => accepted_text(turn, side, goal),
            Message::Claim { side, goal } => claim_text(side, goal),
            Message::Move(v) => move_text(v),
            Message::NoReply(fault) => reply_text(fault),
            Message::Result { kind, score } => result_text(kind, score),
            Message::ClassShort => text_of("class short\n"),
            Message::ClassCut => text_of("class cut\n"),
            Message::ClassMaker => text_of("class maker\n"),
            Message::ClassBreaker => text_of("class breaker\n"),
            Message::ClassFirstMover => text_of("class first-mover\n"),
            Message::Unknown(positions) => count_text("unknown after ", positions, " positions\n"),
            Message::LineGame { points, lines } => {
                counts_text("game ", points, " points ", lines, " lines\n")
            }
            Message::SwitchingGame { vertices, edges } => {
                counts_text("game ", vertices, " vertices ", edges, " edges\n")
            }
            Message::Expanded { positions, nodes } => {
                counts_text("expanded ", positions, " nodes ", nodes, "\n")
            }
            Message::Standing(moves) => count_text("standing ", moves, "\n"),
            Message::Recorded(moves) => count_text("recorded ", moves, "\n"),
            Message::Lost {
                number,
                point,
                kind,
                before,
                after,
            } => lost_text(number, point, kind, before, after),
            Message::Reviewed(moves) => count_text("reviewed ", moves, "\n"),
            Message::UnknownAt { moves, positions } => {
                counts_text("unknown at ", moves, " after ", positions, " positions\n")
            }
        }
    }
}
