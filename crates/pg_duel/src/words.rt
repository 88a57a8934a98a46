//! What the program says of its moves, of their rules and of its claim.
ghost use Rattle.std.specs.Prelude.{◌≡◌, ◌<◌, ◌++◌, IfOk, IfSome, None, OnOk, string_bytes};
ghost use Rattle.std.specs.List.{All};
ghost use Rattle.pg_duel.specs.Prelude.{OwnPoint, point_count, sitting_of};
ghost use Rattle.pg_duel.specs.Words.{last_of, move_text, own_text, promise_text, reasons_text};
ghost use Rattle.pg_duel.specs.Words.{reply_text, rule_text, seat_text, taken_text};

use pg_base::{Goal, Memory, Score, Side};
use pg_characters::{Look, put_name};
use pg_game::{Game, Position};
use pg_opponent::{OwnPoint, Seat};
use pg_player::Rule;
use pg_playing::{Note, put_note, shown_of, shown_text};
use pg_table::put_turn;
use std::alloc::{AllocError, Global};

/// What the words before the program's moves mean.
pub(crate) const REASONS: &str = "The words before my moves say by which rule I keep my promise:
the proof  the move that the certificate names here
pairs      each open line has a pair: if you take one of it, I take the other
weights    a point of greatest weight, or of least weight if I avoid lines
two trees  an edge of one of two sets, each of which joins what X is to join
two cuts   an edge of one of two sets, each of which parts what O is to part
threats    an attack that you must answer, or the point that fills a line
";

/// The words of a rule. A player makes no move by `Over`, `Replies` or `Weaker`.
fn words_of(rule: Rule) -> &'static str
    ensures { result.now ≡ rule_text rule }
{
    match rule {
        Rule::Over => "the end",
        Rule::Named => "the proof",
        Rule::Replies => "the replies",
        Rule::Pairs => "pairs",
        Rule::Weights => "weights",
        Rule::Trees => "two trees",
        Rule::Cuts => "two cuts",
        Rule::Threats => "threats",
        Rule::Weaker => "a weaker position",
    }
}

/// Adds the reply that a move answers, if it answers one.
fn put_taken(out: &mut String, game: &Game, reply: Option<u16>) -> Result<(), AllocError>
    requires { IfSome reply (λ v. v < point_count game.now) }
    ensures { OnOk result (string_bytes out.new
        ≡ string_bytes out.old ++ taken_text game.now.field reply) }
{
    if let Some(point) = reply {
        out.push_str("you took ")?;
        put_name(out, game, point)?;
        out.push_str(", ")?;
    }
    Ok(())
}

/// Adds a line for a point that the program has claimed.
fn put_move(
    out: &mut String,
    game: &Game,
    reply: Option<u16>,
    made: OwnPoint,
) -> Result<(), AllocError>
    requires reply { IfSome reply (λ v. v < point_count game.now) }
    requires within { made.point < point_count game.now }
    ensures { OnOk result (string_bytes out.new
        ≡ string_bytes out.old ++ move_text game.now.field reply made) }
{
    out.push_str(words_of(made.rule))?;
    out.push_str(": ")?;
    put_taken(out, game, reply)?;
    out.push_str("I take ")?;
    put_name(out, game, made.point)?;
    out.push_str(".\n")
}

/// Adds a line for each point that the program has claimed since this reply.
fn put_own(
    out: &mut String,
    game: &Game,
    reply: Option<u16>,
    own: &[OwnPoint],
) -> Result<(), AllocError>
    requires reply { IfSome reply (λ v. v < point_count game.now) }
    requires own { All (λ (made : OwnPoint). made.point < point_count game.now) own.now }
    ensures { OnOk result (string_bytes out.new
        ≡ string_bytes out.old ++ own_text game.now.field reply own.now) }
{
    match own {
        [made, others @ ..] => {
            put_move(out, game, reply, *made)?;
            put_own(out, game, None, others)
        }
        [] => Ok(()),
    }
}

/// What the program reaches, whatever the person claims.
fn promise_of(side: Side, goal: Goal) -> &'static str
    ensures { result.now ≡ promise_text side goal }
{
    match side {
        Side::X => match goal {
            Goal::Win => "I play X and win, whatever you claim.\n",
            Goal::Draw => "I play X and don't lose, whatever you claim.\n",
        },
        Side::Y => match goal {
            Goal::Win => "I play O and win, whatever you claim.\n",
            Goal::Draw => "I play O and don't lose, whatever you claim.\n",
        },
    }
}

/// The person's last reply, if there is one.
fn last_reply(seat: &Seat<'_>) -> Option<u16>
    ensures { result ≡ last_of seat.now.replies.items }
{
    seat.replies.last().copied()
}

/// The text that shows a game against the program: its points since the last reply, what it
/// reaches, and the board.
pub(crate) fn seat_screen(
    alloc: Global,
    game: &Game,
    seat: &Seat<'_>,
    look: Look,
    ending: Option<Score>,
) -> Result<String, Memory>
    requires own { All (λ (made : OwnPoint). made.point < point_count game.now)
        seat.now.own.items }
    requires replies { All (λ v. v < point_count game.now) seat.now.replies.items }
    requires game { game.now ≡ seat.now.session.game }
    ensures { IfOk result (λ text. string_bytes text ≡ seat_text look game.now
        seat.now.player.claim (sitting_of seat.now) ending) }
{
    let mut out = String::new(alloc);
    let reply = last_reply(seat);
    put_own(&mut out, game, reply, seat.own.as_slice())?;
    out.push_str(promise_of(seat.player.side(), seat.player.goal()))?;
    let shown = shown_of(&seat.session, look);
    let board = shown_text(alloc, game, &shown, ending)?;
    out.push_str(board.as_str())?;
    Ok(out)
}

/// What `?` explains besides.
fn reasons_of(note: Note) -> &'static str
    ensures { result.now ≡ reasons_text note }
{
    match note {
        Note::Help => REASONS,
        Note::Lines(_) | Note::Refused(_) => "",
    }
}

/// The text that answers a line that changes nothing, and says whose turn it is.
pub(crate) fn reply_text(
    alloc: Global,
    game: &Game,
    position: &Position,
    note: Note,
) -> Result<String, Memory>
    ensures { IfOk result (λ text. string_bytes text
        ≡ reply_text game.now position.now note) }
{
    let mut out = String::new(alloc);
    put_note(&mut out, game, position, note)?;
    out.push_str(reasons_of(note))?;
    put_turn(&mut out, position)?;
    Ok(out)
}
