//! What is said of a game to people.
ghost use Rattle.std.specs.Prelude.{◌≡◌, ◌++◌, OnOk, string_bytes};
ghost use Rattle.pg_table.specs.Words.{bias_text, goals_text, help_text, result_text, turn_text};
ghost use Rattle.pg_table.specs.Words.{graph_goals, kind_goals};

use pg_base::{Kind, Score};
use pg_characters::{letter_of, paper_rows};
use pg_game::{Field, Game, Position};
use pg_graph::Graph;
use std::alloc::AllocError;
use std::fmt::Write;

/// What the commands are.
pub const COMMANDS: &str = "Type the name of a free point to claim it.
undo     takes the last point back
lines    shows the lines that are open, and lines P those through P
?        shows this text
quit     leaves the game
";

/// What each side wants on a Bridg-It board, as it is drawn on paper.
pub const PAPER_GOALS: &str =
    "X wants to join the left and the right, and O the top and the bottom.\n";

/// What each side wants in games of a kind on lines.
fn kind_goals(kind: Kind) -> &'static str
    ensures { result.now ≡ kind_goals kind }
{
    match kind {
        Kind::MakerBreaker => "X wants to claim all points of a line, and O to prevent it.\n",
        Kind::MakerMaker => "The first side to claim all points of a line wins.\n",
        Kind::AvoiderEnforcer => "X loses by claiming all points of a line.\n",
        Kind::Switching => "",
    }
}

/// Adds what each side wants on a graph: on a Bridg-It board, which sides of the board.
fn put_graph_goals(out: &mut String, graph: &Graph) -> Result<(), AllocError>
    ensures { OnOk result (string_bytes out.new
        ≡ string_bytes out.old ++ graph_goals graph.now) }
{
    if paper_rows(graph).is_some() {
        return out.push_str(PAPER_GOALS);
    }
    let s = graph.s;
    let t = graph.t;
    write!(
        out,
        "X wants to join {s} and {t} by edges, and O to part them.\n"
    )
}

/// Adds how many points O claims in a turn, if it claims several.
fn put_bias(out: &mut String, bias: u8) -> Result<(), AllocError>
    ensures { OnOk result (string_bytes out.new ≡ string_bytes out.old ++ bias_text bias) }
{
    if bias > 1 {
        write!(out, "O claims {bias} points in a turn.\n")?;
    }
    Ok(())
}

/// Adds what each side wants. An error means that memory ran out.
pub fn put_goals(out: &mut String, game: &Game) -> Result<(), AllocError>
    ensures { OnOk result (string_bytes out.new ≡ string_bytes out.old ++ goals_text game.now) }
{
    match &game.field {
        Field::Lines(_) => out.push_str(kind_goals(game.kind))?,
        Field::Graph(graph) => put_graph_goals(out, graph)?,
    }
    put_bias(out, game.bias)
}

/// Adds what each side wants, and what the commands are. An error means that memory ran out.
pub fn put_help(out: &mut String, game: &Game) -> Result<(), AllocError>
    ensures { OnOk result (string_bytes out.new ≡ string_bytes out.old ++ help_text game.now) }
{
    put_goals(out, game)?;
    out.push_str(COMMANDS)
}

/// Adds whose turn it is, with how many points that side still claims if there are several. An
/// error means that memory ran out.
pub fn put_turn(out: &mut String, position: &Position) -> Result<(), AllocError>
    ensures { OnOk result (string_bytes out.new ≡ string_bytes out.old ++ turn_text position.now) }
{
    out.push_str(letter_of(position.turn))?;
    let left = position.left;
    if left > 1 {
        write!(out, " claims {left} points: ")
    } else {
        out.push_str(" claims: ")
    }
}

/// Who has won.
fn result_of(score: Score) -> &'static str
    ensures { result.now ≡ result_text score }
{
    match score {
        Score::XWins => "X has won.\n",
        Score::Draw => "Nobody has won.\n",
        Score::YWins => "O has won.\n",
    }
}

/// Adds who has won. An error means that memory ran out.
pub fn put_result(out: &mut String, score: Score) -> Result<(), AllocError>
    ensures { OnOk result (string_bytes out.new ≡ string_bytes out.old ++ result_text score) }
{
    out.push_str(result_of(score))
}
