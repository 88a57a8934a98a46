//! Laws of names and lines. Each function is empty: what it promises is a law of the definitions
//! alone.
ghost use Rattle.std.specs.Prelude.{◌≡◌, ◌<◌, ◌≤◌, ◌^◌, ℕ, decimal, Option};
ghost use Rattle.pg_base.specs.declared.score.Score.{Score};
ghost use Rattle.pg_characters.specs.Names.{point_name};
ghost use Rattle.pg_characters.specs.declared.shown.Shown.{Shown};
ghost use Rattle.pg_characters.specs.declared.shown.TheConstants.{COLUMNS};
ghost use Rattle.pg_game.specs.Game.{point_count};
ghost use Rattle.pg_game.specs.declared.game.Game.{Game};
ghost use Rattle.pg_game.specs.declared.position.Position.{Position};
ghost use Rattle.pg_table.specs.Board.{board_text};
ghost use Rattle.pg_characters.specs.Columns.{FitsIn};
ghost use Rattle.pg_table.specs.OpenLines.{lines_text};
ghost use Rattle.pg_table.specs.Reply.{read_reply};
ghost use Rattle.pg_table.specs.Words.{goals_text, help_text, result_text, turn_text};

use crate::reply::Reply;

/// The name of each point of a game is read as this point (`name`), and so is its number
/// (`number`): on a board of cells `b3` and `7` both name a cell.
pub fn names_are_read()
    ensures name { (g : Game) → (v : ℕ) → v < point_count g
        → read_reply g.field (point_name g.field v) ≡ Reply.Point v }
    ensures number { (g : Game) → (v : ℕ) → v < point_count g
        → read_reply g.field (decimal v) ≡ Reply.Point v }
{}

/// On a terminal of at least 80 columns each line fits into a row: those of a board (`board`) into
/// as many columns as the terminal has, and those of the texts that are the same on each terminal
/// into 80: the open lines, also those through a point (`lines`), what each side wants (`goals`),
/// the commands (`help`), whose turn it is (`turn`) and who has won (`result`).
pub fn lines_fit_into_rows()
    ensures board { (g : Game) → (s : Shown) → COLUMNS ≤ s.look.columns
        → FitsIn s.look.columns (board_text g s) }
    ensures lines { (g : Game) → (p : Position) → (through : Option ℕ)
        → FitsIn COLUMNS (lines_text g p through) }
    ensures goals { (g : Game) → FitsIn COLUMNS (goals_text g) }
    ensures help { (g : Game) → FitsIn COLUMNS (help_text g) }
    ensures turn { (p : Position) → p.left < 2 ^ 8 → FitsIn COLUMNS (turn_text p) }
    ensures result { (score : Score) → FitsIn COLUMNS (result_text score) }
{}
