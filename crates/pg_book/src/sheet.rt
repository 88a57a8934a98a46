//! The style sheet of a book, with its board.
ghost use Rattle.std.specs.Prelude.{◌≡◌, ◌++◌, IfOk, OnOk, string_bytes};
ghost use Rattle.percent_encoding.specs.Percent.{percent_encode};
ghost use Rattle.pg_book.specs.Books.{board_rule, sheet_pieces, sheet_text};

use percent_encoding::{NON_ALPHANUMERIC, utf8_percent_encode};
use pg_base::Memory;
use pg_page::Piece;
use pg_picture::{Picture, Text, print_picture};
use std::alloc::{AllocError, Global};

/// The style sheet of a book but for its board: one section is shown at a time. If none is chosen,
/// the first is shown, and all are printed. Pictures are light in dark pages too, as on paper. The
/// frame of a cell is open in its upper side, where the cell's number is.
pub const STYLE: &str = "
:root{color-scheme:light dark;--back:#fff;--ink:#111;--link:#0645ad;--seen:#8a2f8a}
@media (prefers-color-scheme:dark){:root{--back:#15181c;--ink:#e8e8e8;--link:#8ab4f8;
--seen:#d8a0e8}}
body{background:var(--back);color:var(--ink);font:1.05rem/1.5 system-ui,sans-serif;
max-width:44rem;margin:0 auto;padding:0 1rem 2rem}
h1{font-size:1.5rem;margin:.5rem 0}
h2{font-size:1.2rem;margin:.5rem 0}
a{color:var(--link)}
a:visited{color:var(--seen)}
section{display:none}
section:target{display:block}
body:not(:has(section:target)) section.first{display:block}
svg{width:100%;max-width:26rem;display:block;background:#fff bottom no-repeat;
background-size:100% auto;border-radius:.3rem;print-color-adjust:exact;--link:#0645ad;
--seen:#8a2f8a}
rect,circle{stroke:#333;stroke-width:1}
rect.reply{rx:5px;
stroke-dasharray:0 18 4 3 4 3 4 3 4 3 4 3 4 3 4 3 4 3 4 3 4 3 4 3 4 3 4 3 4 3 4 3 4 3 4 3 4 3
4 3 4 3}
line{fill:none;stroke:#333;stroke-width:2}
text{font:11px sans-serif;text-anchor:middle;dominant-baseline:central;fill:#111}
.free,.vertex{fill:#fff}
.of-x{fill:#7fa8d8}
.of-y{fill:#f8cfae}
.terminal{fill:#bbb}
line.terminal{stroke:#bbb;stroke-width:8}
.edge{stroke:#999}
.edge-of-x{stroke:#2f5f98;stroke-width:6}
.edge-of-y{stroke:#e8a878;stroke-width:3;stroke-dasharray:2 4}
.pair-0{fill:none;stroke:#c00000;stroke-width:3}
.pair-1{fill:none;stroke:#0060c0;stroke-width:3;stroke-dasharray:12 3}
.pair-2{fill:none;stroke:#008030;stroke-width:3;stroke-dasharray:6 3}
.pair-3{fill:none;stroke:#8000a0;stroke-width:3;stroke-dasharray:2 2}
.pair-4{fill:none;stroke:#a06000;stroke-width:3;stroke-dasharray:12 3 2 3}
.pair-5{fill:none;stroke:#008080;stroke-width:3;stroke-dasharray:6 3 2 3}
.pair-6{fill:none;stroke:#c00070;stroke-width:3;stroke-dasharray:12 3 2 3 2 3}
.pair-7{fill:none;stroke:#707070;stroke-width:3;stroke-dasharray:2 6}
line.first,circle.first{fill:none;stroke:#0060c0;stroke-width:4}
.second{fill:none;stroke:#c06000;stroke-width:4;stroke-dasharray:8 4}
.extra{stroke:#606060;stroke-dasharray:2 3}
.step{fill:none;stroke:#8000a0;stroke-width:3}
.answer{fill:none;stroke:#a06000;stroke-width:2;stroke-dasharray:3 2}
.plate{fill:#fff;stroke:none}
.reply{fill:transparent;stroke:var(--link);stroke-width:3;stroke-dasharray:4 3}
a:visited .reply{stroke:var(--seen)}
a:hover .reply{fill:#0645ad33}
.mark{font-size:18px;font-weight:bold}
.weight{font-size:13px;font-weight:bold}
.corner{font-size:8.5px;letter-spacing:-.5px;fill:#555;text-anchor:end}
.heading{font-size:14px;text-anchor:start;dominant-baseline:hanging}
.choice input{appearance:none;width:100%;height:100%;margin:0;cursor:pointer}
.choice input:hover,.choice input:focus-visible{outline:3px solid var(--link);outline-offset:-4px}
.chosen{display:none;pointer-events:none}
.choice:has(input:checked) .chosen{display:inline}
@media print{:root{--back:#fff;--ink:#000}
section{display:block;break-inside:avoid}
body:has(section:target) section:not(:target){display:none}
svg{max-width:7cm}
.of-x{fill:#999}
.of-y{fill:#e8e8e8}
.leave,button,input{display:none}
a{color:#000;text-decoration:none}}
";

/// What is before the board's picture in the style sheet.
pub(crate) const BOARD_BEGUN: &str = "svg{background-image:url(\"data:image/svg+xml,";

/// What is after the board's picture in the style sheet.
pub(crate) const BOARD_ENDED: &str = "\")}\n";

/// Adds a text as it is written in a style sheet.
fn put_encoded(out: &mut String, text: &str) -> Result<(), AllocError>
    ensures { OnOk result
        (string_bytes out.new
        ≡ string_bytes out.old ++ percent_encode NON_ALPHANUMERIC text.now) }
{
    utf8_percent_encode(text, NON_ALPHANUMERIC).append_to(out)
}

/// Adds the rule by which a board with this text is behind all pictures.
#[tactic(auto, unfolding(crate::specs::Books::board_rule))]
fn put_board(out: &mut String, drawn: &str) -> Result<(), AllocError>
    ensures { OnOk result
        (string_bytes out.new ≡ string_bytes out.old ++ board_rule drawn.now) }
{
    out.push_str(BOARD_BEGUN)?;
    put_encoded(out, drawn)?;
    out.push_str(BOARD_ENDED)
}

/// The style sheet with the picture of a board, which is behind all others.
#[tactic(auto, unfolding(crate::specs::Books::sheet_text))]
fn sheet_text(alloc: Global, board: &Picture) -> Result<Text, Memory>
    ensures { IfOk result (λ text. text ≡ sheet_text board.now) }
{
    let drawn = print_picture(alloc, board)?;
    let mut rules = String::from_str(alloc, STYLE)?;
    put_board(&mut rules, drawn.as_str())?;
    Ok(Text::from_string(rules))
}

/// Adds the style sheet with the picture of a board.
pub(crate) fn push_sheet(
    alloc: Global,
    pieces: &mut Vec<Piece>,
    board: &Picture,
) -> Result<(), Memory>
    ensures { OnOk result (pieces.new.items ≡ pieces.old.items ++ sheet_pieces board.now) }
{
    let rules = sheet_text(alloc, board)?;
    pieces.push(Piece::Style { rules })?;
    Ok(())
}
