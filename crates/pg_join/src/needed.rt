//! The positions that are needed, and what is printed of them.
ghost use Rattle.std.specs.Prelude.{◌≡◌, IfOk, string_bytes};
ghost use Rattle.pg_join.specs.Needs.{lack_word, need_line, need_lines, needs_text};

use pg_backing::{Lack, Need};
use pg_base::Memory;
use std::alloc::{AllocError, Global};
use std::marker::Model;

/// Returns the word for why a certificate doesn't count.
fn lack_word(lack: Lack) -> &'static str
    ensures { result.now ≡ lack_word lack }
{
    match lack {
        Lack::Missing => "missing",
        Lack::Faulty => "faulty",
        Lack::Foreign => "foreign",
        Lack::Open => "open",
    }
}

/// Returns the line of a position that is needed.
fn need_line(alloc: Global, need: &Need) -> Result<String, AllocError>
    ensures { IfOk result (λ line. string_bytes line ≡ need_line need.now) }
{
    let file = need.file;
    let a = file / 10_000 % 10;
    let b = file / 1_000 % 10;
    let c = file / 100 % 10;
    let d = file / 10 % 10;
    let e = file % 10;
    let word = lack_word(need.lack);
    format!(in alloc; "{a}{b}{c}{d}{e}.game {word}\n")
}

/// Returns the lines of positions that are needed.
fn need_lines(alloc: Global, needs: &[Need]) -> Result<String, Memory>
    ensures { IfOk result (λ text. string_bytes text ≡ need_lines needs.now) }
{
    let mut text = String::new(alloc);
    for need in needs {
        let line = need_line(alloc, need)?;
        text.push_str(line.as_str())?;
    }
    Ok(text)
}

/// Returns how many positions are needed, and their lines.
fn needs_text(alloc: Global, needs: &[Need]) -> Result<String, Memory>
    ensures { IfOk result (λ text. string_bytes text ≡ needs_text needs.now) }
{
    let count = needs.len();
    let mut text = format!(in alloc; "needed {count} positions\n")?;
    let lines = need_lines(alloc, needs)?;
    text.push_str(lines.as_str())?;
    Ok(text)
}

/// The positions that are needed, the most telling first, with the text that says them.
#[derive(Drop)]
pub struct Needed {
    needs: Vec<Need>,
    text: String,
}

/// The positions in order; the text is theirs.
impl Model for Needed {
    ghost use Rattle.std.specs.Prelude.{◌≡◌, List, string_bytes};
    ghost use Rattle.std.specs.Coded.{coded_list};
    ghost use Rattle.pg_backing.specs.declared.report.Need.{Need};
    ghost use Rattle.pg_backing.specs.contracts.report.Need.{the_row};
    ghost use Rattle.pg_join.specs.Needs.{needs_text};

    ghost Value = { List Need };

    ghost coded = { coded_list the_row.coded };

    ghost view = { λ n. n.needs.items };

    ghost invariant = { λ n. string_bytes n.text ≡ needs_text n.needs.items };
}

impl Needed {
    /// Returns these positions, with their text.
    ///
    /// # Errors
    ///
    /// `Memory` if memory runs out.
    pub(crate) fn new(alloc: Global, needs: Vec<Need>) -> Result<Needed, Memory>
        ensures { IfOk result (λ needed. needed ≡ needs.items) }
    {
        let text = needs_text(alloc, needs.as_slice())?;
        Ok(Needed { needs, text })
    }

    /// Returns the positions in order.
    pub fn as_slice(&self) -> &[Need]
        ensures { result.now ≡ self.now }
    {
        self.needs.as_slice()
    }

    /// Returns the text: how many positions are needed, and a line for each, with the name of its
    /// game file and what is wrong with its certificate.
    pub fn text(&self) -> &str
        ensures { result.now ≡ needs_text self.now }
    {
        self.text.as_str()
    }
}
