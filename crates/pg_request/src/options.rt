//! The options of `posgame-settle`.
ghost use Rattle.std.specs.Prelude.{◌≡◌, map, string_bytes};
ghost use Rattle.pg_request.specs.Options.{fresh, options_of, with_flag, with_limit};
ghost use Rattle.pg_request.specs.Options.{with_word};

use pg_text::{number, two_parts};

/// The sign between the name of an option and its number.
const EQUALS: u8 = b'=';

/// What the options say, each of which is one word.
#[derive(Clone, Copy, Debug, PartialEq, Eq)]
pub struct Options {
    /// How many positions may be expanded: `--positions=N`.
    pub positions: Option<u32>,
    /// How many positions the table may have: `--entries=N`.
    pub entries: Option<u32>,
    /// How many nodes the certificate may have: `--nodes=N`.
    pub nodes: Option<u32>,
    /// Whether the certificate is to be folded: `--images`.
    pub images: bool,
    /// Whether the result is printed as JSON: `--json`.
    pub json: bool,
}

/// No option.
const NO_OPTIONS: Options = Options {
    positions: None,
    entries: None,
    nodes: None,
    images: false,
    json: false,
};

/// Returns the number if none was given before.
fn fresh(given: Option<u32>, number: Option<u32>) -> Option<u32>
    ensures { result ≡ fresh given number }
{
    match given {
        None => number,
        Some(_) => None,
    }
}

impl Options {
    /// Adds the flag that a word names; `None` if it names none, or one that was given.
    fn with_flag(self, word: &[u8]) -> Option<Options>
        ensures { result ≡ with_flag self word.now }
    {
        if "--images".as_bytes() == word && !self.images {
            Some(Options {
                images: true,
                ..self
            })
        } else if "--json".as_bytes() == word && !self.json {
            Some(Options { json: true, ..self })
        } else {
            None
        }
    }

    /// Adds a limit by its name; `None` if it has no such name, no number, or was given.
    fn with_limit(self, name: &[u8], limit: Option<u32>) -> Option<Options>
        ensures { result ≡ with_limit self name.now limit }
    {
        if "--positions".as_bytes() == name {
            let positions = Some(fresh(self.positions, limit)?);
            Some(Options { positions, ..self })
        } else if "--entries".as_bytes() == name {
            let entries = Some(fresh(self.entries, limit)?);
            Some(Options { entries, ..self })
        } else if "--nodes".as_bytes() == name {
            let nodes = Some(fresh(self.nodes, limit)?);
            Some(Options { nodes, ..self })
        } else {
            None
        }
    }

    /// Adds what a word says; `None` if that is no option, or one that was given.
    fn with(self, word: &[u8]) -> Option<Options>
        ensures { result ≡ with_word self word.now }
    {
        match two_parts(EQUALS, word) {
            None => self.with_flag(word),
            Some((name, value)) => self.with_limit(name, number(value)),
        }
    }
}

/// Returns what the words say; `None` if one is no option, or an option is repeated.
pub fn options_of(words: &[String]) -> Option<Options>
    ensures { result ≡ options_of (map string_bytes words.now) }
{
    let mut options = Some(NO_OPTIONS);
    for word in words {
        options = match options {
            Some(given) => given.with(word.as_bytes()),
            None => None,
        };
    }
    options
}
