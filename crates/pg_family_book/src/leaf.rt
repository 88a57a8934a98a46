//! The pages of claims, each of which one rule shows.
ghost use Rattle.std.specs.Prelude.{◌≡◌};

use pg_captions::Texts;
use pg_picture::{Picture, Text};
use std::marker::Model;

/// The rows of a table, each a list of cells.
#[derive(Debug, Drop)]
pub struct Rows {
    members: Vec<Texts>,
}

/// The rows in order.
impl Model for Rows {
    ghost use Rattle.std.specs.Prelude.{ℕ, List};

    ghost Value = { List (List (List ℕ)) };

    ghost view = { λ a. a.members.items };
}

impl Rows {
    /// Returns the list of these rows.
    pub fn from_vec(members: Vec<Texts>) -> Rows
        ensures { result ≡ members.items }
    {
        Rows { members }
    }

    /// Returns the rows in order.
    pub fn as_slice(&self) -> &[Texts]
        ensures { result.now ≡ self.now }
    {
        self.members.as_slice()
    }
}

/// A table.
#[derive(Debug, Drop)]
pub struct Table {
    /// The headings of its columns.
    pub heads: Texts,
    /// Its rows.
    pub rows: Rows,
}

/// The page of a claim.
#[derive(Debug, Drop)]
pub struct Leaf {
    /// The number of the claim in its certificate, from 0.
    pub number: u32,
    /// What the claim says.
    pub said: Text,
    /// The picture of the claim, if the game has one.
    pub picture: Option<Picture>,
    /// The rule that shows the claim, a paragraph each.
    pub words: Texts,
    /// The points of the game, with the sides and the sets that have them.
    pub table: Table,
}
