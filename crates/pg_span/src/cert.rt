//! Certificates of connectivity games.
ghost use Rattle.std.specs.Prelude.{◌≡◌};

use pg_base::{PointSet, Points, Side};
use std::marker::Model;

/// How many different numbers a part may have.
pub const PART_NUMBERS: u32 = 65_536;

/// What shows that a side wins.
#[derive(Debug, Drop)]
pub enum SpanBody {
    /// Two sets of edges for X, each of which joins all vertices with X's edges.
    Trees {
        /// The edge that X claims first, where it is to move and needs one.
        first: Option<u16>,
        /// One set.
        a1: PointSet,
        /// The other.
        a2: PointSet,
    },
    /// A number for each vertex, for Y: too few edges lead between vertices of different numbers.
    Parts(Points),
}

/// That a side wins from a game's marks with the turn, and what shows it.
#[derive(Debug, Drop)]
pub struct SpanClaim {
    /// The side to move first.
    pub turn: Side,
    /// The side that wins, the claimer.
    pub side: Side,
    /// What shows it.
    pub body: SpanBody,
}

/// A list of claims.
#[derive(Debug, Drop)]
pub struct SpanClaims {
    members: Vec<SpanClaim>,
}

/// The claims in order.
impl Model for SpanClaims {
    ghost use Rattle.std.specs.Prelude.{List};
    ghost use Rattle.std.specs.Coded.{coded_list};
    ghost use Rattle.pg_span.specs.declared.cert.SpanClaim.{SpanClaim};
    ghost use Rattle.pg_span.specs.contracts.cert.SpanClaim.{the_row};

    ghost Value = { List SpanClaim };

    ghost coded = { coded_list the_row.coded };

    ghost view = { λ a. a.members.items };
}

impl SpanClaims {
    /// The list of these claims.
    pub fn from_vec(members: Vec<SpanClaim>) -> SpanClaims
        ensures { result ≡ members.items }
    {
        SpanClaims { members }
    }

    /// The claims in order.
    pub fn as_slice(&self) -> &[SpanClaim]
        ensures { result.now ≡ self.now }
    {
        self.members.as_slice()
    }
}

/// Claims of one connectivity game: 1 to 8.
#[derive(Debug, Drop)]
pub struct SpanCert {
    /// The claims.
    pub claims: SpanClaims,
}
