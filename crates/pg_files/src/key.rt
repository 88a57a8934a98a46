//! The keys of a game file.
ghost use Rattle.std.specs.Prelude.{◌≡◌};
ghost use Rattle.pg_files.specs.Key.{key_name, key_of, rank_of, belongs, needed_rank};

use pg_base::Kind;

/// What a line speaks of.
#[derive(Clone, Copy, Debug, PartialEq, Eq)]
pub enum Key {
    /// The kind of the game.
    Kind,
    /// The number of points.
    Points,
    /// The width and the height of the grid whose cells the points are.
    Grid,
    /// The number of vertices.
    Vertices,
    /// The two terminals.
    Terminals,
    /// How many points Y claims in a turn.
    Bias,
    /// A line of points.
    Line,
    /// A shape, all of whose placements are lines.
    Shape,
    /// An edge by its ends.
    Edge,
    /// X's marks.
    X,
    /// Y's marks.
    Y,
    /// The side to move.
    Turn,
}

impl Key {
    /// The word that stands for the key.
    pub fn name(self) -> &'static str
        ensures { result.now ≡ key_name self }
    {
        match self {
            Key::Kind => "kind",
            Key::Points => "points",
            Key::Grid => "grid",
            Key::Vertices => "vertices",
            Key::Terminals => "terminals",
            Key::Bias => "bias",
            Key::Line => "line",
            Key::Shape => "shape",
            Key::Edge => "edge",
            Key::X => "x",
            Key::Y => "y",
            Key::Turn => "turn",
        }
    }

    /// The key that the word stands for.
    pub fn read(word: &[u8]) -> Option<Key>
        ensures { result ≡ key_of word.now }
    {
        for key in [
            Key::Kind,
            Key::Points,
            Key::Grid,
            Key::Vertices,
            Key::Terminals,
            Key::Bias,
            Key::Line,
            Key::Shape,
            Key::Edge,
            Key::X,
            Key::Y,
            Key::Turn,
        ] {
            if key.name().as_bytes() == word {
                return Some(key);
            }
        }
        None
    }

    /// The rank: keys stand in the order of their ranks.
    pub fn rank(self) -> u8
        ensures { result ≡ rank_of self }
    {
        match self {
            Key::Kind => 1,
            Key::Points | Key::Grid | Key::Vertices => 2,
            Key::Terminals | Key::Bias => 3,
            Key::Line | Key::Shape | Key::Edge => 4,
            Key::X => 5,
            Key::Y => 6,
            Key::Turn => 7,
        }
    }

    /// Whether games of the kind have the key.
    pub fn belongs(self, kind: Kind) -> bool
        ensures { result ≡ belongs kind self }
    {
        match self {
            Key::Points | Key::Grid | Key::Line | Key::Shape => kind != Kind::Switching,
            Key::Vertices | Key::Terminals | Key::Edge => kind == Kind::Switching,
            Key::Bias => kind == Kind::MakerBreaker || kind == Kind::AvoiderEnforcer,
            _ => true,
        }
    }

    /// The greatest rank below its own of which a key is needed in games of the kind.
    pub fn needed_rank(self, kind: Kind) -> u8
        ensures { result ≡ needed_rank kind self }
    {
        match self {
            Key::Kind => 0,
            Key::Points | Key::Grid | Key::Vertices => 1,
            Key::Terminals | Key::Bias => 2,
            _ if kind == Kind::Switching => 3,
            _ => 2,
        }
    }
}
