//! The families of games with files of their own, and the keys of these.
ghost use Rattle.std.specs.Prelude.{◌≡◌};
ghost use Rattle.pg_family_files.specs.Family.{header_word, key_name, key_of, rank_of, has_key};
ghost use Rattle.pg_family_files.specs.Family.{needed_rank};

/// A family of games.
#[derive(Clone, Copy, Debug, PartialEq, Eq)]
pub enum Family {
    /// Connectivity games.
    Connectivity,
    /// Games on vectors.
    Vectors,
}

impl Family {
    /// The first word of a file.
    pub fn header(self) -> &'static str
        ensures { result.now ≡ header_word self }
    {
        match self {
            Family::Connectivity => "posgame-span",
            Family::Vectors => "posgame-vectors",
        }
    }

    /// Whether games of the family have the key.
    pub fn has(self, key: Key) -> bool
        ensures { result ≡ has_key self key }
    {
        match key {
            Key::Vertices | Key::Edge => self == Family::Connectivity,
            Key::Rows | Key::Target | Key::Vector => self == Family::Vectors,
            Key::X | Key::Y | Key::Turn => true,
        }
    }
}

/// What a line speaks of.
#[derive(Clone, Copy, Debug, PartialEq, Eq)]
pub enum Key {
    /// The number of vertices.
    Vertices,
    /// An edge by its ends.
    Edge,
    /// The number of signs of a vector.
    Rows,
    /// What X wants as a sum.
    Target,
    /// A vector by its signs.
    Vector,
    /// X's marks.
    X,
    /// Y's marks.
    Y,
    /// The side to move.
    Turn,
}

impl Key {
    /// The word that stands for the key.
    pub fn name(self) -> &'static str
        ensures { result.now ≡ key_name self }
    {
        match self {
            Key::Vertices => "vertices",
            Key::Edge => "edge",
            Key::Rows => "rows",
            Key::Target => "target",
            Key::Vector => "vector",
            Key::X => "x",
            Key::Y => "y",
            Key::Turn => "turn",
        }
    }

    /// The key of the family that the word stands for.
    pub fn read(family: Family, word: &[u8]) -> Option<Key>
        ensures { result ≡ key_of family word.now }
    {
        for key in [
            Key::Vertices,
            Key::Edge,
            Key::Rows,
            Key::Target,
            Key::Vector,
            Key::X,
            Key::Y,
            Key::Turn,
        ] {
            if family.has(key) && key.name().as_bytes() == word {
                return Some(key);
            }
        }
        None
    }

    /// The rank: keys stand in the order of their ranks.
    pub fn rank(self) -> u8
        ensures { result ≡ rank_of self }
    {
        match self {
            Key::Vertices | Key::Rows => 2,
            Key::Target => 3,
            Key::Edge | Key::Vector => 4,
            Key::X => 5,
            Key::Y => 6,
            Key::Turn => 7,
        }
    }

    /// The greatest rank below its own of which a key is needed in games of the family, 0 where
    /// none is.
    pub fn needed_rank(self, family: Family) -> u8
        ensures { result ≡ needed_rank family self }
    {
        match self {
            Key::Vertices | Key::Rows => 0,
            Key::Target => 2,
            _ if family == Family::Connectivity => 2,
            _ => 3,
        }
    }
}
