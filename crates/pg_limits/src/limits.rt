//! What a search may use.
ghost use Rattle.std.specs.Prelude.{◌≡◌, ◌≤◌, ◌+◌};

/// What a search may use, in counts: no clock bounds it.
#[derive(Clone, Copy, Debug, PartialEq, Eq)]
pub struct Limits {
    /// How many positions it may expand.
    pub positions: u32,
    /// How many entries it may keep: positions, and patterns where it has some.
    pub entries: u32,
    /// How many choices it may make for shared pairs at the game's own position.
    pub first_steps: u32,
    /// How many choices it may make for shared pairs at any other position.
    pub steps: u32,
}

impl Limits {
    /// Returns what is left after so many positions were expanded. The other limits stay.
    pub fn after(self, expanded: u32) -> Limits
        requires { expanded ≤ self.positions }
        ensures positions { result.positions + expanded ≡ self.positions }
        ensures entries { result.entries ≡ self.entries }
        ensures first { result.first_steps ≡ self.first_steps }
        ensures steps { result.steps ≡ self.steps }
    {
        Limits {
            positions: self.positions - expanded,
            ..self
        }
    }
}
