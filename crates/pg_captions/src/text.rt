//! Texts of a picture.
ghost use Rattle.std.specs.Prelude.{◌≡◌, string_bytes};

use std::marker::Model;

/// A text, in letters of ASCII where this crate makes it.
#[derive(Debug, Drop)]
pub struct Text {
    letters: String,
}

/// Its bytes.
impl Model for Text {
    ghost use Rattle.std.specs.Prelude.{ℕ, List, string_bytes};

    ghost Value = { List ℕ };

    ghost view = { λ a. string_bytes a.letters };
}

impl Text {
    /// The text of these letters.
    pub fn from_string(letters: String) -> Text
        ensures { result ≡ string_bytes letters }
    {
        Text { letters }
    }

    /// Its letters.
    pub fn as_str(&self) -> &str
        ensures { result.now ≡ self.now }
    {
        self.letters.as_str()
    }
}

/// A list of texts.
#[derive(Debug, Drop)]
pub struct Texts {
    members: Vec<Text>,
}

/// The texts in order.
impl Model for Texts {
    ghost use Rattle.std.specs.Prelude.{ℕ, List};

    ghost Value = { List (List ℕ) };

    ghost view = { λ a. a.members.items };
}

impl Texts {
    /// The list of these texts.
    pub fn from_vec(members: Vec<Text>) -> Texts
        ensures { result ≡ members.items }
    {
        Texts { members }
    }

    /// The texts in order.
    pub fn as_slice(&self) -> &[Text]
        ensures { result.now ≡ self.now }
    {
        self.members.as_slice()
    }
}
