//! Texts of pictures.
ghost use Rattle.std.specs.Prelude.{◌≡◌, string_bytes};

use std::marker::Model;

/// A text.
#[derive(Debug, Drop)]
pub struct Text {
    words: String,
}

/// The bytes of the text.
impl Model for Text {
    ghost use Rattle.std.specs.Prelude.{ℕ, List, string_bytes};

    ghost Value = { List ℕ };

    ghost view = { λ a. string_bytes a.words };
}

impl Text {
    /// The text of these words.
    pub fn from_string(words: String) -> Text
        ensures { result ≡ string_bytes words }
    {
        Text { words }
    }

    /// The words of the text.
    pub fn as_str(&self) -> &str
        ensures { result.now ≡ self.now }
    {
        self.words.as_str()
    }
}
