//! Vectors written by their signs, of which the first is the lowest bit.
ghost use Rattle.std.specs.Prelude.{◌≡◌, ◌≤◌, ◌<◌, length, IsTrue};
ghost use Rattle.pg_family_files.specs.Prelude.{list_all, MAX_ROWS};
ghost use Rattle.pg_family_files.specs.FamilyFile.{is_sign, signs_value, vector_of};

/// The number whose bits the signs are, the first the lowest.
fn signs_value(word: &[u8]) -> u128
    requires signs { IsTrue (list_all is_sign word.now) }
    requires few { length word.now ≤ MAX_ROWS }
    ensures { result ≡ signs_value word.now }
{
    let mut found = 0;
    let mut left = word.len();
    while left > 0 {
        left -= 1;
        found = found * 2 + u128::from(word[left] - b'0');
    }
    found
}

/// Whether each byte is a sign `0` or `1`.
fn are_signs(word: &[u8]) -> bool
    ensures { result ≡ list_all is_sign word.now }
{
    word.iter().all(|b| *b == b'0' || *b == b'1')
}

/// The vector that a word of as many signs as rows writes.
pub fn vector_of(rows: u8, word: &[u8]) -> Option<u128>
    requires { rows ≤ MAX_ROWS }
    ensures { result ≡ vector_of rows word.now }
{
    if word.len() != usize::from(rows) || !are_signs(word) {
        return None;
    }
    Some(signs_value(word))
}
