//! Vectors as signs.
ghost use Rattle.std.specs.Prelude.{◌≡◌, ◌+◌, ◌%◌, ◌++◌, ◌∷◌, [], IfOk, OnOk, string_bytes};
ghost use Rattle.pg_family_files.specs.Print.{signs_of};

use crate::text::Text;
use pg_base::Memory;
use std::alloc::{AllocError, Global};

/// The sign of the lowest entry.
fn lowest_sign(vector: u128) -> &'static str
    ensures { result.now ≡ (48 + vector % 2) ∷ [] }
{
    if vector % 2 == 1 { "1" } else { "0" }
}

/// Adds the signs of a vector.
fn put_signs(out: &mut String, rows: u8, vector: u128) -> Result<(), AllocError>
    ensures { OnOk result (string_bytes out.new ≡ string_bytes out.old ++ signs_of rows vector) }
{
    let mut rest = vector;
    for _row in 0..rows {
        out.push_str(lowest_sign(rest))?;
        rest /= 2;
    }
    Ok(())
}

/// Returns the signs of a vector of so many entries, 0 and 1.
///
/// # Errors
///
/// `Memory` if memory ran out.
pub fn signs_text(alloc: Global, rows: u8, vector: u128) -> Result<Text, Memory>
    ensures { IfOk result (λ text. text ≡ signs_of rows vector) }
{
    let mut words = String::new(alloc);
    put_signs(&mut words, rows, vector)?;
    Ok(Text::from_string(words))
}
