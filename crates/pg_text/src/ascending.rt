//! Numbers that ascend.
ghost use Rattle.std.specs.Prelude.{◌≡◌};
ghost use Rattle.pg_text.specs.Text.{ascend_from};

/// Whether the numbers ascend, each above the one before it.
pub fn ascend(numbers: &[u16]) -> bool
    ensures { result ≡ ascend_from 0 numbers.now }
{
    numbers.is_sorted_by(|a, b| *a < *b)
}
