//! Laws of answers. The function is empty: what it promises is a law of the definitions alone.
ghost use Rattle.std.specs.Prelude.{◌≡◌};
ghost use Rattle.pg_io.specs.declared.entry.Entry.{Entry};
ghost use Rattle.pg_request.specs.Answer.{entry_part};

/// The entries of a log are told apart by their bytes: what was printed, a line that was read, the
/// beginning of one that is too long, and the end of the input.
pub fn entries_are_told_apart()
    ensures { (a b : Entry) → entry_part a ≡ entry_part b → a ≡ b }
{}
