//! Laws of trails. Each function is empty: what it promises is a law of the definitions alone.
ghost use Rattle.std.specs.Prelude.{◌≡◌, ℕ, ◌≤◌, length};
ghost use Rattle.pg_undo.specs.Trail.{Cells, with_set, back_to};

/// After a change each earlier level is as it was before it. So whatever changes follow, going back
/// to a level gives the cells and entries that the trail had at that level.
pub fn changes_keep_earlier_levels()
    ensures { (t : Cells) → (level i v : ℕ) → level ≤ length t.entries
        → 1 ≤ t.spare
        → back_to level (with_set t i v) ≡ back_to level t }
{}

/// A trail that goes back no entry stays as it is.
pub fn own_level_is_the_trail()
    ensures { (t : Cells) → back_to (length t.entries) t ≡ t }
{}

/// Going back in two steps is going back in one.
pub fn going_back_in_steps()
    ensures { (low high : ℕ) → (t : Cells) → low ≤ high
        → high ≤ length t.entries
        → back_to low (back_to high t) ≡ back_to low t }
{}
