//! What holds of the definition of reading: its faults, its limits, and that it takes back what is
//! printed.
ghost use Rattle.std.specs.Prelude.{◌≡◌, ℕ, ◌<◌, List, Ok, Err};
ghost use Rattle.pg_files.specs.Prelude.{IsFit, Game};
ghost use Rattle.pg_files.specs.declared.fault.Fault.{Fault};
ghost use Rattle.pg_files.specs.GameFile.{Entry, game};
ghost use Rattle.pg_files.specs.Print.{printed};
ghost use Rattle.pg_files.specs.Views.{entry};
ghost use Rattle.pg_files.specs.Laws.{IsFirstFault, IsWholeFault};

/// A fault with a line is the least of that line, and no line before it has one. A fault of the
/// whole file means that the file is too long; or that no line has a fault, and there is no
/// significant line, or else none that says the turn.
pub fn first_fault_is_told()
    ensures line { (text : List ℕ) (fault : Fault) (number : ℕ) → game text ≡ Err (fault, number)
        → 0 < number
        → IsFirstFault text fault number }
    ensures whole { (text : List ℕ) (fault : Fault) → game text ≡ Err (fault, 0)
        → IsWholeFault text fault }
{}

/// A game that is read is within the limits, and its parts fit together.
pub fn what_is_read_fits()
    ensures { (text : List ℕ) (g : Entry) → game text ≡ Ok g → IsFit g.kind g.field g.x g.y g.bias }
{}

/// Reading what is printed gives the game back.
pub fn printed_game_is_read()
    ensures { (g : Game) → game (printed (entry g)) ≡ Ok (entry g) }
{}
