//! What holds of the definitions of reading and printing.
ghost use Rattle.std.specs.Prelude.{◌≡◌, ℕ, ◌<◌, List, Ok, Err};
ghost use Rattle.pg_family_files.specs.Prelude.{AreVectorParts, AreSpanParts, VecGame, SpanGame};
ghost use Rattle.pg_family_files.specs.Prelude.{Fault};
ghost use Rattle.pg_family_files.specs.declared.family.Family.TheVariants as families;
ghost use Rattle.pg_family_files.specs.Laws.{IsFirstFault, IsWholeFault};
ghost use Rattle.pg_family_files.specs.Print.{printed_span, printed_vectors};
ghost use Rattle.pg_family_files.specs.Views.{span_entry, vector_entry};
ghost use Rattle.pg_family_files.specs.FamilyFile.{SpanEntry, VectorEntry, span_game, vector_game};

/// A fault with a line is the least of that line, and no line before it has one. A fault of the
/// whole file means that the file is too long; or that no line has a fault, and there is no
/// significant line, or else none that says the turn.
pub fn first_fault_is_told()
    ensures span_line { (text : List ℕ) (fault : Fault) (number : ℕ)
        → span_game text ≡ Err (fault, number)
        → 0 < number
        → IsFirstFault families.Connectivity text fault number }
    ensures span_whole { (text : List ℕ) (fault : Fault) → span_game text ≡ Err (fault, 0)
        → IsWholeFault families.Connectivity text fault }
    ensures vectors_line { (text : List ℕ) (fault : Fault) (number : ℕ)
        → vector_game text ≡ Err (fault, number)
        → 0 < number
        → IsFirstFault families.Vectors text fault number }
    ensures vectors_whole { (text : List ℕ) (fault : Fault) → vector_game text ≡ Err (fault, 0)
        → IsWholeFault families.Vectors text fault }
{}

/// A game that is read is within the limits, and its parts fit together.
pub fn what_is_read_fits()
    ensures span { (text : List ℕ) (g : SpanEntry) → span_game text ≡ Ok g
        → AreSpanParts g.graph g.x g.y }
    ensures vectors { (text : List ℕ) (g : VectorEntry) → vector_game text ≡ Ok g
        → AreVectorParts g.rows g.target g.vectors g.x g.y }
{}

/// Reading what is printed gives the game back.
pub fn printed_game_is_read()
    ensures span { (g : SpanGame) → span_game (printed_span g) ≡ Ok (span_entry g) }
    ensures vectors { (g : VecGame) → vector_game (printed_vectors g) ≡ Ok (vector_entry g) }
{}
