//! Laws of replaying and of reading. Each function is empty: what it promises is a law of the
//! definitions alone.
ghost use Rattle.std.specs.Prelude.{◌≡◌, ℕ, ◌≤◌, List, [], ◌∷◌, ◌++◌, length, Ok, Err};
ghost use Rattle.pg_record.specs.Prelude.{start, IsPosition, after, IsLegalPlay, Game};
ghost use Rattle.pg_record.specs.Replay.{replay, standing, IsRecord};
ghost use Rattle.pg_record.specs.declared.event.Event.{Event};
ghost use Rattle.pg_record.specs.Print.{printed_record};
ghost use Rattle.pg_record.specs.Faults.{IsFirstFault};
ghost use Rattle.pg_record.specs.RecordFile.{record_of};
ghost use Rattle.pg_record.specs.declared.fault.Fault.{Fault};

/// The events one by one: a move adds itself and is played at the position before it (`play`);
/// `back` after a move that still stands, whatever was played and taken back since, gives the moves
/// and the position from before that move (`back`).
pub fn events_are_undone()
    ensures none { (g : Game) → replay g [] ≡ record { moves = []; position = start g } }
    ensures play { (g : Game) → (events : List Event) → (v : ℕ)
        → replay g (events ++ Event.Play v ∷ []) ≡ record {
          moves = (replay g events).moves ++ v ∷ [];
          position = after g (replay g events).position v;
        } }
    ensures back { (g : Game) → (before : List Event) → (v : ℕ) → (since : List Event)
        → standing (before ++ Event.Play v ∷ since) ≡ standing (before ++ Event.Play v ∷ [])
        → replay g ((before ++ Event.Play v ∷ since) ++ Event.Back ∷ []) ≡ replay g before }
{}

/// The standing moves of a record are a legal play from the game's position, and lead to a position
/// of the game; there are no more of them than events.
pub fn standing_moves_are_legal()
    ensures legal { (g : Game) → (events : List Event) → IsRecord g events
        → IsLegalPlay g (start g) (replay g events).moves }
    ensures position { (g : Game) → (events : List Event) → IsRecord g events
        → IsPosition g (replay g events).position }
    ensures few { (events : List Event) → length (standing events) ≤ length events }
{}

/// A fault that reading gives is the first: the file is too large; or its first line isn't the
/// header; or no line before the one that it names has a fault, and it is the least of those of its
/// line.
pub fn first_record_fault_is_told()
    ensures { (g : Game) → (text : List ℕ) → (fault : Fault) → (number : ℕ)
        → record_of g text ≡ Err (fault, number)
        → IsFirstFault g text fault number }
{}

/// The events that are read are those of a session of the game: each may follow those before it,
/// and there aren't too many.
pub fn what_is_read_is_a_record()
    ensures { (g : Game) → (text : List ℕ) → (events : List Event) → record_of g text ≡ Ok events
        → IsRecord g events }
{}

/// Reading what is printed of a session gives its events back.
pub fn printed_record_is_read()
    ensures { (g : Game) → (events : List Event) → IsRecord g events
        → record_of g (printed_record events) ≡ Ok events }
{}
