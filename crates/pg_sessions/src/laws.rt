//! What the log of a session tells, and what the losses of a play are. Each function is empty: what
//! it promises is a law of the definitions alone.
ghost use Rattle.std.specs.Prelude.{◌≡◌, ℕ, Ok, List, count_by, ◌<◌, ◌↔◌, [], ◌∷◌, ◌++◌, length};
ghost use Rattle.pg_sessions.specs.Prelude.{Game, Entry, printed_record, IsRecord, Event};
ghost use Rattle.pg_sessions.specs.Prelude.{record_of, AllPairs, Contains, played, Position};
ghost use Rattle.pg_sessions.specs.SessionLog.{EndsWith, IsLogTo, IsWholeLog, Stage, events_at};
ghost use Rattle.pg_sessions.specs.SessionLog.{is_refusal};
ghost use Rattle.pg_sessions.specs.Losses.{Loss, IsLoss, loss_at, losses};

/// The log alone tells which session it is of, and where it stands.
pub fn logs_tell_their_session()
    ensures { (g : Game) (entries : List Entry) (s t : Stage)
        → IsLogTo g entries s → IsLogTo g entries t → s ≡ t }
{}

/// The session that a log gives is a record of the game: each event may follow those before it, and
/// there aren't too many.
pub fn logged_sessions_are_records()
    ensures { (g : Game) (entries : List Entry) (stage : Stage)
        → IsLogTo g entries stage → IsRecord g (events_at stage) }
{}

/// What is printed of the session that a log gives is read back as this session.
pub fn logged_sessions_are_read_back()
    ensures { (g : Game) (entries : List Entry) (stage : Stage) → IsLogTo g entries stage
        → record_of g (printed_record (events_at stage)) ≡ Ok (events_at stage) }
{}

/// A log ends with 9 where as many lines were refused as may be; otherwise it ends with 0, and
/// fewer were.
pub fn refusals_end_sessions()
    ensures { (g : Game) (entries : List Entry) (events : List Event) (status : ℕ)
        → IsWholeLog g entries events status
        → EndsWith (count_by is_refusal entries) status }
{}

/// The losses of moves are exactly those of which each is one by the values before and after its
/// move (`each`), in the order of their moves, none twice (`ordered`). One move more adds its own
/// loss, or nothing (`more`).
pub fn losses_are_told()
    ensures each { (g : Game) → (p : Position) → (moves : List ℕ) → (l : Loss)
        → Contains (losses g p moves) l ↔ IsLoss g p moves l }
    ensures ordered { (g : Game) → (p : Position) → (moves : List ℕ)
        → AllPairs (λ one other. one.number < other.number) (losses g p moves) }
    ensures more { (g : Game) → (p : Position) → (moves : List ℕ) → (v : ℕ) → losses g p
        (moves ++ v ∷ []) ≡ losses g p moves ++ loss_at g (played g p moves) (length moves) v }
{}
