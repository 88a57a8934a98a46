//! What the log of a game at a table tells of the play. Each function is empty: what it promises is
//! a law of the definitions alone.
ghost use Rattle.std.specs.Prelude.{◌≡◌, ◌<◌, ◌≤◌, ◌^◌, List, Option};
ghost use Rattle.pg_playing.specs.Prelude.{COLUMNS, Entry, FitsIn, Game, IsRecord, Look, Position};
ghost use Rattle.pg_playing.specs.Prelude.{Score, Shown};
ghost use Rattle.pg_playing.specs.Screens.{answer_text, shown_text};
ghost use Rattle.pg_playing.specs.TableLog.{IsLogTo, TableStage, events_at};
ghost use Rattle.pg_playing.specs.declared.note.Note.{Note};

/// The log alone determines the stage that it has reached, and so its events.
pub fn logs_determine_their_stage()
    ensures { (look : Look) (g : Game) (entries : List Entry) (s t : TableStage)
        → IsLogTo look g entries s → IsLogTo look g entries t → s ≡ t }
{}

/// The events of a log are those of a session: each point that was claimed was free at a position
/// that wasn't over, and no more was taken back than stood. So the points that stand are a legal
/// play (`pg_record`).
pub fn logged_games_are_records()
    ensures { (look : Look) (g : Game) (entries : List Entry) (stage : TableStage)
        → IsLogTo look g entries stage → IsRecord g (events_at stage) }
{}

/// On a terminal of at least 80 columns each line that is printed fits into a row: those of a
/// screen (`screens`) into as many columns as the terminal has, and those of an answer (`answers`)
/// into 80.
pub fn lines_fit_into_rows()
    ensures screens { (g : Game) → (shown : Shown) → (ending : Option Score)
        → COLUMNS ≤ shown.look.columns
        → shown.position.left < 2 ^ 8
        → FitsIn shown.look.columns (shown_text g shown ending) }
    ensures answers { (g : Game) → (p : Position) → (note : Note) → p.left < 2 ^ 8
        → FitsIn COLUMNS (answer_text g p note) }
{}
