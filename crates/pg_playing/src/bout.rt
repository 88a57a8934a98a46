//! What differs between dialogues over a game.
ghost use Rattle.std.specs.Prelude.{◌≡◌, ◌<◌, ◌≤◌, ◌+◌, ℕ, IfOk, string_bytes};
ghost use Rattle.pg_playing.specs.Dialogue.{AfterText, AfterTurn, Allows, Rules, Turns, told};

use crate::note::Note;
use pg_base::Memory;
use pg_game::Game;
use std::alloc::Global;

/// What came of a line.
#[derive(Clone, Copy, Debug, PartialEq, Eq)]
pub enum Turn {
    /// Points were claimed or taken back.
    Moved,
    /// Nothing has changed, and this is the answer.
    Noted(Note),
    /// The game is left.
    Ended,
}

/// What follows a text.
#[derive(Clone, Copy, Debug, PartialEq, Eq)]
pub enum Next {
    /// A further text.
    Text,
    /// A line.
    Line,
    /// Nothing, as the game is over.
    End,
}

/// A text that shows what was played, and what follows it.
#[derive(Debug, Drop)]
pub struct Telling {
    /// The text.
    pub text: String,
    /// What follows it.
    pub next: Next,
}

/// A game that is played in a dialogue: what differs between the dialogues.
///
/// An implementation tells what was played, and by which rules the dialogue's log goes on. The
/// rules may become stricter, but never allow more.
pub trait Bout {
    /// What can be played.
    ghost state: { Type 0 };

    /// What was played.
    ghost at: { Self → state };

    /// The rules of the log.
    ghost rules: { Self → Rules state };

    /// It may be shown.
    ghost moved: { Self → Type 0 };

    /// It was shown.
    ghost shown: { Self → Type 0 };

    /// So many lines may yet be heard.
    ghost room: { Self → ℕ };

    /// So many further texts may come.
    ghost owed: { Self → ℕ };

    /// The game.
    fn game(&self) -> &Game
        ensures { result.now ≡ (rules self.now).game };

    /// Returns the next text that shows what was played. Before a further one the program may have
    /// claimed a point.
    ///
    /// # Errors
    ///
    /// `Memory` if memory ran out.
    fn tell(&mut self, alloc: Global) -> Result<Telling, Memory>
        requires { moved self.old }
        ensures prints { IfOk result (λ telling. (heard : ℕ)
            → (rules self.old).Prints (at self.old) heard (string_bytes telling.text)
            (told (at self.new) heard telling.next)) }
        ensures after { IfOk result
            (λ telling. AfterText (moved self.new) (shown self.new) telling.next) }
        ensures fewer { IfOk result
            (λ telling. telling.next ≡ Next.Text → owed self.new < owed self.old) }
        ensures room { IfOk result (λ _. room self.old ≤ room self.new) }
        ensures allows { IfOk result (λ _. Allows (rules self.old) (rules self.new)) };

    /// Claims a point for the side to move, or returns why it can't be claimed.
    ///
    /// # Errors
    ///
    /// `Memory` if memory ran out.
    fn claim(&mut self, alloc: Global, point: u16) -> Result<Turn, Memory>
        requires shown { shown self.old }
        requires room { 0 < room self.old }
        ensures claims { (heard : ℕ) → Turns ((rules self.old).Claims (at self.old) heard point)
            (at self.new) heard result }
        ensures after { IfOk result (λ turn. AfterTurn (moved self.new) (shown self.new) turn) }
        ensures room { IfOk result (λ _. room self.old ≤ room self.new + 1) }
        ensures allows { IfOk result (λ _. Allows (rules self.old) (rules self.new)) };

    /// Takes the last point back, with what the program claimed after it, or says that there is
    /// none.
    ///
    /// # Errors
    ///
    /// `Memory` if memory ran out.
    fn undo(&mut self, alloc: Global) -> Result<Turn, Memory>
        requires shown { shown self.old }
        requires room { 0 < room self.old }
        ensures undoes { (heard : ℕ) → Turns ((rules self.old).Undoes (at self.old) heard)
            (at self.new) heard result }
        ensures after { IfOk result (λ turn. AfterTurn (moved self.new) (shown self.new) turn) }
        ensures room { IfOk result (λ _. room self.old ≤ room self.new + 1) }
        ensures allows { IfOk result (λ _. Allows (rules self.old) (rules self.new)) };

    /// Returns the answer to a line that changes nothing.
    ///
    /// # Errors
    ///
    /// `Memory` if memory ran out.
    fn answer(&self, alloc: Global, note: Note) -> Result<String, Memory>
        requires { shown self.now }
        ensures { IfOk result
            (λ text. string_bytes text ≡ (rules self.now).answer (at self.now) note) };
}
