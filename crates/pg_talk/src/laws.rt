//! What a dialogue tells of the play. Each function is empty: what it promises is a law of the
//! rules of dialogues alone.
ghost use Rattle.std.specs.Prelude.{◌≡◌, ◌+◌, ◌≤◌, ℕ, false, List, length, count_by};
ghost use Rattle.pg_talk.specs.Prelude.{Side, Entry, IsPlayBy, free_below, played_by, Position};
ghost use Rattle.pg_talk.specs.Contest.{Contest};
ghost use Rattle.pg_talk.specs.Dialogue.{Stage, At, Steps, Leads, IsDialogue, EndsWith, IsOwnMove};
ghost use Rattle.pg_talk.specs.Dialogue.{position_at, is_heard};
ghost use Rattle.pg_talk.specs.declared.dialogue.TheConstants.{MAX_REFUSALS};

/// Where the side that is played is to move, the next entry of a dialogue is a legal move of its
/// own: nothing is heard before it.
pub fn own_moves_come_first()
    ensures { (c : Contest) (side : Side) (p : Position) (refusals : ℕ) (entry : Entry)
        (next : Stage) → c.rules.over p ≡ false
        → p.turn ≡ side
        → Steps c side (At p refusals) entry next
        → IsOwnMove c p entry }
{}

/// However the other side replies, a dialogue is a legal play: the moves of both sides lead from
/// its position to that of the stage that it has reached.
pub fn dialogues_are_legal_plays()
    ensures { (c : Contest) (side : Side) (p : Position) (entries : List Entry) (stage : Stage)
        → Leads c side (At p 0) entries stage → (moves : List ℕ) × IsPlayBy c.rules p moves
        × (played_by c.rules p moves ≡ position_at stage) }
{}

/// A dialogue ends with status 0 where the game is over, and else with 8 or 9.
pub fn dialogues_end()
    ensures { (c : Contest) (side : Side) (p : Position) (entries : List Entry) (last : Position)
        (status : ℕ) → IsDialogue c side p entries last status
        → EndsWith c last status }
{}

/// In a dialogue something is heard at most as often as points are free at its beginning, and as
/// often more as replies may be refused.
pub fn little_is_heard()
    ensures { (c : Contest) (side : Side) (p : Position) (entries : List Entry) (stage : Stage)
        → Leads c side (At p 0) entries stage
        → count_by is_heard entries ≤ length (free_below c.rules.points p) + MAX_REFUSALS }
{}
