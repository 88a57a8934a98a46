//! Laws of spans. The function is empty: what it promises is a law of the definitions alone.
ghost use Rattle.std.specs.Prelude.{◌≡◌, true};
ghost use Rattle.pg_backing.specs.Spans.{IsWithin, all_scores, meet, reached, shows};
ghost use Rattle.pg_backing.specs.declared.span.Span.{Span};
ghost use Rattle.pg_base.specs.declared.goal.Goal.{Goal};
ghost use Rattle.pg_base.specs.declared.score.Score.{Score};
ghost use Rattle.pg_base.specs.declared.side.Side.{Side};
ghost use Rattle.pg_game.specs.Value.{reaches};

/// What spans say of a value: it is in the span of all scores; one that reaches a side's goal is in
/// the span of the goal; one that is in two spans is in what they have in common; and if a span
/// shows a goal, each value in it reaches that.
pub fn spans_hold_values()
    ensures all { (value : Score) → IsWithin value all_scores }
    ensures reached { (side : Side) → (goal : Goal) → (value : Score)
        → reaches side goal value ≡ true
        → IsWithin value (reached side goal) }
    ensures met { (value : Score) → (a : Span) → (b : Span) → IsWithin value a → IsWithin value b
        → IsWithin value (meet a b) }
    ensures shown { (side : Side) → (goal : Goal) → (value : Score) → (span : Span)
        → shows side goal span ≡ true
        → IsWithin value span
        → reaches side goal value ≡ true }
{}
