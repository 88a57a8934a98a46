//! Points, sides, words, lines and sets.
use crate::telling::{is_found, is_said};
use pg_base::{
    Goal, Kind, Line, LineFault, Lines, MAX_MEMBERS, Memory, Pair, Pairs, PointSet, Points, Score,
    Side,
};
use pg_plain::{numbers, pairs, part, set, side, word};
use std::alloc::Global;

/// Whether the word names the side, and is read back.
fn names_side(word: &str, side: Side) -> bool {
    side.word() == word && Side::from_word(word.as_bytes()) == Some(side)
}

/// Whether the word names the goal, and is read back.
fn names_goal(word: &str, claimed: Goal) -> bool {
    claimed.word() == word && Goal::from_word(word.as_bytes()) == Some(claimed)
}

/// Whether the word names the kind, and is read back.
fn names_kind(word: &str, kind: Kind) -> bool {
    kind.word() == word && Kind::from_word(word.as_bytes()) == Some(kind)
}

/// Whether the row's second word names what the row tells.
fn is_word_so(row: &str) -> bool {
    let name = word(row, 1);
    match row {
        "side x" => names_side(name, Side::X),
        "side y" => names_side(name, Side::Y),
        "goal win" => names_goal(name, Goal::Win),
        "goal draw" => names_goal(name, Goal::Draw),
        "kind maker-breaker" => names_kind(name, Kind::MakerBreaker),
        "kind maker-maker" => names_kind(name, Kind::MakerMaker),
        "kind avoider-enforcer" => names_kind(name, Kind::AvoiderEnforcer),
        "kind switching" => names_kind(name, Kind::Switching),
        "no-side z" => Side::from_word(name.as_bytes()).is_none(),
        "no-goal won" => Goal::from_word(name.as_bytes()).is_none(),
        "no-kind hex" => Kind::from_word(name.as_bytes()).is_none(),
        _ => false,
    }
}

/// Whether the side and the goal are printed as the row tells.
fn is_claim_so(alloc: Global, row: &str) -> Option<bool> {
    let head = part(row, 0);
    let side = side(word(head, 0));
    let claimed = Goal::from_word(word(head, 1).as_bytes())?;
    let text = format!(in alloc; "claim {side} {claimed}").ok()?;
    Some(text.as_str() == part(row, 1))
}

/// Whether the values of which the row tells are equal, differ and are ordered as they should be.
fn is_value_so(row: &str) -> bool {
    match row {
        "sides" => {
            Side::X.other() == Side::Y && Side::Y.other() == Side::X && Side::X != Side::Y
        }
        "same side" => Side::Y.is_same(Side::Y) && !Side::X.is_same(Side::Y),
        "goals" => Goal::Win == Goal::Win && Goal::Draw != Goal::Win,
        "kinds" => Kind::MakerMaker != Kind::MakerBreaker,
        "scores" => {
            Score::Draw != Score::XWins && Score::YWins < Score::Draw && Score::Draw < Score::XWins
        }
        "pairs" => Pair { a: 1, b: 2 } != Pair { a: 2, b: 1 },
        _ => false,
    }
}

/// Whether the line has these points at their places, and no further one.
fn has_in_order(line: &Line, points: &[u16]) -> bool {
    for place in 0..line.len() {
        let Some(due) = points.get(place) else {
            return false;
        };
        if line.at(place) != *due || !line.has(*due) {
            return false;
        }
    }
    line.len() == points.len() && line.as_slice() == points
}

/// Whether the points make the line that the row tells, which a list of lines holds; or none.
fn is_line_so(alloc: Global, row: &str) -> Option<bool> {
    let due = part(row, 1);
    match Line::new(alloc, &numbers(alloc, part(row, 0))?) {
        Ok(line) => {
            let lacked = part(row, 2).parse::<u16>().ok()?;
            let so = has_in_order(&line, &numbers(alloc, due)?) && !line.has(lacked);
            let mut members = Vec::new(alloc);
            members.push(line).ok()?;
            Some(so && Lines::from_vec(members).as_slice().len() == 1)
        }
        Err(fault) => Some(fault == LineFault::Repeated && due == "repeated"),
    }
}

/// A list of one list, of these points.
fn copied(alloc: Global, points: &[u16]) -> Result<Vec<Vec<u16>>, Memory> {
    let mut lists = Vec::new(alloc);
    lists.push(points.to_vec(alloc)?)?;
    Ok(lists)
}

/// Whether the list has the members of the row.
fn is_list_so(alloc: Global, row: &str) -> Option<bool> {
    let (kind, told) = row.split_once(' ')?;
    if kind == "pairs" {
        let kept = Pairs::from_vec(pairs(alloc, told)?);
        let [pair] = kept.as_slice() else {
            return None;
        };
        let (a, b) = told.split_once('-')?;
        return Some(a.parse::<u16>() == Ok(pair.a) && b.parse::<u16>() == Ok(pair.b));
    }
    let points = numbers(alloc, told)?;
    match kind {
        "copies" => Some(copied(alloc, &points).ok()?.len() == 1),
        "points" => {
            let kept = Points::from_vec(numbers(alloc, told)?);
            Some(kept.as_slice() == points.as_slice())
        }
        _ => None,
    }
}

/// Whether the set has these points, and no other.
fn has_just(set: &PointSet, points: &[u16]) -> bool {
    for v in 0..MAX_MEMBERS {
        if set.has(v) != points.contains(&v) {
            return false;
        }
    }
    set.len() as usize == points.len()
}

/// Whether the set has its points, and those that the row tells after the one that is taken out.
fn is_set_so(alloc: Global, row: &str) -> Option<bool> {
    let mut points = set(alloc, part(row, 0))?;
    let taken = part(row, 1).parse::<u16>().ok()?;
    if taken >= MAX_MEMBERS {
        return None;
    }
    if !has_just(&points, &numbers(alloc, part(row, 0))?) {
        return Some(false);
    }
    points.take(taken);
    Some(has_just(&points, &numbers(alloc, part(row, 2))?))
}

/// Whether sets that are made of points at once are as they should be in what the row tells.
fn is_given_set_so(row: &str) -> bool {
    let low = PointSet::from_points(&[0, 63]);
    let both = PointSet::from_points(&[0, 63, 64, 1023]);
    match row {
        "none" => has_just(&PointSet::empty(), &[]),
        "points" => has_just(&both, &[0, 63, 64, 1023]),
        "meets" => both.meets(&[1, 64]) && !low.meets(&[1, 64]) && !both.meets(&[]),
        "has all" => both.has_all(&[64, 0]) && !low.has_all(&[64, 0]) && low.has_all(&[]),
        _ => false,
    }
}

/// Whether the row tells the first point of the set from a point on, or whether its points are
/// below a limit.
fn is_first_so(alloc: Global, row: &str) -> Option<bool> {
    let points = set(alloc, part(row, 0))?;
    let told = part(row, 1);
    let v = word(told, 1).parse::<u16>().ok()?;
    match word(told, 0) {
        "from" => Some(is_found(points.first_from(v), word(told, 2))),
        "below" => Some(is_said(points.is_below(v), word(told, 2))),
        _ => None,
    }
}

/// Whether the row tells what is so of two sets.
fn are_two_sets_so(alloc: Global, row: &str) -> Option<bool> {
    let (a, b) = (set(alloc, part(row, 0))?, set(alloc, part(row, 1))?);
    let due = part(row, 3);
    match part(row, 2) {
        "shares none" => Some(is_said(a.shares_none(&b), due)),
        "subset" => Some(is_said(a.is_subset(&b), due)),
        "union" => Some(a.union(&b) == set(alloc, due)?),
        "without" => Some(a.without(&b) == set(alloc, due)?),
        _ => None,
    }
}

/// Whether the set of all points below the limit of the row has just these.
fn are_all_below(row: &str) -> Option<bool> {
    let limit = row.parse::<u16>().ok()?;
    if limit > MAX_MEMBERS {
        return None;
    }
    let all = PointSet::all_below(limit);
    for v in 0..MAX_MEMBERS {
        if all.has(v) != (v < limit) {
            return Some(false);
        }
    }
    Some(all.len() == u32::from(limit) && all.is_empty() == (limit == 0))
}

/// Whether the row is as it tells, of the question that the word names; None where it names none,
/// the row can't be read, or no memory is found.
pub(crate) fn is_so(alloc: Global, question: &str, row: &str) -> Option<bool> {
    match question {
        // what words of sides, goals and kinds name.
        "words" => Some(is_word_so(row)),
        // how a side and a goal are printed.
        "claims" => is_claim_so(alloc, row),
        // which values are equal, differ and are ordered.
        "values" => Some(is_value_so(row)),
        // which lines points make.
        "lines" => is_line_so(alloc, row),
        // what lists hold.
        "lists" => is_list_so(alloc, row),
        // a set without a point.
        "sets" => is_set_so(alloc, row),
        // sets beside points that stand in the program.
        "given-sets" => Some(is_given_set_so(row)),
        // the first point of a set from a point on, and whether all are below a limit.
        "firsts" => is_first_so(alloc, row),
        // what is so of two sets.
        "two-sets" => are_two_sets_so(alloc, row),
        // all points below a limit.
        "all-below" => are_all_below(row),
        _ => None,
    }
}
