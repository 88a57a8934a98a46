//! Parts and words of a text, and the numbers, sets and pairs that they tell.
use pg_base::{MAX_MEMBERS, Pair, PointSet};
use std::alloc::Global;

/// The part of a text that has this number, from 0, where `:` stands between parts, and no text
/// where it has fewer.
pub fn part(text: &str, number: usize) -> &str {
    text.split(':').nth(number).unwrap_or("")
}

/// The word of a text that has this number, from 0, and no word where it has fewer.
pub fn word(text: &str, number: usize) -> &str {
    text.split_whitespace().nth(number).unwrap_or("")
}

/// The first word of a line, and what stands after the space after it.
pub fn cut(line: &str) -> (&str, &str) {
    line.split_once(' ').unwrap_or((line, ""))
}

/// The numbers of a text, unless some word is none, or no memory is found.
pub fn numbers(alloc: Global, text: &str) -> Option<Vec<u16>> {
    let mut list = Vec::new(alloc);
    for word in text.split_whitespace() {
        list.push(word.parse::<u16>().ok()?).ok()?;
    }
    Some(list)
}

/// The set of the numbers of a text, unless some word is none, a set can't hold one, or no memory
/// is found.
pub fn set(alloc: Global, text: &str) -> Option<PointSet> {
    let mut points = PointSet::empty();
    for v in &numbers(alloc, text)? {
        if *v >= MAX_MEMBERS {
            return None;
        }
        points.put(*v);
    }
    Some(points)
}

/// The pair that a word tells as `A-B`.
fn pair(word: &str) -> Option<Pair> {
    let mut ends = word.split('-');
    let a = ends.next()?.parse::<u16>().ok()?;
    let b = ends.next()?.parse::<u16>().ok()?;
    Some(Pair { a, b })
}

/// The pairs of a text, each as `A-B`, unless some word is none, or no memory is found.
pub fn pairs(alloc: Global, text: &str) -> Option<Vec<Pair>> {
    let mut list = Vec::new(alloc);
    for word in text.split_whitespace() {
        list.push(pair(word)?).ok()?;
    }
    Some(list)
}
