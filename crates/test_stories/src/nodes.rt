//! Faults of a node at the first, a middle and the last node of the first, a middle and the last
//! claim, alone and before another.
use crate::runs::ran;
use pg_plain::{Named, cut, lines_of};
use std::alloc::{AllocError, Global};

/// How many claims a certificate has.
const CLAIMS: u32 = 8;

/// How many nodes a claim has.
const NODES: u32 = 6;

/// How many nodes a certificate has.
const ALL: u32 = 48;

/// A node with a fault; a game, what a claim says, and a node without one that may stand at each
/// place of it.
#[derive(Clone, Copy)]
struct Faulty<'a> {
    fault: &'a str,
    node: &'a str,
    game: &'a str,
    claim: &'a str,
    sound: &'a str,
}

/// A certificate of eight claims that has the node at this place of this claim, and another one as
/// the last of all.
fn certificate(
    alloc: Global,
    faulty: Faulty,
    claim: u32,
    place: u32,
    last: &str,
) -> Result<String, AllocError> {
    let mut text = String::from_str(alloc, "posgame-cert 2\n")?;
    for number in 0..ALL {
        if number % NODES == 0 {
            text.push_str(faulty.claim)?;
            text.push_str("\nnodes 6\n")?;
        }
        let is_faulty = number / NODES == claim && number % NODES == place;
        text.push_str(if is_faulty {
            faulty.node
        } else if number == ALL - 1 {
            last
        } else {
            faulty.sound
        })?;
        text.push('\n')?;
    }
    Ok(text)
}

/// Whether a check tells the fault of the node at this place of this claim, where the other one is
/// the last of all.
fn is_told(
    alloc: Global,
    faulty: Faulty,
    claim: u32,
    place: u32,
    last: &str,
) -> Result<bool, AllocError> {
    let text = certificate(alloc, faulty, claim, place, last)?;
    let said = ran(alloc, "check G C", faulty.game, text.as_str())?;
    let fault = faulty.fault;
    let due = format!(in alloc; "status 4\nsays rejected {fault} claim {claim} node {place};\n")?;
    Ok(said.as_str() == due.as_str())
}

/// Whether the fault of the node is told at each of these places in the first, a middle and the
/// last claim, with nothing wrong after it.
fn is_told_at_all(alloc: Global, faulty: Faulty, places: &str) -> Result<bool, AllocError> {
    let sound = faulty.sound;
    for place in places.split(' ') {
        let place = place.parse::<u32>().unwrap_or(NODES);
        let is_so = is_told(alloc, faulty, 0, place, sound)?
            && is_told(alloc, faulty, 3, place, sound)?
            && is_told(alloc, faulty, CLAIMS - 1, place, sound)?;
        if !is_so {
            return Ok(false);
        }
    }
    Ok(true)
}

/// Whether the fault of the node is told at this place of the last claim but one, where the last
/// node of all is any of the table's with the same base.
fn is_told_first(
    alloc: Global,
    faulty: Faulty,
    place: u32,
    script: &str,
    base: &str,
) -> Result<bool, AllocError> {
    for line in script.lines() {
        let (head, last) = line.split_once('=').unwrap_or((line, ""));
        let is_other = head.starts_with("node ") && head.split(' ').nth(2).unwrap_or("") == base;
        if is_other && !is_told(alloc, faulty, CLAIMS - 2, place, last)? {
            return Ok(false);
        }
    }
    Ok(true)
}

/// Whether a node is as is told, `FAULT BASE PLACES=NODE`: it has the fault at each of the places,
/// and at the first of them before any other node. The base is a game, a claim and a sound node,
/// with `#` between them.
pub(crate) fn is_node_so(
    alloc: Global,
    texts: &[Named],
    script: &str,
    told: &str,
) -> Result<bool, AllocError> {
    let (head, node) = told.split_once('=').unwrap_or((told, ""));
    let (fault, rest) = cut(head);
    let (base, places) = cut(rest);
    let (game, rest) = lines_of(texts, base)
        .split_once("\n#\n")
        .unwrap_or(("", ""));
    let (claim, sound) = rest.split_once("\n#\n").unwrap_or((rest, ""));
    let faulty = Faulty {
        fault,
        node,
        game,
        claim,
        sound,
    };
    let (first, _) = cut(places);
    let place = first.parse::<u32>().unwrap_or(NODES);
    Ok(is_told_at_all(alloc, faulty, places)? && is_told_first(alloc, faulty, place, script, base)?)
}
