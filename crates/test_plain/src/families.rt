//! Small games by number: which edges or vectors they have, and whose they are.
use pg_base::Memory;
use std::alloc::Global;

/// The lesser ends of the pairs of vertices below four, those of fewer vertices first. A vertex is
/// also paired with itself.
const FIRST_ENDS: [u16; 10] = [0, 0, 1, 0, 1, 2, 0, 1, 2, 3];

/// Their greater ends.
const SECOND_ENDS: [u16; 10] = [0, 1, 1, 2, 2, 2, 3, 3, 3, 3];

/// The games that are gone through, each on a list of edges or vectors that stand as numbers.
#[derive(Clone, Copy)]
pub(crate) enum Family {
    /// Switching games with the terminals 0 and 1.
    Switching { vertices: u16 },
    /// Connectivity games.
    Connectivity { vertices: u16 },
    /// Games on vectors of three signs, of which the first is the lowest digit.
    Vectors { target: u32 },
}

/// The ends of the edge with this number.
pub(crate) fn ends_of(number: u32) -> (u16, u16) {
    let place = (number % 10) as usize;
    (FIRST_ENDS[place], SECOND_ENDS[place])
}

/// How many edges or vectors there are.
pub(crate) fn choices(family: Family) -> u32 {
    match family {
        Family::Switching { vertices } | Family::Connectivity { vertices } => {
            let count = u32::from(vertices);
            count.saturating_mul(count.saturating_add(1)) / 2
        }
        Family::Vectors { .. } => 8,
    }
}

/// So many edges or vectors, which are the digits of a number to the base of the choices. None
/// where they don't ascend, so that each list is named once.
pub(crate) fn chosen(
    alloc: Global,
    choices: u32,
    points: u16,
    number: u32,
) -> Result<Option<Vec<u32>>, Memory> {
    let mut list = Vec::new(alloc);
    let (mut rest, mut last) = (number, 0);
    for _ in 0..points {
        if choices == 0 {
            return Ok(None);
        }
        let place = rest % choices;
        if place < last {
            return Ok(None);
        }
        list.push(place)?;
        (rest, last) = (rest / choices, place);
    }
    Ok(Some(list))
}

/// X's and Y's points as binary digits, by a number: its digit to the base 3 for each point says
/// whose it is, if any.
pub(crate) fn marks_of(points: u16, number: u32) -> (u32, u32) {
    let (mut x, mut y) = (0u32, 0u32);
    let mut rest = number;
    for v in 0..points {
        match rest % 3 {
            1 => x |= 1 << (v & 15),
            2 => y |= 1 << (v & 15),
            _ => {}
        }
        rest /= 3;
    }
    (x, y)
}
