//! The maps of small boards, and which maps fit small games.
use pg_base::{Grid, PointSet, Side};
use pg_game::{Field, Game, Position};
use pg_maps::{GridMap, fits, fitting_maps};
use pg_plain::{field, kind, numbers, part, set, word};
use std::alloc::Global;

/// The number that the word of this place tells.
fn number_at(text: &str, place: usize) -> Option<u16> {
    word(text, place).parse::<u16>().ok()
}

/// The map whose number the word of this place tells.
fn map_at(text: &str, place: usize) -> Option<GridMap> {
    GridMap::from_number(word(text, place).parse::<u8>().ok()?)
}

/// The board whose width and height the first two words tell, where it is a small one.
fn board(text: &str) -> Option<Grid> {
    let (width, height) = (number_at(text, 0)?, number_at(text, 1)?);
    if width > 16 || height > 16 {
        return None;
    }
    Some(Grid { width, height })
}

/// The point to which a point goes, where the map is one of the board.
fn image(m: GridMap, grid: Grid, point: u16) -> Option<u16> {
    if !m.is_map_of(grid) || grid.width > 16 || grid.height > 16 {
        return None;
    }
    Some(m.image_of(grid, point))
}

/// Whether the map of the row has the images that it tells, and is the map of its number.
fn has_images(alloc: Global, row: &str) -> Option<bool> {
    let head = part(row, 0);
    let (grid, m) = (board(head)?, map_at(head, 2)?);
    let mut images = Vec::new(alloc);
    for (point, _) in part(row, 1).split_whitespace().enumerate() {
        images
            .push(image(m, grid, u16::try_from(point).ok()?)?)
            .ok()?;
    }
    let same = images == numbers(alloc, part(row, 1))?;
    Some(same && Some(u16::from(m.number())) == number_at(head, 2))
}

/// Whether the row tells no map of its board.
fn is_no_map(row: &str) -> Option<bool> {
    let grid = board(row)?;
    match map_at(row, 2) {
        Some(m) => Some(!m.is_map_of(grid)),
        None => Some(true),
    }
}

/// Whether the row tells one map and then another.
fn is_followed(row: &str) -> Option<bool> {
    Some(map_at(row, 0)?.followed_by(map_at(row, 1)?) == map_at(row, 2)?)
}

/// Whether the row tells what undoes a map.
fn is_undone(row: &str) -> Option<bool> {
    Some(map_at(row, 0)?.reverse() == map_at(row, 1)?)
}

/// The image of a position on three by three.
fn image_on_three(m: GridMap, x: PointSet, y: PointSet) -> Position {
    let grid = Grid {
        width: 3,
        height: 3,
    };
    let p = Position {
        x,
        y,
        turn: Side::Y,
        left: 2,
    };
    m.image_position(grid, &p)
}

/// Whether the row tells the image of its position.
fn has_image(alloc: Global, row: &str) -> Option<bool> {
    let m = map_at(part(row, 0), 0)?;
    let image = image_on_three(m, set(alloc, part(row, 1))?, set(alloc, part(row, 2))?);
    let sides = image.x == set(alloc, part(row, 3))? && image.y == set(alloc, part(row, 4))?;
    Some(sides && image.turn == Side::Y && image.left == 2)
}

/// The field on its board, where the text tells one.
fn on_board(made: Field, text: &str) -> Option<Field> {
    let Field::Lines(mut lines) = made else {
        return Some(made);
    };
    if !text.is_empty() {
        lines.grid = Some(board(text)?);
    }
    Some(Field::Lines(lines))
}

/// The game of the row.
fn game(alloc: Global, row: &str) -> Option<Game> {
    let head = part(row, 0);
    let kind = kind(word(head, 0));
    let made = field(
        alloc,
        kind,
        word(head, 1).parse::<u16>().ok()?,
        part(row, 1),
    )?;
    let none = PointSet::empty();
    Game::new(kind, on_board(made, part(row, 2))?, none, none, Side::X, 1).ok()
}

/// The numbers of the maps that fit, of which each is asked for alone too.
fn numbers_of_maps(alloc: Global, g: &Game) -> Option<String> {
    let mut numbers = String::new(alloc);
    for m in fitting_maps(alloc, g).ok()? {
        if !fits(alloc, g, m).ok()? {
            return None;
        }
        numbers.push((b'0' + m.number()) as char).ok()?;
    }
    Some(numbers)
}

/// Whether exactly the maps of the row fit its game.
fn has_maps(alloc: Global, row: &str) -> Option<bool> {
    let g = game(alloc, row)?;
    Some(numbers_of_maps(alloc, &g)?.as_str() == part(row, 3))
}

/// Whether the row is as it tells, of the question that the word names; None where it names none,
/// the row can't be read, or no memory is found.
pub(crate) fn is_so(alloc: Global, question: &str, row: &str) -> Option<bool> {
    match question {
        // the images of points.
        "images" => has_images(alloc, row),
        // which maps a board lacks.
        "no-maps" => is_no_map(row),
        // one map and then another.
        "followed" => is_followed(row),
        // what undoes a map.
        "reverses" => is_undone(row),
        // the images of positions.
        "positions" => has_image(alloc, row),
        // which maps fit a game.
        "fitting" => has_maps(alloc, row),
        _ => None,
    }
}
