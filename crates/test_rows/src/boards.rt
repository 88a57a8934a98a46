//! Full games on 256 points, played in mixed orders and taken back: what `bench/parts.py` measures.
use pg_base::Kind;
use pg_board::Board;
use pg_game::Game;
use std::alloc::{AllocError, Global};

/// Mixes the points, each with one that stands no later (Fisher and Yates). The state is that of a
/// linear congruential generator.
fn mix(order: &mut [u16; 256], state: &mut u32) {
    for place in 0..256 {
        *state = state.wrapping_mul(1_103_515_245).wrapping_add(12_345) % 2_147_483_648;
        let drawn = (*state / 65_536) as usize;
        order.swap(place, drawn % (place + 1));
    }
}

/// Plays all free points in this order.
fn play_all(b: &mut Board, order: &[u16; 256]) {
    for v in order {
        if *v < b.game().points() && b.is_free(*v) {
            b.play(*v);
        }
    }
}

/// Plays so many full games in mixed orders, and takes each back. How many plays were made.
fn play_games(b: &mut Board, rounds: u16) -> usize {
    let mut order = [0; 256];
    for v in 0..256u16 {
        order[v as usize] = v;
    }
    let mut plays: usize = 0;
    let mut state = 1;
    for _ in 0..rounds {
        mix(&mut order, &mut state);
        play_all(b, &order);
        plays = plays.wrapping_add(b.plays());
        for _ in 0..256 {
            if b.plays() > 0 {
                b.undo();
            }
        }
    }
    plays
}

/// How many lines the board of a game has, and how many plays are made in so many games; None where
/// no memory is found.
fn played(alloc: Global, g: &Game, rounds: u16) -> Option<(u32, usize)> {
    if g.kind == Kind::Switching {
        return None;
    }
    let mut board = Board::open(alloc, g, &g.start()).ok()?;
    let plays = play_games(&mut board, rounds);
    Some((board.lines(), plays))
}

/// How many lines the board has, and how many plays were made in so many games as the word says.
pub(crate) fn told(alloc: Global, g: &Game, games: &str) -> Result<String, AllocError> {
    match played(alloc, g, games.parse::<u16>().unwrap_or(0)) {
        Some((lines, plays)) => format!(in alloc; "{lines} lines, {plays} plays"),
        None => String::from_str(alloc, "no board, or no memory"),
    }
}
