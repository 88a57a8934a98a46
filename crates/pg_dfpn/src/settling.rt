//! The search as it is called.
ghost use Rattle.std.specs.Prelude.{◌≡◌, ◌≢◌, ◌≤◌, IfOk};
ghost use Rattle.pg_dfpn.specs.Prelude.{IsQuestion, Switching, Fits, lines_of, most_of};
ghost use Rattle.pg_dfpn.specs.Asking.{IsRead};
ghost use Rattle.pg_game.specs.Decided.{claimer as claimer_of, claimed_goal as claimed_by};
ghost use Rattle.pg_dfpn.specs.Settled.{IsSettled};

use crate::descent::{Search, descend, met};
use crate::drafting::{Draft, claimer};
use crate::judging::{Asked, total_at};
use crate::moving::go_up_to;
use crate::plunging::plunge;
use crate::widening::widen;
use pg_base::{Goal, Kind, Memory, Score};
use pg_board::Board;
use pg_cert::{Claim, Nodes};
use pg_game::Game;
use pg_limits::{Limits, Watch};
use pg_match::PairCache;
use pg_transpositions::{Signatures, Table};
use std::alloc::Global;

/// The most answers on private pairs that a search keeps.
const MOST_ANSWERS: u32 = 1_024;

/// Which part of the positions a search in depth may expand.
const DEPTH_PART: u32 = 4;

/// How the answer is searched for.
#[derive(Clone, Copy, Debug, PartialEq, Eq)]
enum Way {
    /// By proof numbers; positions that a map of the board makes of one another are one.
    Numbers,
    /// In depth: a position's moves one after the other.
    Depth,
}

/// What a search finds.
#[derive(Debug, Drop)]
pub enum Settled {
    /// X reaches the score, as the claim says.
    Yes(Claim),
    /// X doesn't, as Y's claim says.
    No(Claim),
    /// The limits don't suffice.
    Unknown,
}

/// What a search finds, and what it used.
#[derive(Debug, Drop)]
pub struct Settling {
    /// The answer.
    pub answer: Settled,
    /// How many positions were expanded.
    pub expanded: u32,
    /// How many positions the table has.
    pub entries: usize,
}

/// The goal that the claim of an answer is for.
fn claimed_goal(kind: Kind, question: Score, answer: bool) -> Goal
    ensures { result ≡ claimed_by kind question answer }
{
    match (kind, question, answer) {
        (Kind::MakerMaker, Score::XWins, false) => Goal::Draw,
        (Kind::MakerMaker, Score::Draw, true) => Goal::Draw,
        _ => Goal::Win,
    }
}

/// The answer with its claim, where this has no more nodes than a claim may.
fn claimed<W: Watch>(
    alloc: Global,
    asked: Asked<'_>,
    answer: bool,
    board: &mut Board<'_>,
    cache: &mut PairCache,
    table: &Table,
    watch: &mut W,
) -> Result<Settled, Memory>
    requires reads { IsRead asked.game.now asked.question board.old cache.old }
    ensures { IfOk result (IsSettled asked.entry.game.now asked.entry.question) }
{
    let mut draft = Draft::new(alloc, answer);
    if !draft.fill(alloc, asked, board, cache, table, watch)? {
        return Ok(Settled::Unknown);
    }
    let claim = Claim {
        turn: asked.game.turn,
        side: claimer(answer),
        goal: claimed_goal(asked.game.kind, asked.question, answer),
        nodes: Nodes::from_vec(draft.into_nodes()),
    };
    if answer {
        return Ok(Settled::Yes(claim));
    }
    Ok(Settled::No(claim))
}

/// Searches for the answer at the position of the board, at which no play stands.
fn search_answer<W: Watch>(
    alloc: Global,
    asked: Asked<'_>,
    way: Way,
    board: &mut Board<'_>,
    cache: &mut PairCache,
    search: &mut Search,
    watch: &mut W,
) -> Result<Option<bool>, Memory>
    requires reads { IsRead asked.game.now asked.question board.old cache.old }
    requires few { search.old.expanded ≤ asked.limits.positions }
    ensures game { board.new.game ≡ board.old.game }
    ensures fits { Fits cache.new (lines_of asked.entry.game.now) }
    ensures most { most_of search.new.table ≡ most_of search.old.table }
    ensures few { search.new.expanded ≤ asked.entry.limits.positions }
{
    let key = asked.signatures.at(&board.position());
    let first = met(alloc, asked, &key, board, cache, &mut search.table)?;
    if first.answer().is_none() {
        let most = asked.limits.positions;
        match way {
            Way::Numbers => descend(alloc, asked, most, board, cache, search, watch)?,
            Way::Depth => plunge(alloc, asked, board, cache, search, watch)?,
        }
        go_up_to(board, 0);
    }
    match search.table.find(&key) {
        Some(numbers) => Ok(numbers.answer()),
        None => Ok(None),
    }
}

/// Searches from the position of the board, at which no play stands: for the answer, and if it was
/// searched for by proof numbers then for a smaller claim.
fn search_from<W: Watch>(
    alloc: Global,
    asked: Asked<'_>,
    way: Way,
    board: &mut Board<'_>,
    cache: &mut PairCache,
    search: &mut Search,
    watch: &mut W,
) -> Result<Option<bool>, Memory>
    requires reads { IsRead asked.game.now asked.question board.old cache.old }
    requires few { search.old.expanded ≤ asked.limits.positions }
    ensures game { board.new.game ≡ board.old.game }
    ensures fits { Fits cache.new (lines_of asked.entry.game.now) }
    ensures most { most_of search.new.table ≡ most_of search.old.table }
    ensures few { search.new.expanded ≤ asked.entry.limits.positions }
{
    let Some(answer) = search_answer(alloc, asked, way, board, cache, search, watch)? else {
        return Ok(None);
    };
    if way == Way::Numbers {
        widen(alloc, asked, claimer(answer), board, cache, search, watch)?;
        go_up_to(board, 0);
    }
    Ok(Some(answer))
}

/// The answer at the position of the board, at which no play stands.
fn settle_on<W: Watch>(
    alloc: Global,
    asked: Asked<'_>,
    way: Way,
    board: &mut Board<'_>,
    cache: &mut PairCache,
    watch: &mut W,
) -> Result<Settling, Memory>
    requires reads { IsRead asked.game.now asked.question board.old cache.old }
    ensures answer { IfOk result
        (λ found. IsSettled asked.entry.game.now asked.entry.question found.answer) }
    ensures expanded { IfOk result (λ found. found.expanded ≤ asked.entry.limits.positions) }
    ensures entries { IfOk result (λ found. found.entries ≤ asked.entry.limits.entries) }
{
    let mut search = Search {
        table: Table::new(alloc, asked.limits.entries),
        expanded: 0,
    };
    let answer = match search_from(alloc, asked, way, board, cache, &mut search, watch)? {
        Some(answer) => claimed(alloc, asked, answer, board, cache, &search.table, watch)?,
        None => Settled::Unknown,
    };
    Ok(Settling {
        answer,
        expanded: search.expanded,
        entries: search.table.len(),
    })
}

/// The signatures by which positions are known.
fn signatures_for(alloc: Global, g: &Game, way: Way) -> Result<Signatures, Memory> {
    match way {
        Way::Numbers => Signatures::of_game(alloc, g),
        Way::Depth => Signatures::without_maps(alloc, g),
    }
}

/// The answer at the game's position, searched for in one way.
fn settle_by<W: Watch>(
    alloc: Global,
    g: &Game,
    question: Score,
    limits: Limits,
    way: Way,
    watch: &mut W,
) -> Result<Settling, Memory>
    requires question { IsQuestion g.now.kind question }
    requires lines { g.now.kind ≢ Switching }
    ensures answer { IfOk result (λ found. IsSettled g.now question found.answer) }
    ensures expanded { IfOk result (λ found. found.expanded ≤ limits.positions) }
    ensures entries { IfOk result (λ found. found.entries ≤ limits.entries) }
{
    let signatures = signatures_for(alloc, g, way)?;
    let mut cache = PairCache::new(alloc, MOST_ANSWERS)?;
    let mut board = Board::open(alloc, g, &g.start())?;
    let asked = Asked {
        game: g,
        question,
        limits,
        signatures: &signatures,
        total: total_at(&board),
    };
    settle_on(alloc, asked, way, &mut board, &mut cache, watch)
}

/// The answer at the position of a game of Avoider and Enforcer: a claim of Enforcer's that is
/// found in depth; else what proof numbers find in the positions that are left; else a claim of
/// Avoider's that was found in depth.
fn settle_avoider<W: Watch>(
    alloc: Global,
    g: &Game,
    question: Score,
    limits: Limits,
    watch: &mut W,
) -> Result<Settling, Memory>
    requires question { IsQuestion g.now.kind question }
    requires lines { g.now.kind ≢ Switching }
    ensures answer { IfOk result (λ found. IsSettled g.now question found.answer) }
    ensures expanded { IfOk result (λ found. found.expanded ≤ limits.positions) }
    ensures entries { IfOk result (λ found. found.entries ≤ limits.entries) }
{
    let few = Limits {
        positions: limits.positions / DEPTH_PART,
        ..limits
    };
    let deep = settle_by(alloc, g, question, few, Way::Depth, watch)?;
    if let Settled::No(_) = deep.answer {
        return Ok(deep);
    }
    let left = limits.after(deep.expanded);
    let found = settle_by(alloc, g, question, left, Way::Numbers, watch)?;
    let (expanded, entries) = (deep.expanded + found.expanded, found.entries);
    if let Settled::Unknown = found.answer {
        return Ok(Settling {
            answer: deep.answer,
            expanded,
            entries,
        });
    }
    Ok(Settling {
        answer: found.answer,
        expanded,
        entries,
    })
}

/// Whether X reaches the score from the game's position, with a claim that is to show it; or that
/// the limits don't suffice.
///
/// It is a search by proof numbers to the depth (df-pn: A. Nagai, Df-pn Algorithm for Searching
/// AND/OR Trees and Its Applications, 2002) over a table of positions, in which those that differ
/// by dead points or by a map of the board are one. Leaves are those of the criteria (`leaf` of
/// `pg_leaf`) and shared pairs. The mover's number is the least of those below; the other side's is
/// the greatest and four times the logarithm of how many there are to the base 2. A first number is
/// eight times the ratio of what the lines weigh to what they weigh at the game's position, or the
/// other way round. The best move is followed until its number is beyond the second one by more
/// than a quarter. Once the answer is known, the claimer's other moves are searched for a while, in
/// Maker-Maker only the first moves, and only if the tree is large. Of the moves that win the claim
/// has one to a position that it has already, or else the one whose tree is least; and a position
/// once.
///
/// In Avoider-Enforcer the moves are first searched in depth, by ascending points, for a quarter of
/// the positions: there a weight tells little of who wins, and any move of Enforcer's may do. A
/// claim of Enforcer's that this finds is taken. A claim of Avoider's is taken only if proof
/// numbers find none, since theirs are smaller.
///
/// A claim is within the limits of version 1 of the format, so the checker may be asked. That it is
/// valid no clause says. `watch` is told now and then how far the search is.
///
/// # Errors
///
/// `Memory` where no memory is found.
pub fn settle<W: Watch>(
    alloc: Global,
    g: &Game,
    question: Score,
    limits: Limits,
    watch: &mut W,
) -> Result<Settling, Memory>
    requires question { IsQuestion g.now.kind question }
    requires lines { g.now.kind ≢ Switching }
    ensures answer { IfOk result (λ found. IsSettled g.now question found.answer) }
    ensures expanded { IfOk result (λ found. found.expanded ≤ limits.positions) }
    ensures entries { IfOk result (λ found. found.entries ≤ limits.entries) }
{
    if g.kind == Kind::AvoiderEnforcer {
        return settle_avoider(alloc, g, question, limits, watch);
    }
    settle_by(alloc, g, question, limits, Way::Numbers, watch)
}
