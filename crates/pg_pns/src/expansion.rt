//! The search: expansion after expansion, until the root has an answer or the budget is spent.
ghost use Rattle.std.specs.Prelude.{◌≡◌, ◌<◌, ◌≤◌, ◌+◌, ◌*◌, ◌^◌, [], ◌∷◌, ◌++◌, List, ℕ, length};
ghost use Rattle.std.specs.Prelude.{slice_get, slice_set, Some, None, IfOk, IfSome, IfNone, OnOk};
ghost use Rattle.std.specs.Prelude.{OnErr};
ghost use Rattle.pg_pns.specs.Prelude.{Position, start, free_points, lines_of, Fits};
ghost use Rattle.pg_pns.specs.Prelude.{IsTable, keys_of, Contains, MAX_CLAIM_NODES};
ghost use Rattle.pg_game.specs.Decided.{claimer as claimer_of, claimed_goal as claimed_by};
ghost use Rattle.pg_pns.specs.Found.{IsAnswer};
ghost use Rattle.pg_pns.specs.Descent.{IsFromStart};
ghost use Rattle.pg_met.specs.Known.{answer_at};
ghost use Rattle.pg_met.specs.Reading.{IsAskedOf, IsExpansion, IsKept, IsMoveAt, IsReadAt};
ghost use Rattle.pg_pns.specs.Reading.{IsReadAtStart, IsReadFromStart};
ghost use Rattle.pg_pns.specs.Expanded.{IsListed};
ghost use Rattle.pg_pns.specs.Search.{IsSearch, CanGoOn, CanGrow, GoesOn, IsGrowing};
ghost use Rattle.pg_pns.specs.Search.{IsRootFound};
ghost use Rattle.pg_pns.specs.declared.limits.TheConstants.{MAX_EXPANDED_MOVES};

use crate::descent::go_down;
use crate::guide::Guide;
use crate::settle::settle_from;
use crate::work::Found;
use indexmap::IndexMap;
use pg_base::{Goal, Kind, Memory, Score, Side};
use pg_board::Board;
use pg_cert::{Claim, Nodes};
use pg_leaf::{Ahead, Key, leaf, order_of, prune};
use pg_match::PairCache;
use pg_met::{Answered, Asked, Expansion, Moves, Places, Table, meet_after};
use std::alloc::Global;

/// Adds a place before the place.
fn add_parent(parents: &mut [Places], place: u32, k: u32) -> Result<(), Memory>
    requires { place < length parents.old }
    ensures { OnOk result ((ups : List ℕ) → slice_get parents.old place ≡ Some ups
        → parents.new ≡ slice_set parents.old place (ups ++ k ∷ [])) }
{
    let ups = &mut parents[place as usize];
    ups.push(k)?;
    Ok(())
}

/// Meets the position after one move of the position that is expanded, where the board stands.
fn meet_move(
    alloc: Global,
    asked: Asked<'_>,
    v: u16,
    board: &mut Board<'_>,
    cache: &mut PairCache,
    table: &mut Table,
    expansion: &mut Expansion,
) -> Result<(), Memory>
    requires reads { IsExpansion asked.game.now asked.question expansion.old board.old cache.old }
    requires moves { IsMoveAt asked.game.now expansion.old.position v }
    requires few { length table.old.positions.items < 2 ^ 32 }
    requires grows { (list : List Position)
        × IsGrowing asked.game.now asked.question list expansion.old.place expansion.old.position v
        table.old expansion.old.nexts }
    ensures kept { IsKept asked.entry.game.now board.old board.new cache.new }
    ensures same { (expansion.new.place ≡ expansion.old.place)
        × (expansion.new.position ≡ expansion.old.position)
        × (expansion.new.ahead ≡ expansion.old.ahead) }
    ensures grows { OnOk result
        ((list : List Position) → IsGrowing asked.entry.game.now asked.entry.question list
        expansion.old.place expansion.old.position v table.old expansion.old.nexts
        → IsGrowing asked.entry.game.now asked.entry.question list expansion.new.place
        expansion.new.position (v + 1) table.new expansion.new.nexts) }
{
    let place = meet_after(alloc, asked, expansion, v, board, cache, table)?;
    add_parent(table.parents.as_mut_slice(), place, expansion.place)?;
    expansion.nexts.push(v, place)?;
    Ok(())
}

/// Adds the moves of the position at the place, where the board stands.
fn expand(
    alloc: Global,
    asked: Asked<'_>,
    k: u32,
    board: &mut Board<'_>,
    cache: &mut PairCache,
    table: &mut Table,
) -> Result<(), Memory>
    requires reads { (p : Position) → slice_get table.old.positions.items k ≡ Some p
        → IsReadAt asked.game.now asked.question p board.old cache.old }
    requires grows { (list : List Position) × (p : Position)
        × CanGrow asked.game.now asked.question list table.old k p
        × (1 + (length list + 1) * length (free_points asked.game.now (start asked.game.now))
        ≤ 100000) }
    ensures kept { IsKept asked.entry.game.now board.old board.new cache.new }
    ensures grows { OnOk result ((list : List Position) → (p : Position)
        → CanGrow asked.entry.game.now asked.entry.question list table.old k p
        → IsSearch asked.entry.game.now asked.entry.question (k ∷ []) (list ++ p ∷ []) table.new) }
{
    let mut expansion = Expansion {
        place: k,
        position: board.position(),
        ahead: Ahead::look(board, asked.question),
        nexts: Moves::new(alloc),
    };
    expansion.ahead.seek(board);
    for v in 0..asked.game.points() {
        if !expansion.position.is_free(v) {
            continue;
        }
        meet_move(alloc, asked, v, board, cache, table, &mut expansion)?;
    }
    let Expansion {
        place: _place,
        position: _position,
        ahead: _ahead,
        nexts,
    } = expansion;
    table.moves.as_mut_slice()[k as usize] = nexts;
    Ok(())
}

/// Keeps the position that is expanded, after the others, with its place.
fn keep(expanded: &mut IndexMap<Key, u32>, p: Key, place: u32) -> Result<(), Memory>
    requires fresh { Contains (keys_of expanded.old.entries) p → ⊥ }
    ensures kept { OnOk result
        (keys_of expanded.new.entries ≡ keys_of expanded.old.entries ++ p ∷ []) }
    ensures same { OnErr result (keys_of expanded.new.entries ≡ keys_of expanded.old.entries) }
{
    expanded.insert(p, place)?;
    Ok(())
}

/// The order of the moves at the place, where the board stands.
fn order_at(alloc: Global, table: &Table, board: &Board<'_>, k: u32) -> Result<Vec<u16>, Memory> {
    let nexts = table.moves.as_slice();
    match nexts.get(k as usize) {
        Some(moves) => order_of(alloc, board, moves.as_slice()),
        None => Ok(Vec::new(alloc)),
    }
}

/// Expands one position more. The board comes from the game's position before and after.
fn step(
    alloc: Global,
    asked: Asked<'_>,
    work: &mut IndexMap<Key, u32>,
    board: &mut Board<'_>,
    cache: &mut PairCache,
    table: &mut Table,
    guide: &mut Guide,
) -> Result<(), Memory>
    requires reads { IsReadFromStart asked.game.now asked.question board.old cache.old }
    requires goes { CanGoOn asked.game.now asked.question (keys_of work.old.entries) table.old }
    ensures fits { Fits cache.new (lines_of asked.entry.game.now) }
    ensures rules { IsTable asked.entry.game.now asked.entry.question (keys_of work.new.entries) }
    ensures more { length (keys_of work.new.entries) ≤ length (keys_of work.old.entries) + 1 }
    ensures starts { OnOk result (IsFromStart asked.entry.game.now board.new) }
    ensures goes { OnOk result
        (GoesOn asked.entry.game.now asked.entry.question (length (keys_of work.old.entries) + 1)
        (keys_of work.new.entries) table.new) }
{
    let k = go_down(table, guide, board);
    let p = table.positions.key(k);
    keep(work, *p, k)?;
    expand(alloc, asked, k, board, cache, table)?;
    let order = order_at(alloc, table, board, k)?;
    settle_from(alloc, k, table)?;
    guide.update(alloc, table, k, order, asked.game.points())?;
    Ok(())
}

/// The claim that the root's answer makes.
fn claim_of(
    alloc: Global,
    asked: Asked<'_>,
    answered: Answered,
    table: Table,
) -> Result<Found, Memory>
    requires some { (list : List Position)
        × IsSearch asked.game.now asked.question [] list table }
    requires few { length table.positions.items ≤ MAX_CLAIM_NODES }
    requires root { slice_get table.answers.items 0 ≡ Some (Some answered) }
    ensures { IfOk result (λ found. (list : List Position) → (budget : ℕ)
        → IsSearch asked.entry.game.now asked.entry.question [] list table
        → IsAnswer asked.entry.game.now asked.entry.question budget list found) }
{
    let Table {
        positions: _positions,
        moves: _moves,
        parents: _parents,
        answers: _answers,
        claims,
    } = table;
    let mut nodes = claims.into_nodes(answered.answer);
    nodes.truncate(answered.node as usize + 1);
    let reached = prune(alloc, nodes.as_slice())?;
    let claim = Claim {
        turn: asked.game.turn,
        side: claimer(answered.answer),
        goal: claimed_goal(asked.game.kind, asked.question, answered.answer),
        nodes: Nodes::from_vec(reached),
    };
    if answered.answer {
        Ok(Found::Yes(claim))
    } else {
        Ok(Found::No(claim))
    }
}

/// Expands positions, which are kept in their order, until the root has an answer or so many are
/// expanded, and gives the root's answer.
fn find_answer(
    alloc: Global,
    asked: Asked<'_>,
    budget: u32,
    expanded: &mut IndexMap<Key, u32>,
    board: &mut Board<'_>,
    cache: &mut PairCache,
    table: &mut Table,
) -> Result<Option<Answered>, Memory>
    requires reads { IsReadFromStart asked.game.now asked.question board.old cache.old }
    requires few { budget * length (free_points asked.game.now (start asked.game.now))
        ≤ MAX_EXPANDED_MOVES }
    requires empty { (keys_of expanded.old.entries) ≡ [] }
    requires search { IsSearch asked.game.now asked.question [] [] table.old }
    ensures fits { Fits cache.new (lines_of asked.entry.game.now) }
    ensures listed { IsListed asked.entry.game.now asked.entry.question budget
        (keys_of expanded.new.entries) }
    ensures found { IfOk result (IsRootFound asked.entry.game.now asked.entry.question budget
        (keys_of expanded.new.entries) table.new) }
{
    let mut guide = Guide::new(alloc);
    for n in 0..budget {
        let answer = root_answer(table);
        if answer.is_some() {
            return Ok(answer);
        }
        step(alloc, asked, expanded, board, cache, table, &mut guide)?;
    }
    Ok(root_answer(table))
}

/// Whether X reaches the score from the game's position, at which the board stands, found by
/// expanding positions, which are kept in their order.
fn explore_on(
    alloc: Global,
    asked: Asked<'_>,
    budget: u32,
    expanded: &mut IndexMap<Key, u32>,
    board: &mut Board<'_>,
    cache: &mut PairCache,
) -> Result<Found, Memory>
    requires reads { IsReadAtStart asked.game.now asked.question board.old cache.old }
    requires few { budget * length (free_points asked.game.now (start asked.game.now))
        ≤ MAX_EXPANDED_MOVES }
    requires empty { (keys_of expanded.old.entries) ≡ [] }
    ensures fits { Fits cache.new (lines_of asked.entry.game.now) }
    ensures answer { IfOk result (λ found. IsAnswer asked.entry.game.now asked.entry.question budget
        (keys_of expanded.new.entries) found) }
    ensures listed { IsListed asked.entry.game.now asked.entry.question budget
        (keys_of expanded.new.entries) }
{
    let mut table = first_table(alloc, asked, board, cache)?;
    let found = find_answer(alloc, asked, budget, expanded, board, cache, &mut table)?;
    match found {
        Some(answered) => Ok(claim_of(alloc, asked, answered, table)?),
        None => Ok(Found::Unknown),
    }
}

/// Whether X reaches the score from the game's position, found by expanding positions, which are
/// kept in their order.
pub(crate) fn explore(
    alloc: Global,
    asked: Asked<'_>,
    budget: u32,
    expanded: &mut IndexMap<Key, u32>,
    cache: &mut PairCache,
) -> Result<Found, Memory>
    requires can { IsAskedOf asked.game.now asked.question }
    requires fits { Fits cache.old (lines_of asked.game.now) }
    requires few { budget * length (free_points asked.game.now (start asked.game.now))
        ≤ MAX_EXPANDED_MOVES }
    requires empty { (keys_of expanded.old.entries) ≡ [] }
    ensures fits { Fits cache.new (lines_of asked.entry.game.now) }
    ensures answer { IfOk result (λ found. IsAnswer asked.entry.game.now asked.entry.question budget
        (keys_of expanded.new.entries) found) }
    ensures listed { IsListed asked.entry.game.now asked.entry.question budget
        (keys_of expanded.new.entries) }
{
    let mut board = Board::open(alloc, asked.game, &asked.game.start())?;
    explore_on(alloc, asked, budget, expanded, &mut board, cache)
}

/// The table with the game's position alone, where the board stands.
fn first_table(
    alloc: Global,
    asked: Asked<'_>,
    board: &mut Board<'_>,
    cache: &mut PairCache,
) -> Result<Table, Memory>
    requires reads { IsReadAtStart asked.game.now asked.question board.old cache.old }
    ensures kept { IsKept asked.entry.game.now board.old board.new cache.new }
    ensures search { IfOk result
        (λ table. IsSearch asked.entry.game.now asked.entry.question [] [] table) }
{
    let mut table = Table::new(alloc);
    let root = asked.game.start();
    let found = leaf(alloc, asked.game, asked.question, &root, board, cache)?;
    let key = Key::of(&root);
    table.positions.meet(key)?;
    table.add(alloc, asked, key, found)?;
    Ok(table)
}

/// The root's answer.
fn root_answer(table: &Table) -> Option<Answered>
    requires { 0 < length table.now.answers.items }
    ensures some { IfSome result (λ a. slice_get table.now.answers.items 0 ≡ Some (Some a)) }
    ensures none { IfNone result (answer_at table.now.answers.items 0 ≡ None) }
{
    table.answers.as_slice()[0]
}

fn claimer(answer: bool) -> Side
    ensures { result ≡ claimer_of answer }
{
    if answer { Side::X } else { Side::Y }
}

fn claimed_goal(kind: Kind, question: Score, answer: bool) -> Goal
    ensures { result ≡ claimed_by kind question answer }
{
    match (kind, question, answer) {
        (Kind::MakerMaker, Score::XWins, false) => Goal::Draw,
        (Kind::MakerMaker, Score::Draw, true) => Goal::Draw,
        _ => Goal::Win,
    }
}
