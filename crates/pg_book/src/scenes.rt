//! What is to be seen on a page.
ghost use Rattle.std.specs.Prelude.{◌≡◌, ◌++◌, ◌∷◌, [], IfOk, OnOk};
ghost use Rattle.std.specs.List.{flat_map};
ghost use Rattle.pg_cert.specs.declared.cert.Claim.{Claim};
ghost use Rattle.pg_cert.specs.declared.node.Node.{Node};
ghost use Rattle.pg_draw.specs.Pictures.{picture_of};
ghost use Rattle.pg_draw.specs.Shapes.{courses_of};
ghost use Rattle.pg_scene.specs.Limits.{IsBoard};
ghost use Rattle.pg_scene.specs.declared.item.Item.TheVariants.{Point, Weight};
ghost use Rattle.pg_scene.specs.Scenes.{AreNamed};
ghost use Rattle.pg_book.specs.Scenes.{blank_items, blank_picture, kept, page_look, scene_by};
ghost use Rattle.pg_book.specs.Boards.{layout_of};
ghost use Rattle.pg_book.specs.Showing.{IsShownOf};

use pg_base::{Memory, PointSet, Side};
use pg_book_parts::{Layout, Page};
use pg_captions::{Legend, Look, Texts, text_of};
use pg_cert::Cert;
use pg_draw::draw;
use pg_game::{Game, Position};
use pg_layout::Chart;
use pg_picture::Picture;
use pg_places::{Courses, Plan};
use pg_scene::{
    Board, Item, Items, Scene, put_points, scene_of_game, scene_of_node, scenes_can_be_laid_out,
};
use std::alloc::Global;

/// What a node's page shows of the node.
#[derive(Debug, Drop)]
pub(crate) struct Shown {
    /// Its picture.
    pub picture: Picture,
    /// What its body names, a line each.
    pub legend: Texts,
}

/// What is shown of a node: no lines, which would hide what is under them, of the legend what the
/// body says, and the points at the places of a layout.
fn page_look(chart: Option<Chart>) -> Look
    ensures { result ≡ page_look chart }
{
    Look {
        numbers: true,
        lines: false,
        legend: Legend::OfBody,
        size: None,
        blank: None,
        layout: chart,
    }
}

/// How the edges of a board run.
fn courses_of(alloc: Global, board: &Board) -> Result<Courses, Memory>
    requires { IsBoard board.now }
    ensures { IfOk result (λ courses. courses ≡ courses_of board.now) }
{
    match board {
        Board::Graph {
            vertices,
            ends,
            bridge,
            ..
        } => {
            let plan = Plan {
                vertices: *vertices,
                bridge: *bridge,
            };
            Courses::of_edges(alloc, plan, ends.as_slice())
        }
        _ => Ok(Courses::none(alloc)),
    }
}

/// What moves of a game are named and placed by, with a layout if there is one.
pub(crate) fn layout_of(alloc: Global, chart: Option<Chart>, g: &Game) -> Result<Layout, Memory>
    ensures { IfOk result (λ layout. layout ≡ layout_of chart g.now) }
{
    scenes_can_be_laid_out();
    let Scene { board, .. } = scene_of_game(alloc, g, page_look(chart))?;
    let courses = courses_of(alloc, &board)?;
    Ok(Layout {
        kind: g.kind,
        chart,
        board,
        courses,
    })
}

/// The picture of a board on which these items are to be seen.
fn draw_items(alloc: Global, look: Look, board: Board, items: Items) -> Result<Picture, Memory>
    requires { IsBoard board }
    ensures { IfOk result (λ picture. picture ≡ picture_of look (scene_by board items)) }
{
    let scene = Scene {
        title: text_of(alloc, "")?,
        board,
        items,
        legend: Texts::from_vec(Vec::new(alloc)),
    };
    draw(alloc, &scene, look)
}

/// The points of a game without marks.
fn blank_items(alloc: Global, g: &Game) -> Result<Items, Memory>
    ensures { IfOk result (λ items. items ≡ blank_items g.now) }
{
    let blank = Position {
        x: PointSet::empty(),
        y: PointSet::empty(),
        turn: Side::X,
        left: 1,
    };
    let mut items = Vec::new(alloc);
    put_points(&mut items, g.points(), &blank)?;
    Ok(Items::from_vec(items))
}

/// The picture of a game's board without marks.
pub(crate) fn draw_board(alloc: Global, g: &Game, chart: Option<Chart>) -> Result<Picture, Memory>
    ensures { IfOk result (λ picture. picture ≡ blank_picture g.now chart) }
{
    scenes_can_be_laid_out();
    let look = page_look(chart);
    let Scene { board, .. } = scene_of_game(alloc, g, look)?;
    let items = blank_items(alloc, g)?;
    draw_items(alloc, look, board, items)
}

/// Adds an item.
fn put_item(items: &mut Vec<Item>, item: Item) -> Result<(), Memory>
    ensures { OnOk result (items.new.items ≡ items.old.items ++ item ∷ []) }
{
    items.push(item)?;
    Ok(())
}

/// Adds a weight.
fn put_weight(alloc: Global, items: &mut Vec<Item>, point: u16, weight: &str) -> Result<(), Memory>
    ensures { OnOk result
        (items.new.items ≡ items.old.items ++ Weight point weight.now ∷ []) }
{
    let weight = text_of(alloc, weight)?;
    put_item(items, Item::Weight { point, weight })
}

/// Adds a point if it has a mark.
fn put_mark(items: &mut Vec<Item>, point: u16, mark: Option<Side>) -> Result<(), Memory>
    ensures { OnOk result (items.new.items ≡ items.old.items ++ kept (Point point mark)) }
{
    match mark {
        Some(side) => put_item(
            items,
            Item::Point {
                point,
                mark: Some(side),
            },
        ),
        None => Ok(()),
    }
}

/// Adds an item if a page shows it.
fn put_kept(alloc: Global, items: &mut Vec<Item>, item: &Item) -> Result<(), Memory>
    ensures { OnOk result (items.new.items ≡ items.old.items ++ kept item.now) }
{
    match item {
        Item::Point { point, mark } => put_mark(items, *point, *mark),
        Item::Pair {
            first,
            second,
            number,
        } => put_item(
            items,
            Item::Pair {
                first: *first,
                second: *second,
                number: *number,
            },
        ),
        Item::Weight { point, weight } => put_weight(alloc, items, *point, weight.as_str()),
        Item::Step { point, number } => put_item(
            items,
            Item::Step {
                point: *point,
                number: *number,
            },
        ),
        Item::Member { point, set } => put_item(
            items,
            Item::Member {
                point: *point,
                set: *set,
            },
        ),
        Item::Extra { set } => put_item(items, Item::Extra { set: *set }),
        _ => Ok(()),
    }
}

/// The items that a page shows.
fn kept_items(alloc: Global, items: &[Item]) -> Result<Vec<Item>, Memory>
    ensures { IfOk result (λ found. found.items ≡ flat_map kept items.now) }
{
    let mut found = Vec::new(alloc);
    for item in items {
        put_kept(alloc, &mut found, item)?;
    }
    Ok(found)
}

/// What a page shows of a node.
fn show(alloc: Global, look: Look, scene: Scene) -> Result<Shown, Memory>
    requires { IsBoard scene.board }
    ensures { IfOk result (λ shown.
        (shown.picture ≡ picture_of look (scene_by scene.board (flat_map kept scene.items)))
        × (shown.legend ≡ scene.legend)) }
{
    let Scene {
        board,
        items,
        legend,
        ..
    } = scene;
    let seen = Items::from_vec(kept_items(alloc, items.as_slice())?);
    let picture = draw_items(alloc, look, board, seen)?;
    Ok(Shown { picture, legend })
}

/// What a page shows of the node of that number of the certificate's claim. None comes only if the
/// certificate has no such node.
pub(crate) fn show_node(
    alloc: Global,
    g: &Game,
    chart: Option<Chart>,
    cert: &Cert,
    page: Page,
    node: u32,
) -> Result<Option<Shown>, Memory>
    ensures { IfOk result (λ found. (claim : Claim) → (part : Node)
        → AreNamed cert.now page.chapter.claim node claim part
        → IsShownOf g.now chart claim.side part found) }
{
    scenes_can_be_laid_out();
    let look = page_look(chart);
    match scene_of_node(alloc, g, cert, page.chapter.claim, node, None, look)? {
        Some(scene) => Ok(Some(show(alloc, look, scene)?)),
        None => Ok(None),
    }
}
