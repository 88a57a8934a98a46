//! Whether the parts of a game fit together and are within the limits.
ghost use Rattle.std.specs.Prelude.{◌≡◌, ◌*◌, ◌^◌, ◌<◌, ◌↔◌, IsTrue, false, true, length, Some};
ghost use Rattle.pg_game.specs.Prelude.{All, sum_by, Grid, Graph};
ghost use Rattle.pg_game.specs.Field.{field_points};
ghost use Rattle.pg_game.specs.declared.field.Field.TheVariants.{Graph as OnGraph};
ghost use Rattle.pg_game.specs.Fit.{IsFit, FieldFits, IsLineOf, AreLinesOf, IsBoard, longest};
ghost use Rattle.pg_game.specs.Fit.{greatest_bias};

use crate::bounds::{
    MAX_BIAS, MAX_BIASED_LINE_POINTS, MAX_LINE_POINTS, MAX_LINES, MAX_POINTS, MAX_SUMMED_POINTS,
    MAX_VERTICES,
};
use crate::field::{Field, LineField};
use pg_base::{Grid, Kind, Line, MAX_EDGES, PointSet};
use pg_graph::Graph;

/// How long a line may be.
fn longest(bias: u8) -> usize
    ensures { result ≡ longest bias }
{
    if bias == 1 {
        MAX_LINE_POINTS
    } else {
        MAX_BIASED_LINE_POINTS
    }
}

/// Whether each point of the line is below the limit.
fn line_below(line: &Line, limit: u16) -> bool
    ensures { IsTrue result ↔ All (λ v. v < limit) line.now }
{
    line.as_slice().iter().all(|v| *v < limit)
}

/// Whether the line has points of the game alone, at least one and not too many.
fn is_line(line: &Line, points: u16, bias: u8) -> bool
    ensures { IsTrue result ↔ IsLineOf points bias line.now }
{
    let len = line.len();
    if len == 0 || len > longest(bias) {
        return false;
    }
    line_below(line, points)
}

/// Whether each line has points of the game alone, at least one and not too many.
fn are_lines(lines: &[Line], points: u16, bias: u8) -> bool
    ensures { IsTrue result ↔ All (IsLineOf points bias) lines.now }
{
    lines.iter().all(|line| is_line(line, points, bias))
}

/// How many points the lines have together, each counted as often as it stands.
fn summed(lines: &[Line]) -> usize
    requires { sum_by length lines.now < 2 ^ 64 }
    ensures { result ≡ sum_by length lines.now }
{
    lines.iter().map(|line| line.len()).sum()
}

/// Whether the board, where there is one, has so many cells.
fn has_cells(grid: Option<Grid>, points: u16) -> bool
    ensures { IsTrue result ↔ ((g : Grid) → grid ≡ Some g → g.width * g.height ≡ points) }
{
    match grid {
        Some(grid) => u32::from(grid.width) * u32::from(grid.height) == u32::from(points),
        None => true,
    }
}

/// Whether the field is within the limits.
fn is_line_field(field: &LineField, bias: u8) -> bool
    ensures { IsTrue result ↔ AreLinesOf bias field.now }
{
    let lines = field.lines.as_slice();
    if field.points == 0 || usize::from(field.points) > MAX_POINTS {
        return false;
    }
    if !has_cells(field.grid, field.points) {
        return false;
    }
    if lines.len() > MAX_LINES || !are_lines(lines, field.points, bias) {
        return false;
    }
    summed(lines) <= MAX_SUMMED_POINTS
}

/// Whether both ends of each edge are below the limit.
fn are_ends(ends: &[(u16, u16)], vertices: u16) -> bool
    ensures { IsTrue result ↔ All (λ e. (e.0 < vertices) × (e.1 < vertices)) ends.now }
{
    ends.iter().all(|(a, b)| *a < vertices && *b < vertices)
}

/// Whether the graph is within the limits and its terminals are two of its vertices.
fn is_board(graph: &Graph) -> bool
    ensures { IsTrue result ↔ IsBoard graph.now }
{
    let vertices = graph.vertices;
    let ends = graph.ends.as_slice();
    if vertices < 2 || vertices > MAX_VERTICES || ends.len() > usize::from(MAX_EDGES) {
        return false;
    }
    if graph.s >= vertices || graph.t >= vertices || graph.s == graph.t {
        return false;
    }
    are_ends(ends, vertices)
}

/// How many points Y may claim a turn in a game of the kind.
fn greatest_bias(kind: Kind) -> u8
    ensures { result ≡ greatest_bias kind }
{
    match kind {
        Kind::MakerBreaker | Kind::AvoiderEnforcer => MAX_BIAS,
        Kind::MakerMaker | Kind::Switching => 1,
    }
}

/// Whether a game of the kind is played on such a field, and this one is within the limits.
fn field_fits(kind: Kind, field: &Field, bias: u8) -> bool
    ensures { IsTrue result ↔ FieldFits kind field.now bias }
{
    match field {
        Field::Lines(field) => kind != Kind::Switching && is_line_field(field, bias),
        Field::Graph(graph) => kind == Kind::Switching && is_board(graph),
    }
}

/// The number of points of a field, where it is within the limits.
fn points_of(field: &Field) -> u16
    requires { (h : Graph) → field.now ≡ OnGraph h → IsBoard h }
    ensures { result ≡ field_points field.now }
{
    match field {
        Field::Lines(field) => field.points,
        Field::Graph(graph) => graph.ends.as_slice().len() as u16,
    }
}

/// Whether the parts fit together and are within the limits.
pub(crate) fn is_fit(kind: Kind, field: &Field, x: &PointSet, y: &PointSet, bias: u8) -> bool
    ensures { IsTrue result ↔ IsFit kind field.now x.now y.now bias }
{
    if bias == 0 || bias > greatest_bias(kind) {
        return false;
    }
    if !field_fits(kind, field, bias) {
        return false;
    }
    let points = points_of(field);
    if !x.is_below(points) || !y.is_below(points) {
        return false;
    }
    x.shares_none(y)
}
