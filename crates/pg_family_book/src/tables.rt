//! Tables and pictures in pages.
ghost use Rattle.std.specs.Prelude.{◌≡◌, ◌++◌, OnOk};
ghost use Rattle.std.specs.List.{flat_map};
ghost use Rattle.pg_page.specs.declared.tag.Tag.TheVariants.{Td};
ghost use Rattle.pg_family_book.specs.Leaves.{cell_pieces, drawn_pieces, picture_pieces};
ghost use Rattle.pg_family_book.specs.Leaves.{row_pieces};
ghost use Rattle.pg_family_book.specs.Leaves.{table_pieces};

use crate::leaf::Table;
use pg_base::Memory;
use pg_book_parts::{push_plain, push_shapes, view_of};
use pg_captions::{Text, Texts};
use pg_page::{Attributes, Name, Piece, Tag, push_close, push_open};
use pg_picture::Picture;
use std::alloc::Global;

/// What a reader of the screen says of a picture.
pub(crate) const DRAWN: &str = "The board. The table below says the same.";

/// Adds cells of a row.
fn push_cells(
    alloc: Global,
    pieces: &mut Vec<Piece>,
    tag: Tag,
    cells: &[Text],
) -> Result<(), Memory>
    ensures { OnOk result
        (pieces.new.items ≡ pieces.old.items ++ flat_map (cell_pieces tag) cells.now) }
{
    for cell in cells {
        push_plain(alloc, pieces, tag, cell.as_str())?;
    }
    Ok(())
}

/// Adds a row.
fn push_row(alloc: Global, pieces: &mut Vec<Piece>, tag: Tag, cells: &Texts) -> Result<(), Memory>
    ensures { OnOk result (pieces.new.items ≡ pieces.old.items ++ row_pieces tag cells.now) }
{
    push_open(alloc, pieces, Tag::Tr)?;
    push_cells(alloc, pieces, tag, cells.as_slice())?;
    push_close(pieces, Tag::Tr)
}

/// Adds rows.
fn push_rows(alloc: Global, pieces: &mut Vec<Piece>, rows: &[Texts]) -> Result<(), Memory>
    ensures { OnOk result
        (pieces.new.items ≡ pieces.old.items ++ flat_map (row_pieces Td) rows.now) }
{
    for row in rows {
        push_row(alloc, pieces, Tag::Td, row)?;
    }
    Ok(())
}

/// Adds a table.
pub(crate) fn push_table(
    alloc: Global,
    pieces: &mut Vec<Piece>,
    table: &Table,
) -> Result<(), Memory>
    ensures { OnOk result (pieces.new.items ≡ pieces.old.items ++ table_pieces table.now) }
{
    push_open(alloc, pieces, Tag::Table)?;
    push_row(alloc, pieces, Tag::Th, &table.heads)?;
    push_rows(alloc, pieces, table.rows.as_slice())?;
    push_close(pieces, Tag::Table)
}

/// Adds a picture.
fn push_drawn(alloc: Global, pieces: &mut Vec<Piece>, picture: &Picture) -> Result<(), Memory>
    ensures { OnOk result (pieces.new.items ≡ pieces.old.items ++ drawn_pieces picture.now) }
{
    let view = view_of(alloc, picture)?;
    let attributes = Attributes::none(alloc)
        .text(Name::ViewBox, view)?
        .words(alloc, Name::Role, "img")?
        .words(alloc, Name::AriaLabel, DRAWN)?;
    let tag = Tag::Svg;
    pieces.push(Piece::Open { tag, attributes })?;
    push_shapes(alloc, pieces, picture.shapes.as_slice())?;
    push_close(pieces, Tag::Svg)
}

/// Adds a picture, if there is one.
pub(crate) fn push_picture(
    alloc: Global,
    pieces: &mut Vec<Piece>,
    picture: &Option<Picture>,
) -> Result<(), Memory>
    ensures { OnOk result (pieces.new.items ≡ pieces.old.items ++ picture_pieces picture.now) }
{
    match picture {
        Some(drawn) => push_drawn(alloc, pieces, drawn),
        None => Ok(()),
    }
}
