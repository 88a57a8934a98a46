//! Laws of books of claims. Each function is empty: what it promises is a law of the definitions
//! alone.
ghost use Rattle.std.specs.Prelude.{◌≡◌, List};
ghost use Rattle.std.specs.List.{All, Contains, flat_map};
ghost use Rattle.pg_base.specs.Texts.{Bytes};
ghost use Rattle.pg_book_parts.specs.Reading.{section_ids, targets};
ghost use Rattle.pg_page.specs.Events.{IsWhole};
ghost use Rattle.pg_family_book.specs.Leaves.{leaves_ids, leaves_page};
ghost use Rattle.pg_family_book.specs.declared.leaf.Leaf.{Leaf};

/// The pieces of a book are whole: so in its text each tag that is opened is closed, the last
/// opened first.
pub fn family_books_are_whole()
    ensures { (legend : Bytes) → (leaves : List Leaf) → IsWhole (leaves_page legend leaves) }
{}

/// The sections of a book are those of its claims, one for each in order, and the legend.
pub fn leaves_have_sections()
    ensures { (legend : Bytes) → (leaves : List Leaf)
        → flat_map section_ids (leaves_page legend leaves) ≡ leaves_ids leaves }
{}

/// Each link of a book leads to one of its sections.
pub fn family_links_lead_to_sections()
    ensures { (legend : Bytes) → (leaves : List Leaf)
        → All (Contains (flat_map section_ids (leaves_page legend leaves)))
        (flat_map targets (leaves_page legend leaves)) }
{}
