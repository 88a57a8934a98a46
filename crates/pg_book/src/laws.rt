//! Laws of books. Each function is empty: what it promises is a law of the definitions alone.
ghost use Rattle.std.specs.Prelude.{◌≡◌, ◌≤◌, ℕ, true, Option, Some, slice_get};
ghost use Rattle.std.specs.List.{All, Contains, flat_map};
ghost use Rattle.pg_cert.specs.declared.cert.Cert.{Cert};
ghost use Rattle.pg_cert.specs.declared.cert.Claim.{Claim};
ghost use Rattle.pg_cert.specs.declared.node.Node.{Node};
ghost use Rattle.pg_game.specs.declared.game.Game.{Game};
ghost use Rattle.pg_layout.specs.declared.chart.Chart.{Chart};
ghost use Rattle.pg_page.specs.Events.{IsWhole};
ghost use Rattle.pg_book.specs.Books.{book_pieces};
ghost use Rattle.pg_book.specs.Depths.{is_within, ordered, share_of};
ghost use Rattle.pg_book_parts.specs.Chapters.{page_id};
ghost use Rattle.pg_book.specs.Laws.{IsPaged, book_ids, chapter_ids, page_in, pages_in};
ghost use Rattle.pg_book_parts.specs.Reading.{section_ids, targets};

/// The pieces of a book are whole: so in its text each tag that is opened is closed, the last
/// opened first.
pub fn books_are_whole()
    ensures { (chart : Option Chart) → (g : Game) → (c : Cert) → (depth : Option ℕ)
        → IsWhole (book_pieces chart g c depth) }
{}

/// The sections of a book are those of its claims' pages, one for each in order, and the legend.
pub fn nodes_have_sections()
    ensures { (chart : Option Chart) → (g : Game) → (c : Cert) → (depth : Option ℕ)
        → flat_map section_ids (book_pieces chart g c depth)
        ≡ book_ids g depth (ordered g depth c).claims }
{}

/// Each node within the depth that the book has room for has a page of its claim.
pub fn nodes_have_pages()
    ensures { (g : Game) → (depth : Option ℕ) → (claims : ℕ) → (i : ℕ) → (claim : Claim)
        → (k : ℕ) → (node : Node)
        → slice_get claim.nodes k ≡ Some node
        → is_within g depth node ≡ true
        → page_in g depth claim k ≤ share_of claims
        → Contains (chapter_ids (pages_in g depth claims i claim))
        (page_id (pages_in g depth claims i claim) (page_in g depth claim k)) }
{}

/// A book shows a node exactly if it is within the depth and the book has room for it. Its page is
/// one more than there are such nodes after it, so the pages that are shown are numbered from 1 on
/// without gaps; and there it names the same children.
pub fn first_moves_are_shown()
    ensures { (g : Game) → (depth : Option ℕ) → (claims : ℕ) → (i : ℕ) → (claim : Claim)
        → (k : ℕ) → (node : Node)
        → slice_get claim.nodes k ≡ Some node
        → IsPaged g depth claims i claim k node }
{}

/// Each link of a book leads to one of its sections.
pub fn links_lead_to_sections()
    ensures { (chart : Option Chart) → (g : Game) → (c : Cert) → (depth : Option ℕ)
        → All (Contains (flat_map section_ids (book_pieces chart g c depth)))
        (flat_map targets (book_pieces chart g c depth)) }
{}
