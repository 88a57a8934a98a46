//! Laws of the texts of pages. Each function is empty: what it promises is a law of the definitions
//! alone.
ghost use Rattle.std.specs.Prelude.{◌≡◌, true, List, [], Some, codes};
ghost use Rattle.std.specs.List.{list_all};
ghost use Rattle.pg_page.specs.Events.{IsWhole, events_of, is_inert, open_after};
ghost use Rattle.pg_page.specs.Html.{page_text};
ghost use Rattle.pg_page.specs.Reader.{IsReadAs, read};
ghost use Rattle.pg_page.specs.Reader.Scan.{Faulty};
ghost use Rattle.pg_page.specs.declared.piece.Piece.{Piece};

/// What a reader sees in the text of a page are the tags, attributes and words of its pieces.
pub fn reads_back()
    ensures { (p : List Piece) → IsReadAs (page_text p) (events_of p) }
{}

/// A reader of a page sees no script and nothing that is fetched, no attribute that begins with
/// `on`, and no link that leads out of the page.
pub fn pages_are_inert()
    ensures { (p : List Piece) → list_all is_inert (events_of p) ≡ true }
{}

/// In a page whose pieces are whole each tag that is opened is closed, the last opened first.
pub fn tags_close_in_order()
    ensures { (p : List Piece) → IsWhole p → open_after (events_of p) [] ≡ Some [] }
{}

/// The reader refuses a `<` that begins no tag, an attribute without quotation marks, a value with
/// a `<`, and a name of a sign that it doesn't know.
pub fn reader_refuses()
    ensures bare { read (codes "<a>1 < 2</a>") ≡ Faulty }
    ensures unquoted { read (codes "<a class=b>") ≡ Faulty }
    ensures in_value { read (codes "<a class=\"<\">") ≡ Faulty }
    ensures unknown { read (codes "&nbsp;") ≡ Faulty }
{}
