//! Books of games on vectors.
ghost use Rattle.std.specs.Prelude.{◌≡◌, ◌<◌, ◌≤◌, ◌++◌, IfOk, OnOk, length};
ghost use Rattle.std.specs.Prelude.{slice_get, string_bytes};
ghost use Rattle.pg_base.specs.declared.limits.TheConstants.{MAX_MEMBERS};
ghost use Rattle.pg_cert.specs.declared.limits.TheConstants.{MAX_CLAIMS};
ghost use Rattle.pg_family_book.specs.Vectors.{claim_leaves, extra_words, rule_words, target_words};
ghost use Rattle.pg_family_book.specs.Vectors.{vector_book_text, vector_by, vector_heads};
ghost use Rattle.pg_family_book.specs.Vectors.{vector_leaf, vector_leaves, vector_role, vector_row};
ghost use Rattle.pg_family_book.specs.Vectors.{vector_row_by, vector_rows, vector_table};
ghost use Rattle.pg_family_book.specs.Vectors.{vector_words};

use crate::leaf::{Leaf, Rows, Table};
use crate::printing::print_leaves;
use crate::rules::{put_number, put_text, said_words, set_words, whose};
use pg_base::{Kind, Memory};
use pg_captions::{Text, Texts, signs_text, vector_count};
use pg_cert::{Body, Cert, Claim};
use pg_gf2::VecGame;
use std::alloc::Global;

/// What words mean in books of games on vectors.
pub const LEGEND_VECTORS: &str = "Vectors are added entry by entry, and 1 and 1 make 0. Short \
    wants some of its vectors to add up to the target, and Cut wants to prevent that. The last \
    column says which of the two sets of the proof a vector is in.";

/// What is said of trees.
pub(crate) const REACHING: &str = "Short has two sets of vectors. Of each of them, some add up to \
    the target, together with some of Short's. If Cut claims a vector of one set, Short claims \
    one of the other, so that this holds again; else any free vector.";

/// What is said of cuts.
pub(crate) const BARRING: &str = "Cut has two sets of vectors. Without either of them no vectors \
    add up to the target. If Short claims a vector of one set, Cut claims one of the other, so \
    that this holds again; else any free vector.";

/// What is said of a further member of the first set.
pub(crate) const EXTRA: &str = "The first set also has the target itself: its side moves first, \
    as if the other side had just claimed it.";

/// Which of the two sets a vector is in.
fn vector_role(body: &Body, vector: u16) -> &'static str
    requires { vector < MAX_MEMBERS }
    ensures { result.now ≡ vector_role body.now vector }
{
    match body {
        Body::Trees { first, second, .. } => set_words(first.as_set(), second.as_set(), vector),
        Body::Cuts { first, second, .. } => set_words(first.as_set(), second.as_set(), vector),
        _ => "",
    }
}

/// The row of a vector.
fn vector_row(
    alloc: Global,
    g: &VecGame,
    body: &Body,
    number: u16,
    vector: u128,
) -> Result<Texts, Memory>
    requires { number < MAX_MEMBERS }
    ensures { IfOk result (λ row. row ≡ vector_row g.now body.now number vector) }
{
    let mut cells = Vec::new(alloc);
    put_number(alloc, &mut cells, number)?;
    cells.push(signs_text(alloc, g.rows, vector)?)?;
    put_text(
        alloc,
        &mut cells,
        whose(Kind::Switching, &g.x, &g.y, number),
    )?;
    put_text(alloc, &mut cells, vector_role(body, number))?;
    Ok(Texts::from_vec(cells))
}

/// Adds the row of a vector, if there is one.
fn put_row_by(
    alloc: Global,
    rows: &mut Vec<Texts>,
    g: &VecGame,
    body: &Body,
    number: u16,
    vector: Option<u128>,
) -> Result<(), Memory>
    requires { number < MAX_MEMBERS }
    ensures { OnOk result
        (rows.new.items ≡ rows.old.items ++ vector_row_by g.now body.now number vector) }
{
    if let Some(vector) = vector {
        rows.push(vector_row(alloc, g, body, number, vector)?)?;
    }
    Ok(())
}

/// The vector of that number, if there is one.
fn vector_at(vectors: &[u128], number: u16) -> Option<u128>
    ensures { result ≡ slice_get vectors.now number }
{
    vectors.get(usize::from(number)).copied()
}

/// The rows of all vectors.
fn vector_rows(alloc: Global, g: &VecGame, body: &Body) -> Result<Vec<Texts>, Memory>
    ensures { IfOk result (λ rows. rows.items ≡ vector_rows g.now body.now) }
{
    let mut rows = Vec::new(alloc);
    let vectors = g.vectors.as_slice();
    for number in 0..vector_count(g) {
        put_row_by(
            alloc,
            &mut rows,
            g,
            body,
            number,
            vector_at(vectors, number),
        )?;
    }
    Ok(rows)
}

/// The headings of the columns.
fn vector_heads(alloc: Global) -> Result<Texts, Memory>
    ensures { IfOk result (λ heads. heads ≡ vector_heads) }
{
    let mut heads = Vec::new(alloc);
    put_text(alloc, &mut heads, "Vector")?;
    put_text(alloc, &mut heads, "Entries")?;
    put_text(alloc, &mut heads, "Whose")?;
    put_text(alloc, &mut heads, "Set")?;
    Ok(Texts::from_vec(heads))
}

/// The table of a claim.
fn vector_table(alloc: Global, g: &VecGame, body: &Body) -> Result<Table, Memory>
    ensures { IfOk result (λ table. table ≡ vector_table g.now body.now) }
{
    let heads = vector_heads(alloc)?;
    let rows = Rows::from_vec(vector_rows(alloc, g, body)?);
    Ok(Table { heads, rows })
}

/// What the target is.
fn target_words(alloc: Global, g: &VecGame) -> Result<Text, Memory>
    ensures { IfOk result (λ text. text ≡ target_words g.now) }
{
    let signs = signs_text(alloc, g.rows, g.target)?;
    let mut words = String::new(alloc);
    words.push_str("The target is ")?;
    words.push_str(signs.as_str())?;
    words.push_str(".")?;
    Ok(Text::from_string(words))
}

/// Adds that the first set has a further member, if it has.
fn put_extra(alloc: Global, texts: &mut Vec<Text>, with_e: bool) -> Result<(), Memory>
    ensures { OnOk result (texts.new.items ≡ texts.old.items ++ extra_words with_e) }
{
    if with_e {
        put_text(alloc, texts, EXTRA)?;
    }
    Ok(())
}

/// Adds the rule of a claim.
fn put_rule(alloc: Global, texts: &mut Vec<Text>, body: &Body) -> Result<(), Memory>
    ensures { OnOk result (texts.new.items ≡ texts.old.items ++ rule_words body.now) }
{
    match body {
        Body::Trees { with_e, .. } => {
            put_text(alloc, texts, REACHING)?;
            put_extra(alloc, texts, *with_e)
        }
        Body::Cuts { with_e, .. } => {
            put_text(alloc, texts, BARRING)?;
            put_extra(alloc, texts, *with_e)
        }
        _ => Ok(()),
    }
}

/// The target and the rule of a claim.
fn vector_words(alloc: Global, g: &VecGame, body: &Body) -> Result<Texts, Memory>
    ensures { IfOk result (λ words. words ≡ vector_words g.now body.now) }
{
    let mut texts = Vec::new(alloc);
    texts.push(target_words(alloc, g)?)?;
    put_rule(alloc, &mut texts, body)?;
    Ok(Texts::from_vec(texts))
}

/// The page of a claim with this body.
fn vector_leaf(
    alloc: Global,
    g: &VecGame,
    claim: &Claim,
    number: u32,
    body: &Body,
) -> Result<Leaf, Memory>
    ensures { IfOk result (λ leaf. leaf ≡ vector_leaf g.now claim.now number body.now) }
{
    let said = said_words(alloc, Kind::Switching, claim.side, claim.turn)?;
    let words = vector_words(alloc, g, body)?;
    let table = vector_table(alloc, g, body)?;
    let picture = None;
    Ok(Leaf {
        number,
        said,
        picture,
        words,
        table,
    })
}

/// Adds the page of a claim, if it has a node.
fn put_claim(
    alloc: Global,
    leaves: &mut Vec<Leaf>,
    g: &VecGame,
    claim: &Claim,
    number: u32,
) -> Result<(), Memory>
    ensures { OnOk result
        (leaves.new.items ≡ leaves.old.items ++ claim_leaves g.now number claim.now) }
{
    if let Some(node) = claim.nodes.as_slice().get(0) {
        leaves.push(vector_leaf(alloc, g, claim, number, &node.body)?)?;
    }
    Ok(())
}

/// Adds the page of the claim of that number, if there is one.
fn put_leaf(
    alloc: Global,
    leaves: &mut Vec<Leaf>,
    g: &VecGame,
    claims: &[Claim],
    number: u32,
) -> Result<(), Memory>
    ensures { OnOk result
        (leaves.new.items
        ≡ leaves.old.items ++ vector_by g.now number (slice_get claims.now number)) }
{
    match claims.get(number as usize) {
        Some(claim) => put_claim(alloc, leaves, g, claim, number),
        None => Ok(()),
    }
}

/// The pages of all claims.
fn vector_leaves(alloc: Global, g: &VecGame, claims: &[Claim]) -> Result<Vec<Leaf>, Memory>
    requires { length claims.now ≤ MAX_CLAIMS }
    ensures { IfOk result (λ leaves. leaves.items ≡ vector_leaves g.now claims.now) }
{
    let mut leaves = Vec::new(alloc);
    let count = claims.len() as u32;
    for number in 0..count {
        put_leaf(alloc, &mut leaves, g, claims, number)?;
    }
    Ok(leaves)
}

/// Returns the text of a book of a certificate of a game on vectors, in HTML: a section for each
/// claim, with its rule, and a table of the vectors.
///
/// # Errors
///
/// `Memory` if no memory is found.
pub fn print_vector_book(alloc: Global, game: &VecGame, cert: &Cert) -> Result<String, Memory>
    requires { length cert.now.claims ≤ MAX_CLAIMS }
    ensures { IfOk result (λ text. string_bytes text ≡ vector_book_text game.now cert.now) }
{
    let leaves = vector_leaves(alloc, game, cert.claims.as_slice())?;
    print_leaves(alloc, LEGEND_VECTORS, leaves.as_slice())
}
