//! Certificate files with images. A row tells a file with `;` for each line feed and `_` for a
//! space at the end of a line.
use pg_base::{Memory, PointSet};
use pg_image::{CertFault, ImageNode, print_image, read_image};
use pg_maps::GridMap;
use pg_plain::{part, set, side, word};
use std::alloc::Global;

/// The lines before the node of a claim that has one.
const ONE_NODE: &str = "posgame-cert 3;claim x y win;nodes 1;";

/// A certificate of eight claims.
const EIGHT_CLAIMS: &str = "posgame-cert 3;\
claim x y win;nodes 1;||x|image 0 0;\
claim x y win;nodes 1;||x|image 0 0;\
claim x y win;nodes 1;||x|image 0 0;\
claim x y win;nodes 1;||x|image 0 0;\
claim x y win;nodes 1;||x|image 0 0;\
claim x y win;nodes 1;||x|image 0 0;\
claim x y win;nodes 1;||x|image 0 0;\
claim x y win;nodes 1;||x|image 0 0;";

/// The bytes of the text after the head.
fn bytes_of(alloc: Global, head: &str, text: &str) -> Result<Vec<u8>, Memory> {
    let whole = format!(in alloc; "{head}{text}")?;
    let mut bytes = whole.as_bytes().to_vec(alloc)?;
    for b in bytes.iter_mut() {
        if *b == b';' {
            *b = b'\n';
        } else if *b == b'_' {
            *b = b' ';
        }
    }
    Ok(bytes)
}

/// The fault of the text with its line, as in `C3 2`, or `a certificate`.
fn answer(alloc: Global, text: &[u8]) -> Result<String, Memory> {
    match read_image(alloc, text) {
        Err(CertFault::Bad { number, line }) => Ok(format!(in alloc; "C{number} {line}")?),
        Err(CertFault::Memory) => Err(Memory),
        Ok(_) => Ok(String::from_str(alloc, "a certificate")?),
    }
}

/// Whether the text of the row, after this head, has the row's fault. A row is the fault, then
/// `=`, then the text.
fn has_fault(alloc: Global, head: &str, row: &str) -> Option<bool> {
    let (fault, text) = row.split_once('=')?;
    let whole = bytes_of(alloc, head, text).ok()?;
    Some(answer(alloc, &whole).ok()?.as_str() == fault)
}

/// Whether the text is read, and printed as it was.
fn prints_back(alloc: Global, text: &[u8]) -> Result<bool, Memory> {
    match read_image(alloc, text) {
        Ok(cert) => Ok(print_image(alloc, &cert)?.as_slice() == text),
        Err(_) => Ok(false),
    }
}

/// Whether the file of the row, after its first line, is printed as it is read.
fn is_printed_back(alloc: Global, row: &str) -> Option<bool> {
    let text = bytes_of(alloc, "posgame-cert 3;", row).ok()?;
    prints_back(alloc, &text).ok()
}

/// Whether the points of a node are the row's.
fn has_points(alloc: Global, row: &str, x: &PointSet, y: &PointSet) -> Option<bool> {
    Some(*x == set(alloc, part(row, 1))? && *y == set(alloc, part(row, 2))?)
}

/// Whether the node is an image with the row's numbers, each in its place.
fn is_image(alloc: Global, row: &str, node: &ImageNode) -> Option<bool> {
    match node {
        ImageNode::Image {
            x,
            y,
            turn,
            left,
            map,
            child,
        } => {
            let (told, turned) = (part(row, 3), part(row, 4));
            let wanted = GridMap {
                exchange: word(turned, 0) == "yes",
                rows: word(turned, 1) == "yes",
                columns: word(turned, 2) == "yes",
            };
            let place = node.position();
            let points = has_points(alloc, row, x, y)?
                && has_points(alloc, row, &place.x, &place.y)?;
            let turn = *turn == side(word(told, 0)) && word(told, 1).parse::<u8>() == Ok(*left);
            let child = word(told, 2).parse::<u32>() == Ok(*child);
            Some(points && turn && *map == wanted && child)
        }
        ImageNode::Plain(_) => Some(false),
    }
}

/// Whether an image is read with each of its numbers in its place.
fn has_numbers(alloc: Global, row: &str) -> Option<bool> {
    let text = bytes_of(alloc, ONE_NODE, part(row, 0)).ok()?;
    let Ok(cert) = read_image(alloc, &text) else {
        return None;
    };
    let [claim] = cert.claims.as_slice() else {
        return None;
    };
    let [node] = claim.nodes.as_slice() else {
        return None;
    };
    is_image(alloc, row, node)
}

/// Whether the row is as it tells, of the question that the word names; None where it names none,
/// the row can't be read, or no memory is found.
pub(crate) fn is_so(alloc: Global, question: &str, row: &str) -> Option<bool> {
    match question {
        // the faults of whole files.
        "files" => has_fault(alloc, "", row),
        // the faults of a node.
        "nodes" => has_fault(alloc, ONE_NODE, row),
        // the faults of what stands after eight claims.
        "ninth-claims" => has_fault(alloc, EIGHT_CLAIMS, row),
        // files that are printed as they are read.
        "printed" => is_printed_back(alloc, row),
        // the numbers of an image.
        "numbers" => has_numbers(alloc, row),
        _ => None,
    }
}
