//! The lines of tables, each of which stands for several runs.
use crate::faults::{is_fault_so, is_form_so};
use crate::nodes::is_node_so;
use crate::pairs::is_pair_so;
use crate::pieces::are_pieces_so;
use crate::sizes::is_size_so;
use crate::values::is_value_so;
use pg_plain::{Named, cut};
use std::alloc::{AllocError, Global};
use std::io;

/// Whether the line is as it tells; None where it is none of a table.
fn is_so(
    alloc: Global,
    texts: &[Named],
    script: &str,
    line: &str,
) -> Result<Option<bool>, AllocError> {
    let (word, told) = cut(line);
    Ok(match word {
        "form" => Some(is_form_so(alloc, texts, told, false)?),
        "span-form" => Some(is_form_so(alloc, texts, told, true)?),
        "fault" => Some(is_fault_so(alloc, texts, told)?),
        "node" => Some(is_node_so(alloc, texts, script, told)?),
        "value" => Some(is_value_so(alloc, told)?),
        "pair" => Some(is_pair_so(alloc, told)?),
        "pieces" => Some(are_pieces_so(alloc, told)?),
        "size" => Some(is_size_so(alloc, told)?),
        _ => None,
    })
}

/// Says which lines of the script's tables aren't as they tell, and how many are.
pub(crate) fn answer(rt: &HostRuntime, texts: &[Named], script: &str) -> io::Result<()> {
    let mut count = 0u32;
    for line in script.lines() {
        match is_so(rt.alloc(), texts, script, line)? {
            Some(true) => count = count.saturating_add(1),
            Some(false) => println!(rt; "differs {line}")?,
            None => {}
        }
    }
    println!(rt; "ok {count} lines of tables")
}
