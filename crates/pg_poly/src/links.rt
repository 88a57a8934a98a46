//! Whether cells are linked by steps.
ghost use Rattle.std.specs.Prelude.{◌≡◌, ◌↔◌, ◌<◌, ℕ, IsTrue, IfOk, length, slice_index};
ghost use Rattle.pg_poly.specs.Links.{IsConnected, merged};
ghost use Rattle.std.specs.List.{range_with_len};

use crate::cell::Cell;
use pg_base::Memory;
use std::alloc::Global;

/// Each label that is the first becomes the second.
fn merge(labels: &mut [usize], from: usize, to: usize)
    ensures { (k : ℕ) → k < length labels.old
        → slice_index labels.new k ≡ merged from to (slice_index labels.old k) }
{
    if from == to {
        return;
    }
    for label in labels.iter_mut() {
        if *label == from {
            *label = to;
        }
    }
}

/// A label of its own for each place.
fn own_labels(alloc: Global, n: usize) -> Result<Vec<usize>, Memory>
    ensures { IfOk result (λ labels. labels.items ≡ range_with_len 0 n) }
{
    let mut labels = Vec::new(alloc);
    for i in 0..n {
        labels.push(i)?;
    }
    Ok(labels)
}

/// Whether all labels are the first one.
fn are_equal(labels: &[usize]) -> bool
    ensures { IsTrue result
        ↔ ((k : ℕ) → k < length labels.now → slice_index labels.now k ≡ slice_index labels.now 0) }
{
    for label in labels {
        if *label != labels[0] {
            return false;
        }
    }
    true
}

/// Whether any two cells are linked by steps between cells that share a side.
///
/// # Errors
///
/// `Memory` where no memory is found.
pub fn is_connected(alloc: Global, cells: &[Cell]) -> Result<bool, Memory>
    ensures { IfOk result (λ connected. IsTrue connected ↔ IsConnected cells.now) }
{
    let n = cells.len();
    let mut labels = own_labels(alloc, n)?;
    for i in 0..n {
        let cell = cells[i];
        for j in 0..i {
            if cell.shares_side(cells[j]) {
                let from = labels[j];
                let to = labels[i];
                merge(&mut labels, from, to);
            }
        }
    }
    Ok(are_equal(&labels))
}
