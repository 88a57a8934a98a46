//! Lists of numbers that points are made of.
ghost use Rattle.std.specs.Prelude.{◌≡◌, ◌≤◌, length, IfOk, IsTrue, false, nat_lt};
ghost use Rattle.pg_files.specs.Prelude.{list_all, members, MAX_MEMBERS, empty};
ghost use Rattle.pg_files.specs.Sets.{set_of, ascending, repeats};

use pg_base::{Line, LineFault, Members, Memory, PointSet};
use std::alloc::{AllocError, Global};

/// Whether each number is below the limit.
pub fn are_below(numbers: &[u32], limit: u32) -> bool
    requires { limit ≤ MAX_MEMBERS }
    ensures below { result ≡ list_all (λ n. nat_lt n limit) numbers.now }
    ensures small { IsTrue (list_all (λ n. nat_lt n limit) numbers.now)
        → IsTrue (list_all (λ n. nat_lt n MAX_MEMBERS) numbers.now) }
{
    numbers.iter().all(|n| *n < limit)
}

/// Whether a number is in the set, or stands twice in the list.
#[tactic(auto, using(crate::proofs::SetLaws::repeats_step, crate::proofs::SetLaws::repeats_stop))]
pub fn repeats(numbers: &[u32], apart: PointSet) -> bool
    requires { IsTrue (list_all (λ n. nat_lt n MAX_MEMBERS) numbers.now) }
    ensures { result ≡ repeats apart numbers.now }
{
    let mut seen = apart;
    for n in numbers {
        let point = *n as u16;
        if seen.has(point) {
            return true;
        }
        seen.put(point);
    }
    false
}

/// The set of the numbers.
#[tactic(auto, using(crate::proofs::SetLaws::set_of_step))]
pub fn set_of(numbers: &[u32]) -> PointSet
    requires { IsTrue (list_all (λ n. nat_lt n MAX_MEMBERS) numbers.now) }
    ensures { result ≡ set_of numbers.now }
{
    let mut set = PointSet::empty();
    for n in numbers {
        set.put(*n as u16);
    }
    set
}

/// The numbers as points, in their order.
fn as_points(alloc: Global, numbers: &[u32]) -> Result<Vec<u16>, AllocError>
    requires { IsTrue (list_all (λ n. nat_lt n MAX_MEMBERS) numbers.now) }
    ensures { IfOk result (λ points. points.items ≡ numbers.now) }
{
    let mut points = Vec::with_capacity(alloc, numbers.len())?;
    for n in numbers {
        points.push(*n as u16)?;
    }
    Ok(points)
}

/// The line of the numbers.
pub fn line_of(alloc: Global, numbers: &[u32]) -> Result<Line, Memory>
    requires below { IsTrue (list_all (λ n. nat_lt n MAX_MEMBERS) numbers.now) }
    requires different { repeats empty numbers.now ≡ false }
    ensures line { IfOk result (λ line. line ≡ ascending numbers.now) }
    ensures length { IfOk result (λ line. length line ≡ length numbers.now) }
{
    let points = as_points(alloc, numbers)?;
    match Line::new(alloc, &points) {
        Ok(line) => Ok(line),
        Err(LineFault::Memory) => Err(Memory),
        Err(LineFault::Repeated) => unreachable!(),
    }
}

/// The points of the set in ascending order.
pub fn members(alloc: Global, set: &PointSet) -> Result<Vec<u16>, AllocError>
    ensures { IfOk result (λ points. points.items ≡ members set.now) }
{
    Members::of(set).collect(alloc)
}
