//! Bytes that are cut into parts.
ghost use Rattle.std.specs.Prelude.{◌≡◌, IfOk};
ghost use Rattle.pg_request.specs.Request.{cut};

use pg_base::Memory;
use pg_io::Text;
use std::alloc::Global;

/// Returns copies of the parts of the bytes, one of each length, in order. If too few bytes are
/// left, a part is what is left.
#[tactic(auto, unfolding(crate::specs::Request::cut))]
pub fn cut(alloc: Global, lengths: &[usize], bytes: &[u8]) -> Result<Vec<Text>, Memory>
    ensures { IfOk result (λ parts. parts.items ≡ cut lengths.now bytes.now) }
{
    let mut parts = Vec::new(alloc);
    let mut left = bytes;
    for length in lengths {
        let (part, others) = left.split_at((*length).min(left.len()));
        parts.push(Text::new(alloc, part)?)?;
        left = others;
    }
    Ok(parts)
}
