//! Replies to all moves.
ghost use Rattle.std.specs.Prelude.{◌≡◌, IfOk, IfSome, map, true};
ghost use Rattle.pg_zone_proofs.specs.Prelude.{All, IsReply, Reply, ascend_from};

use crate::numbers::NodeNumbers;
use pg_base::Memory;
use pg_cert::Reply;
use pg_patterns::{SmallSet, Spot};
use std::alloc::Global;

/// Returns replies to the points of the set in ascending order, and None if a reply leads to no
/// node yet.
pub(crate) fn replies_to(
    alloc: Global,
    free: SmallSet,
    spot: &Spot,
    numbers: &NodeNumbers,
) -> Result<Option<Vec<Reply>>, Memory>
    ensures ascend { IfOk result (λ r. IfSome r
        (λ replies. ascend_from 0 (map (λ (q : Reply). q.point) replies.items) ≡ true)) }
    ensures numbers { IfOk result (λ r. IfSome r (λ replies. All IsReply replies.items)) }
{
    let mut replies = Vec::new(alloc);
    for point in 0..256u16 {
        let v = point as u8;
        if free.has(v) {
            let Some(child) = numbers.of(&spot.after(v)) else {
                return Ok(None);
            };
            replies.push(Reply { point, child })?;
        }
    }
    Ok(Some(replies))
}
