//! Two settled bases.
ghost use Rattle.std.specs.Prelude.{◌≡◌};
ghost use Rattle.pg_span.specs.Prelude.{contains, AreBases};

use pg_base::PointSet;
use pg_exchange::{Exchange, Ground};

/// Makes the common elements as few as may be, and gives what is reached from the elements in
/// neither base.
pub(crate) fn settled<G: Ground>(bases: &mut Exchange<G>) -> PointSet
    ensures settled { AreBases (G.matroid bases.old.first) (G.base bases.new.first)
        (G.base bases.new.second) (contains result) }
    ensures kept { G.matroid bases.new.first ≡ G.matroid bases.old.first }
{
    bases.settle();
    bases.reached()
}
