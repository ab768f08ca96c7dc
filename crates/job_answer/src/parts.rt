//! What the totals of parts come to.

ghost use Rattle.job_answer.specs.Parts.{PartsTellAll};

use aggregate::{totals_ascend, totals_stay_equal};

/// What the totals of parts come to is what all entries come to: so each partition may be grouped or ordered by itself, and the
/// results merged. It does nothing when run.
pub fn parts_tell_all()
    ensures { PartsTellAll }
{
    totals_ascend();
    totals_stay_equal();
}
