//! What a list of entries comes to.

ghost use Rattle.aggregate.specs.declared.kind.Kind.{Kind};
ghost use Rattle.aggregate.specs.Keyed.{TotalsTellKeys};
ghost use Rattle.aggregate.specs.Rows.{TotalsAscend};
ghost use Rattle.aggregate.specs.Totals.{TotalsStayEqual};

use crate::partial::combine_is_associative;

/// Lists of entries that come to the same still do so behind one front, and with one more entry at their
/// end. So entries may be spilled and merged in parts. It does nothing when run.
pub fn totals_stay_equal()
    ensures { (kind : Kind) → TotalsStayEqual kind }
{
    combine_is_associative();
}

/// What a list of entries comes to ascends, and entries that ascend come to themselves. It does nothing
/// when run.
pub fn totals_ascend()
    ensures { (kind : Kind) → TotalsAscend kind }
{}

/// What a list of entries of a group comes to has of each key one value, which the key's values are combined to in
/// their order, and of no other key any. It does nothing when run.
pub fn totals_tell_keys()
    ensures { TotalsTellKeys }
{
    combine_is_associative();
}
