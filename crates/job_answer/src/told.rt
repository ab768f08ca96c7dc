//! What the entries of any rows come to can be told.

ghost use Rattle.job_answer.specs.Told.{ShortShapesAreTold};

use aggregate::partials_are_long;
use row_page::fields_have_one_encoding;

/// What the entries of short rows come to can be told, where none of it is too wide, whatever rows these are and wherever they are
/// from. It does nothing when run.
pub fn short_shapes_are_told()
    ensures { ShortShapesAreTold }
{
    partials_are_long();
    fields_have_one_encoding();
}
