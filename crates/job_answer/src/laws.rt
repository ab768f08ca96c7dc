//! What the totals of a query's entries tell.

ghost use Rattle.job_answer.specs.Laws.{TotalsTellAnswers, TotalsTellQueries, TotalsTellTables};
ghost use Rattle.job_answer.specs.OneShape.{GroupsTell, OrdersTell};

use aggregate::{
    keys_in_order, numbers_in_order, partials_are_long, partials_come_back, spellings_are_read_back,
};
use row_page::fields_have_one_encoding;

/// What the entries of a query of a job without datasets come to tells the rows of its plain answer, and the
/// first total that is too wide is that of the first such group. It does nothing when run.
pub fn totals_tell_answers()
    ensures { TotalsTellAnswers }
{
    totals_tell_queries();
}

/// So it is for a query over a dataset, of the entries of the dataset's rows, each with its number in the input.
/// It does nothing when run.
pub fn totals_tell_queries()
    ensures { TotalsTellQueries }
{
    totals_tell_tables();
}

/// So it is for a query's shape over any rows whose numbers ascend. It does nothing when run.
pub fn totals_tell_tables()
    ensures { TotalsTellTables }
{
    groups_are_told();
    orders_are_told();
}

// So it is where rows are grouped.
fn groups_are_told()
    ensures { GroupsTell }
{
    keys_in_order();
    spellings_are_read_back();
    partials_are_long();
    partials_come_back();
}

// So it is where rows are ordered.
fn orders_are_told()
    ensures { OrdersTell }
{
    keys_in_order();
    numbers_in_order();
    fields_have_one_encoding();
}
