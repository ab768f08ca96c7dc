//! Laws of filters in the language.

ghost use Rattle.job_text.specs.FilterLaws.{FiltersAreRead, FiltersAreWritten, PrintedFiltersAreWritten, ReadFiltersAreFilters, FiltersGoOn};

/// What the grammar has as a filter is read as that filter.
pub fn filters_are_read()
    ensures { FiltersAreRead }
{}

/// What is read as a filter the grammar has as that filter.
pub fn filters_are_written()
    ensures { FiltersAreWritten }
{}

/// What the grammar has as a filter is flat, at most 64 deep, and of columns that are among the names.
pub fn filters_are_fine()
    ensures { ReadFiltersAreFilters }
{}

/// Tokens that are read go on to a whole filter.
pub fn filters_go_on()
    ensures { FiltersGoOn }
{}

/// A filter's printed tokens are that filter to the grammar.
pub fn printed_filters_are_written()
    ensures { PrintedFiltersAreWritten }
{}
