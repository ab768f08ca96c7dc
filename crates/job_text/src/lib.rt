//! The job language, read and printed.
#![tactic(auto)]

mod column_spelling;
mod columns;
mod datasets;
mod fault;
mod filter_laws;
mod filter_printing;
mod filter_stack;
mod filter_state;
mod filter_step;
mod grammar;
mod job;
mod job_printing;
mod lists;
mod mark;
mod printer;
mod printing;
mod reading;
mod state;
mod step;
mod token;
mod tokens;

pub use column_spelling::spell_column;
pub use fault::JobFault;
pub use filter_laws::{
    filters_are_fine, filters_are_read, filters_are_written, filters_go_on,
    printed_filters_are_written,
};
pub use grammar::{
    printed_tokens_are_read, the_longest_token_is_taken, tokens_are_read_by_grammar,
    tokens_have_one_meaning,
};
pub use job::{
    Dataset, DatasetList, Job, KeyItem, KeyList, NameList, Part, PartList, PlaceList, Query,
    QueryList, Shape,
};
pub use job_printing::print;
pub use reading::read;
