//! Why words weren't read.

use thiserror::Error;

/// Why words weren't read. Nothing was kept of them.
#[derive(Clone, Copy, Debug, PartialEq, Eq, Error)]
pub enum WordsFault {
    /// They are no words of the program: an unknown or shortened option, one that is given twice, a value that is
    /// missing or isn't a number of its range, or too many or too few positional words.
    #[error("the words are none that the program takes")]
    BadWords,
    /// There was no memory for the parse.
    #[error("out of memory")]
    NoMemory,
}
