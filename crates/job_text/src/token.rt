//! What a text is made of.

use crate::mark::Mark;
use item_lists::Name;

/// What a text is made of.
#[derive(Debug, Drop)]
pub(crate) enum Token {
    Fixed(Mark),
    /// A word that isn't reserved.
    Word(Name),
    /// What stands between double quotes.
    Quoted(Name),
    /// What stands between single quotes.
    Text(Name),
    /// A whole number; None where it leaves 64 bits.
    Whole(Option<i64>),
}
