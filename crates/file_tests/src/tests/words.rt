// Parts of a text.

/// What stands before the mark, and what behind it; all and nothing where there is none.
pub fn parted<'a>(text: &'a str, mark: char) -> (&'a str, &'a str) {
    text.split_once(mark).unwrap_or((text, ""))
}

/// The number of a word, or the greatest where it is none.
pub fn number_of(word: &str) -> u64 {
    word.parse().unwrap_or(u64::MAX)
}
