//! What a consumer answers.

/// What became of an entry that was fed.
#[derive(Clone, Copy, Debug, PartialEq, Eq, Drop)]
pub enum Fed {
    /// It is in memory.
    Taken,
    /// There is too little room for it: so many bytes are missing, and so many would be welcome.
    Need { must: u64, wish: u64 },
}

/// What one turn of a spill did.
#[derive(Clone, Copy, Debug, PartialEq, Eq, Drop)]
pub enum Turn {
    /// It asks for further bytes, and is told what was got before its next turn, which may be none.
    Ask(u64),
    /// It put entries on the page.
    Write,
    /// It gives bytes back.
    Freed(u64),
    /// The spill is at its end.
    Done,
}
