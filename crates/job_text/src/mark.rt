//! Reserved words and signs.

ghost use Rattle.std.specs.Prelude.{◌≡◌};
ghost use Rattle.job_text.specs.Marks.{mark_text};

/// A reserved word or a sign.
#[derive(Clone, Copy, Debug, PartialEq, Eq)]
pub(crate) enum Mark {
    Let,
    Where,
    Keep,
    Memory,
    Disk,
    Group,
    Order,
    Count,
    Sum,
    Min,
    Max,
    From,
    Number,
    Down,
    And,
    Or,
    Not,
    Input,
    Comma,
    Colon,
    Semicolon,
    Open,
    Close,
    Equal,
    NotEqual,
    Less,
    AtMost,
    Greater,
    AtLeast,
}

impl Mark {
    /// How it is written.
    pub(crate) fn text(self) -> &'static str
        ensures { result.now ≡ mark_text self }
    {
        match self {
            Mark::Let => "let",
            Mark::Where => "where",
            Mark::Keep => "keep",
            Mark::Memory => "memory",
            Mark::Disk => "disk",
            Mark::Group => "group",
            Mark::Order => "order",
            Mark::Count => "count",
            Mark::Sum => "sum",
            Mark::Min => "min",
            Mark::Max => "max",
            Mark::From => "from",
            Mark::Number => "number",
            Mark::Down => "down",
            Mark::And => "and",
            Mark::Or => "or",
            Mark::Not => "not",
            Mark::Input => "input",
            Mark::Comma => ",",
            Mark::Colon => ":",
            Mark::Semicolon => ";",
            Mark::Open => "(",
            Mark::Close => ")",
            Mark::Equal => "=",
            Mark::NotEqual => "!=",
            Mark::Less => "<",
            Mark::AtMost => "<=",
            Mark::Greater => ">",
            Mark::AtLeast => ">=",
        }
    }
}
