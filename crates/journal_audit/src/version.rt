//! The versions of a journal's text.

/// Which lines a journal's text can have. Its first line says it.
#[derive(Clone, Copy, Debug, PartialEq, Eq)]
pub enum Version {
    /// Begins with `memory journal 1`. The pool keeps its size, so a line `grow` is no line. It is read,
    /// and written no more.
    First,
    /// Begins with `memory journal 2`. The pool can grow. It is the version that is written.
    Second,
}
