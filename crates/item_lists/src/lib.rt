//! Lists, boxes and names that contracts see as what they hold, so that a tree of them is plain data.
#![tactic(auto)]

mod boxed;
mod listed;
mod name;
#[cfg(test)]
mod tests;

pub use boxed::Boxed;
pub use listed::Listed;
pub use name::Name;
