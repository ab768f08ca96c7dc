//! What a task's consumer owes its task: it is fed entries, and spills them when it is told to.
#![tactic(auto)]

mod answers;
mod boxed;
mod consumer;
mod feeding;
mod members;
mod usage;

pub use answers::{Fed, Turn};
pub use consumer::Consumer;
pub use feeding::{cost_of, need_of, put_entry};
pub use members::{begin_at, feed_at, grant_at, is_empty_at, least_at, reset_at, used_at};
pub use usage::Usage;
