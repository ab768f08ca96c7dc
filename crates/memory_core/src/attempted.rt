//! The answer to an ask for execution memory.

ghost use Rattle.std.specs.Prelude.{◌≡◌};
ghost use Rattle.memory_core.specs.Attempts.{granted_in};

/// What an ask for execution memory is answered. After Spark's `ExecutionMemoryPool.acquireMemory`, which
/// blocks where this says `Wait`.
#[derive(Clone, Copy, Debug, PartialEq, Eq)]
pub enum Attempted {
    /// So many bytes, which may be fewer than were asked, and 0.
    Granted(u64),
    /// A short grant would leave the task below half an equal part of the execution pool: it asks
    /// again once others gave back.
    Wait,
}

// What was planned, as an answer.
pub(crate) fn answered(got: Option<u64>) -> Attempted
    ensures { granted_in result ≡ got }
{
    match got {
        Some(bytes) => Attempted::Granted(bytes),
        None => Attempted::Wait,
    }
}
