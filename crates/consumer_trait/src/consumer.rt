//! The trait.

ghost use Rattle.std.specs.Prelude.{◌≡◌, ◌+◌, ◌≤◌, ◌^◌, ◌↔◌, [], true, IsTrue, IsSome, OnOk, OnErr, Some};
ghost use Rattle.aggregate.specs.Totals.{costs};
ghost use Rattle.row_page.specs.Pages.{empty_page};
ghost use Rattle.consumer_trait.specs.States.{State, Rest, IsEntryBy, as_reset};
ghost use Rattle.consumer_trait.specs.Calls.{Feeds, Turns};

use crate::answers::{Fed, Turn};
use aggregate::Kind;
use row_page::Page;
use std::alloc::AllocError;

/// One of a task's consumers: it keeps entries in memory under a kind, takes what its task was granted for
/// them, and spills entries when it is told to. A contract sees it as its `State`.
///
/// After Spark's `MemoryConsumer`. Spilling in turns, and the least, are this project's own.
pub trait Consumer: Drop {
    /// What callers know of it.
    ghost state: { Self → State };

    /// Whether it can begin this kind.
    fn serves(&self, kind: &Kind) -> bool
        ensures { result ≡ (state self.now).serves kind.now };

    /// Makes it ready for entries of this kind, once it is reset. An `Err` is want of memory.
    fn begin(&mut self, kind: &Kind) -> Result<(), AllocError>
        requires serves { (state self.old).serves kind.now ≡ true }
        requires fresh { state self.old ≡ as_reset (state self.old) }
        ensures ok { OnOk result (state self.new ≡ record (state self.old) { kind = Some kind.now }) }
        ensures err { OnErr result (state self.new ≡ state self.old) };

    /// Takes an entry, or says how many bytes it needs for it. An `Err` is want of memory, and changes
    /// nothing.
    fn feed(&mut self, key: &[u8], value: &[u8]) -> Result<Fed, AllocError>
        requires kind { IsSome (state self.old).kind }
        requires rest { (state self.old).stage ≡ Rest }
        requires entry { IsEntryBy (state self.old).kind (record { key = key.now; value = value.now }) }
        ensures { Feeds (state self.old) (state self.new) (record { key = key.now; value = value.now }) result };

    /// Tells it that it was granted so many bytes.
    fn granted(&mut self, bytes: u64)
        requires { (state self.old).used + bytes ≤ 2 ^ 50 }
        ensures { state self.new ≡ record (state self.old) { used = (state self.old).used + bytes } };

    /// The bytes that it was granted and has not given back: its entries take no more.
    fn used(&self) -> u64
        ensures value { result ≡ (state self.now).used }
        ensures covered { costs (state self.now).entries ≤ result }
        ensures most { result ≤ 2 ^ 50 };

    /// The bytes that it has to have from its start on, beside those that it uses.
    fn least(&self) -> u64
        ensures value { result ≡ (state self.now).least }
        ensures most { result ≤ 2 ^ 32 };

    /// Whether no entry is in memory.
    fn is_empty(&self) -> bool
        ensures { IsTrue result ↔ ((state self.now).entries ≡ []) };

    /// One turn of a spill. At rest it begins one. After an `Err`, which is want of memory, it is only reset.
    fn spill_turn(&mut self, out: &mut Page) -> Result<Turn, AllocError>
        requires kind { IsSome (state self.old).kind }
        requires page { out.old ≡ empty_page }
        ensures { Turns (state self.old) (state self.new) out.old out.new result };

    /// Forgets all but how often it was fed. It takes no memory.
    fn reset(&mut self)
        ensures { state self.new ≡ as_reset (state self.old) };
}
