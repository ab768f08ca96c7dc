//! A task with one consumer.

ghost use Rattle.std.specs.Prelude.{◌≡◌, true, IsSome};
ghost use Rattle.row_page.specs.Pages.{page_room};
ghost use Rattle.consumer_trait.specs.States.{Rest, IsEntryBy, as_reset};

use aggregate::Kind;
use consumer_trait::{Consumer, Fed, Turn};
use row_page::{PAGE_ROOM, Page};
use std::alloc::Global;
use std::test::Fail;

/// A consumer and the page that it writes to. A call that no task may make is an `Err`.
#[derive(Drop)]
pub struct Task<C: Consumer> {
    pub consumer: C,
    pub page: Page,
    kind: Option<Kind>,
    begun: bool,
    rests: bool,
    ghost its: { begun ≡ true → (C.state consumer).kind ≡ kind },
    ghost stage: { rests ≡ true → (C.state consumer).stage ≡ Rest },
    ghost room: { page.room ≡ page_room },
}

/// Whether a consumer that was begun with this kind may be fed such an entry.
fn may_take(kind: &Option<Kind>, key: &[u8], value: &[u8]) -> bool
    ensures some { result ≡ true → IsSome kind.now }
    ensures entry { result ≡ true
        → IsEntryBy kind.now (record { key = key.now; value = value.now }) }
{
    if key.len() > 131152 || value.len() > 65568 {
        return false;
    }
    match kind {
        None => false,
        Some(kind) => kind.takes(value),
    }
}

impl<C: Consumer> Task<C> {
    /// The task of a consumer that rests.
    pub fn of(alloc: Global, consumer: C) -> Task<C>
        requires { (C.state consumer).stage ≡ Rest }
    {
        Task {
            consumer,
            page: Page::new(alloc, PAGE_ROOM),
            kind: None,
            begun: false,
            rests: true,
        }
    }

    /// The task of a new consumer, which it begins.
    pub fn begun(alloc: Global, mut consumer: C, kind: Kind) -> Result<Task<C>, Fail>
        requires { C.state consumer ≡ as_reset (C.state consumer) }
    {
        if !consumer.serves(&kind) {
            return Err("it serves another kind".into());
        }
        consumer.begin(&kind)?;
        Ok(Task {
            consumer,
            page: Page::new(alloc, PAGE_ROOM),
            kind: Some(kind),
            begun: true,
            rests: true,
        })
    }

    /// Resets the consumer, which then has and uses nothing, and begins.
    pub fn begin(&mut self, kind: Kind) -> Result<(), Fail> {
        self.begun = false;
        self.consumer.reset();
        self.rests = true;
        if !self.consumer.is_empty() || self.consumer.used() > 0 {
            return Err("a reset leaves something".into());
        }
        if !self.consumer.serves(&kind) {
            return Err("it serves another kind".into());
        }
        self.consumer.begin(&kind)?;
        self.kind = Some(kind);
        self.begun = true;
        Ok(())
    }

    pub fn grant(&mut self, bytes: u64) -> Result<(), Fail> {
        if bytes > 1 << 50 || self.consumer.used() > (1 << 50) - bytes {
            return Err("no task has so many bytes".into());
        }
        self.consumer.granted(bytes);
        Ok(())
    }

    pub fn feed(&mut self, key: &[u8], value: &[u8]) -> Result<Fed, Fail> {
        if !self.begun || !self.rests || !may_take(&self.kind, key, value) {
            return Err("it can't be fed".into());
        }
        Ok(self.consumer.feed(key, value)?)
    }

    /// A turn of a spill, onto the page, which is cleared first.
    pub fn turn(&mut self) -> Result<Turn, Fail> {
        if !self.begun || self.kind.is_none() {
            return Err("it isn't begun".into());
        }
        self.page.clear();
        self.rests = false;
        let turn = self.consumer.spill_turn(&mut self.page)?;
        self.rests = matches!(turn, Turn::Done);
        Ok(turn)
    }
}
