//! The spiller.

ghost use Rattle.std.specs.Prelude.{◌≡◌, ◌≢◌, ◌≤◌, ◌<◌, ◌+◌, ◌^◌, [], true, false, Some, length, take};
ghost use Rattle.aggregate.specs.declared.kind.Kind.TheVariants.{Order};
ghost use Rattle.aggregate.specs.Rows.{Ascends};
ghost use Rattle.aggregate.specs.Totals.{costs as costs_of};
ghost use Rattle.row_page.specs.Pages.{empty_page};
ghost use Rattle.spill_tests.specs.Rows.{entries_of_rows};

use crate::front::{drop_front, front_of, put_front};
use crate::row::Row;
use aggregate::Kind;
use consumer_trait::{Consumer, Fed, Turn, Usage, cost_of, need_of};
use row_page::Page;
use std::alloc::{AllocError, Global};

/// A consumer for tests: it keeps entries in the order in which they were fed, and its spill writes the
/// longest front of them that ascends, at most `most` of them.
#[derive(Drop)]
pub struct PartSpiller {
    alloc: Global,
    least: u64,
    asks: u64,
    most: usize,
    part: usize,
    early: u64,
    rows: Vec<Row>,
    usage: Usage,
    ready: bool,
    halved: bool,
    // how many of the first rows the spill has still to write
    todo: usize,
    ghost small_least: { least ≤ 2 ^ 32 },
    ghost small_asks: { asks ≤ 2 ^ 50 },
    ghost some_most: { 1 ≤ most },
    ghost some_part: { 1 ≤ part },
    ghost small_early: { early ≤ 16 },
    ghost charged: { usage.costs ≡ costs_of (entries_of_rows rows.items) },
    ghost within: { todo ≤ length rows.items },
    ghost ascends: { Ascends (Some Order) (take todo (entries_of_rows rows.items)) },
    ghost unchosen: { usage.wrote ≡ false → todo ≡ 0 },
    ghost near: { usage.spilling ≡ true → rows.items ≢ [] → usage.mark + usage.costs ≤ usage.used + 16 },
    ghost gained: { usage.wrote ≡ true → rows.items ≢ [] → usage.mark + usage.costs ≤ usage.used },
    ghost owes: { usage.wrote ≡ true → usage.freed ≡ false → rows.items ≢ []
        → usage.mark + usage.costs < usage.used },
    ghost owes_all: { usage.wrote ≡ true → usage.freed ≡ false → 1 ≤ usage.used },
}

impl PartSpiller {
    ghost use Rattle.std.specs.Prelude.{None, OnOk, OnErr};
    ghost use Rattle.consumer_trait.specs.Calls.{Asks, Writes, Frees, Ends, SameConsumer};
    ghost use Rattle.consumer_trait.specs.States.{Rest, current};
    ghost use Rattle.consumer_trait.specs.Usages.{is_order};
    ghost use Rattle.spill_tests.specs.Spillers.{state_of, was_told};

    /// Its spills ask for `asks` bytes first (0: they don't ask), write at most `most` entries, at most
    /// `part` on a page, and give back `early` bytes before they write, where there is that much room.
    pub fn new(
        alloc: Global,
        least: u64,
        asks: u64,
        most: usize,
        part: usize,
        early: u64,
    ) -> PartSpiller
        requires least { least ≤ 2 ^ 32 }
        requires asks { asks ≤ 2 ^ 50 }
        requires most { 1 ≤ most }
        requires part { 1 ≤ part }
        requires early { early ≤ 16 }
        ensures state { state_of result ≡ record {
          kind = None;
          entries = [];
          fed = 0;
          stage = Rest;
          used = 0;
          least = least;
          serves = is_order;
        } }
        ensures told { was_told result ≡ record { asks = asks; most = most; part = part; early = early } }
    {
        PartSpiller {
            alloc,
            least,
            asks,
            most,
            part,
            early,
            rows: Vec::new(alloc),
            usage: Usage::of(0),
            ready: false,
            halved: false,
            todo: 0,
        }
    }

    /// What the spill gives back once all is written: all where no entry is left, else the room that it
    /// gained.
    fn spare(&self) -> u64
        requires written { self.now.rows.items ≢ [] → self.now.usage.wrote ≡ true }
        ensures most { result ≤ self.now.usage.used }
        ensures all { self.now.rows.items ≡ [] → result ≡ self.now.usage.used }
        ensures rest { self.now.rows.items ≢ [] → self.now.usage.mark + self.now.usage.costs + result ≡ self.now.usage.used }
    {
        if self.rows.is_empty() {
            return self.usage.used;
        }
        self.usage.room() - self.usage.mark
    }

    /// The part of it that is given back next: what was written is given back in two halves.
    fn next_part(&self, spare: u64) -> u64
        requires { 1 ≤ spare }
        ensures some { 1 ≤ result }
        ensures most { result ≤ spare }
    {
        if self.usage.wrote && !self.halved {
            return spare - spare / 2;
        }
        spare
    }

    /// Gives bytes back before anything is written.
    fn free_early(&mut self, bytes: u64)
        requires rest { self.old.usage.spilling ≡ false }
        requires some { 1 ≤ bytes }
        requires most { bytes ≤ 16 }
        requires room { self.old.usage.costs + bytes ≤ self.old.usage.used }
        ensures { Frees (state_of self.old) (state_of self.new) bytes }
    {
        self.usage.free(bytes);
    }

    /// Asks for bytes before anything is written.
    fn ask(&mut self, bytes: u64)
        requires first { self.old.usage.asked ≡ false }
        requires before { self.old.usage.wrote ≡ false }
        requires some { 1 ≤ bytes }
        requires most { bytes ≤ 2 ^ 50 }
        ensures { Asks (state_of self.old) (state_of self.new) bytes }
    {
        self.usage.ask();
    }

    /// Gives bytes back once all is written.
    fn free(&mut self, bytes: u64)
        requires written { self.old.todo ≡ 0 }
        requires some { 1 ≤ bytes }
        requires most { bytes ≤ self.old.usage.used }
        requires wrote { self.old.rows.items ≢ [] → self.old.usage.wrote ≡ true }
        requires room { self.old.rows.items ≢ [] → self.old.usage.mark + self.old.usage.costs + bytes ≤ self.old.usage.used }
        ensures { Frees (state_of self.old) (state_of self.new) bytes }
    {
        self.halved = self.usage.wrote;
        self.usage.free(bytes);
    }

    /// Ends the spill.
    fn rest(&mut self)
        requires written { self.old.todo ≡ 0 }
        requires wrote { self.old.rows.items ≢ [] → self.old.usage.wrote ≡ true }
        requires all { self.old.rows.items ≡ [] → self.old.usage.used ≡ 0 }
        requires room { self.old.rows.items ≢ [] → self.old.usage.mark + self.old.usage.costs ≡ self.old.usage.used }
        ensures { Ends (state_of self.old) (state_of self.new) }
    {
        self.usage.rest();
        self.halved = false;
    }

    /// Fixes what the spill writes, and writes the first of it.
    fn first_page(&mut self, out: &mut Page) -> Result<(), AllocError>
        requires ready { self.old.ready ≡ true }
        requires some { self.old.rows.items ≢ [] }
        requires before { self.old.usage.wrote ≡ false }
        requires page { out.old ≡ empty_page }
        ensures ok { OnOk result (Writes (state_of self.old) (state_of self.new) out.new.rows
            (current (state_of self.new)).left) }
        ensures err { OnErr result (SameConsumer (state_of self.old) (state_of self.new)) }
        ensures room { out.new.room ≡ out.old.room }
    {
        let front = front_of(&self.rows, self.most);
        let count = put_front(&self.rows, front.min(self.part), out)?;
        self.usage.write();
        let mut costs = self.usage.costs;
        drop_front(&mut self.rows, &mut costs, count);
        self.usage.lower(costs);
        self.todo = front - count;
        Ok(())
    }

    /// Writes more of what was fixed.
    fn next_page(&mut self, out: &mut Page) -> Result<(), AllocError>
        requires ready { self.old.ready ≡ true }
        requires some { 1 ≤ self.old.todo }
        requires page { out.old ≡ empty_page }
        ensures ok { OnOk result (Writes (state_of self.old) (state_of self.new) out.new.rows
            (current (state_of self.new)).left) }
        ensures err { OnErr result (SameConsumer (state_of self.old) (state_of self.new)) }
        ensures room { out.new.room ≡ out.old.room }
    {
        let count = put_front(&self.rows, self.todo.min(self.part), out)?;
        let mut costs = self.usage.costs;
        drop_front(&mut self.rows, &mut costs, count);
        self.usage.lower(costs);
        self.todo -= count;
        Ok(())
    }
}

impl Consumer for PartSpiller {
    ghost use Rattle.spill_tests.specs.Spillers.{state_of};

    ghost state = { state_of };

    fn serves(&self, kind: &Kind) -> bool {
        matches!(kind, Kind::Order)
    }

    fn begin(&mut self, _kind: &Kind) -> Result<(), AllocError> {
        self.ready = true;
        Ok(())
    }

    fn feed(&mut self, key: &[u8], value: &[u8]) -> Result<Fed, AllocError> {
        let cost = cost_of(key, value);
        let room = self.usage.room();
        if cost > room {
            return Ok(need_of(cost - room));
        }
        let row = Row {
            key: key.to_vec(self.alloc)?,
            value: value.to_vec(self.alloc)?,
        };
        self.rows.push(row)?;
        self.usage.take(cost);
        Ok(Fed::Taken)
    }

    fn granted(&mut self, bytes: u64) {
        self.usage.grant(bytes);
    }

    fn used(&self) -> u64 {
        self.usage.used
    }

    fn least(&self) -> u64 {
        self.least
    }

    fn is_empty(&self) -> bool {
        self.rows.is_empty()
    }

    fn spill_turn(&mut self, out: &mut Page) -> Result<Turn, AllocError> {
        if self.todo > 0 {
            self.next_page(out)?;
            return Ok(Turn::Write);
        }
        if self.usage.wrote || self.rows.is_empty() {
            let spare = self.spare();
            if spare == 0 {
                self.rest();
                return Ok(Turn::Done);
            }
            let bytes = self.next_part(spare);
            self.free(bytes);
            return Ok(Turn::Freed(bytes));
        }
        let early = self.early;
        if !self.usage.spilling && early > 0 && early <= self.usage.room() {
            self.free_early(early);
            return Ok(Turn::Freed(early));
        }
        let asks = self.asks;
        if !self.usage.asked && asks > 0 {
            self.ask(asks);
            return Ok(Turn::Ask(asks));
        }
        self.first_page(out)?;
        Ok(Turn::Write)
    }

    fn reset(&mut self) {
        self.rows = Vec::new(self.alloc);
        self.usage = Usage::of(self.usage.fed);
        self.ready = false;
        self.halved = false;
        self.todo = 0;
    }
}
