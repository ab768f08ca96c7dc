//! The numbers that a consumer keeps.

ghost use Rattle.std.specs.Prelude.{◌≡◌, ◌≤◌, ◌^◌, false};

/// What a consumer was granted, what its entries cost of it, how often it was fed, and how far its spill has
/// come. All sizes are bytes.
#[derive(Clone, Copy, Debug, Drop)]
pub struct Usage {
    /// What the entries in memory cost.
    pub costs: u64,
    /// What was granted and not given back.
    pub used: u64,
    /// How many entries were ever fed, up to the last `u64`.
    pub fed: u64,
    /// The room when the spill began.
    pub mark: u64,
    /// Whether a spill has begun.
    pub spilling: bool,
    /// Whether it asked for bytes.
    pub asked: bool,
    /// Whether it wrote entries.
    pub wrote: bool,
    /// Whether it gave bytes back.
    pub freed: bool,
    ghost covered: { costs ≤ used },
    ghost small: { used ≤ 2 ^ 50 },
    ghost unasked: { spilling ≡ false → asked ≡ false },
    ghost unwritten: { spilling ≡ false → wrote ≡ false },
    ghost unfreed: { spilling ≡ false → freed ≡ false },
}

impl Usage {
    ghost use Rattle.std.specs.Prelude.{◌+◌, ◌-◌, min, true};
    ghost use Rattle.consumer_trait.specs.Usages.{fed_alone, mark_by, numbers_of};

    /// The numbers of a consumer that was fed so many entries and has nothing.
    pub fn of(fed: u64) -> Usage
        ensures { numbers_of result ≡ fed_alone fed }
    {
        Usage {
            costs: 0,
            used: 0,
            fed,
            mark: 0,
            spilling: false,
            asked: false,
            wrote: false,
            freed: false,
        }
    }

    /// The bytes that are granted and that no entry takes.
    pub fn room(&self) -> u64
        ensures { result ≡ self.now.used - self.now.costs }
    {
        self.used - self.costs
    }

    /// The room that there was when the spill began that the next turn belongs to.
    pub fn first_room(&self) -> u64
        ensures { result ≡ mark_by self.now.spilling self.now.mark (self.now.used - self.now.costs) }
    {
        if self.spilling {
            return self.mark;
        }
        self.used - self.costs
    }

    /// An entry came that takes so many bytes beside those in memory.
    pub fn take(&mut self, cost: u64)
        requires { self.old.costs + cost ≤ self.old.used }
        ensures { numbers_of self.new ≡ record (numbers_of self.old) {
          costs = self.old.costs + cost;
          fed = min (self.old.fed + 1) (2 ^ 64 - 1);
        } }
    {
        self.costs += cost;
        self.fed = self.fed.saturating_add(1);
    }

    /// So many bytes were granted.
    pub fn grant(&mut self, bytes: u64)
        requires { self.old.used + bytes ≤ 2 ^ 50 }
        ensures { numbers_of self.new ≡ record (numbers_of self.old) { used = self.old.used + bytes } }
    {
        self.used += bytes;
    }

    /// The spill asks for bytes, and begins by that where it hasn't.
    pub fn ask(&mut self)
        ensures { numbers_of self.new ≡ record (numbers_of self.old) {
          mark = mark_by self.old.spilling self.old.mark (self.old.used - self.old.costs);
          spilling = true;
          asked = true;
        } }
    {
        self.mark = self.first_room();
        self.spilling = true;
        self.asked = true;
    }

    /// The entries in memory cost so many bytes from now on.
    pub fn lower(&mut self, costs: u64)
        requires { costs ≤ self.old.used }
        ensures { numbers_of self.new ≡ record (numbers_of self.old) { costs = costs } }
    {
        self.costs = costs;
    }

    /// The spill writes, and begins by that where it hasn't.
    pub fn write(&mut self)
        ensures { numbers_of self.new ≡ record (numbers_of self.old) {
          mark = mark_by self.old.spilling self.old.mark (self.old.used - self.old.costs);
          spilling = true;
          wrote = true;
        } }
    {
        self.mark = self.first_room();
        self.spilling = true;
        self.wrote = true;
    }

    /// The spill gives bytes back, and begins by that where it hasn't.
    pub fn free(&mut self, bytes: u64)
        requires { self.old.costs + bytes ≤ self.old.used }
        ensures { numbers_of self.new ≡ record (numbers_of self.old) {
          used = self.old.used - bytes;
          mark = mark_by self.old.spilling self.old.mark (self.old.used - self.old.costs);
          spilling = true;
          freed = true;
        } }
    {
        self.mark = self.first_room();
        self.spilling = true;
        self.freed = true;
        self.used -= bytes;
    }

    /// The spill ends.
    pub fn rest(&mut self)
        ensures { numbers_of self.new ≡ record (numbers_of self.old) {
          spilling = false;
          asked = false;
          wrote = false;
          freed = false;
        } }
    {
        self.spilling = false;
        self.asked = false;
        self.wrote = false;
        self.freed = false;
    }
}
