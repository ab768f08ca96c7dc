ghost use Rattle.std.specs.Prelude.{◌≡◌, ◌^◌, ◌<◌, ◌≤◌, ◌↔◌, IsErr, IfOk, IsSome, IfSome};
ghost use Rattle.pool_ledger.specs.Sizes.{sizes_of, smallest_heap, floor_of, block_limit_of, IsInRange};

use std::marker::Model;
use thiserror::Error;

/// The heap has less than one and a half times the reserve. After the check of Spark's
/// `UnifiedMemoryManager.getMaxMemory`.
#[derive(Clone, Copy, Debug, PartialEq, Eq, Error)]
#[error("heap too small for the reserve")]
pub struct HeapTooSmall;

/// The sizes that a pool starts with. A contract sees the size of both pools together and the region,
/// both in bytes and at most 2^40, and the number of workers, 1 to 16.
#[derive(Clone, Copy)]
pub struct Setup {
    maximum: u64,
    region: u64,
    workers: u64,
}

impl Model for Setup {
    ghost use Rattle.std.specs.Prelude.{ℕ, ◌≤◌, ◌^◌};
    ghost use Rattle.pool_ledger.specs.Sizes.{Sizes, IsInRange};

    ghost Value = { Sizes };

    ghost view = { λ s. record { maximum = s.maximum; region = s.region; workers = s.workers } };

    ghost invariant = { λ s. IsInRange s.maximum s.region s.workers };

    ghost inverse = { λ s. record { maximum = s.maximum; region = s.region; workers = s.workers } };
}

impl Setup {
    /// The sizes for a heap in bytes, of which `reserved` bytes are kept out, a fraction of the rest for
    /// the pool and a fraction of that for storage, both in thousandths, and a number of workers.
    ///
    /// After the Tuning Guide's `spark.memory.fraction` and `spark.memory.storageFraction`; whole
    /// thousandths with products rounded down are this project's own.
    pub fn of(
        heap: u64,
        reserved: u64,
        fraction: u32,
        storage: u32,
        workers: u32,
    ) -> Result<Setup, HeapTooSmall>
        requires some_heap { 1 ≤ heap }
        requires heap { heap ≤ 2 ^ 40 }
        requires reserved { reserved ≤ 2 ^ 40 }
        requires some_fraction { 1 ≤ fraction }
        requires fraction { fraction ≤ 1000 }
        requires storage { storage ≤ 1000 }
        requires some_worker { 1 ≤ workers }
        requires few_workers { workers ≤ 16 }
        ensures ok { IfOk result (λ setup. setup ≡ sizes_of heap reserved fraction storage workers) }
        ensures too_small { IsErr result ↔ (heap < smallest_heap reserved) }
    {
        if heap < reserved + reserved.div_ceil(2) {
            return Err(HeapTooSmall);
        }
        let maximum = (heap - reserved) * u64::from(fraction) / 1000;
        let region = maximum * u64::from(storage) / 1000;
        Ok(Setup {
            maximum,
            region,
            workers: u64::from(workers),
        })
    }

    /// The setup of a pool with these bytes for both pools together and for the region, and this number of
    /// workers. `None` exactly where no setup has such sizes: the region passes the whole, the whole passes
    /// 2^40, or the workers aren't 1 to 16. It is for a reader of journals, whose first line has these numbers.
    pub fn with_sizes(max: u64, region: u64, workers: u64) -> Option<Setup>
        ensures some { IfSome result (λ setup.
            setup ≡ record { maximum = max; region = region; workers = workers }) }
        ensures exact { IsSome result ↔ IsInRange max region workers }
    {
        if region > max || max > 1 << 40 || workers < 1 || workers > 16 {
            return None;
        }
        Some(Setup {
            maximum: max,
            region,
            workers,
        })
    }

    /// The bytes of both pools together, before they grow.
    pub fn max(&self) -> u64
        ensures value { result ≡ self.now.maximum }
        ensures range { IsInRange self.now.maximum self.now.region self.now.workers }
    {
        self.maximum
    }

    /// The bytes that storage starts with, below which execution evicts no block.
    pub fn region(&self) -> u64
        ensures value { result ≡ self.now.region }
        ensures range { IsInRange self.now.maximum self.now.region self.now.workers }
    {
        self.region
    }

    /// The number of workers.
    pub fn workers(&self) -> u64
        ensures value { result ≡ self.now.workers }
        ensures range { IsInRange self.now.maximum self.now.region self.now.workers }
    {
        self.workers
    }

    /// The bytes up to which no ask is granted short: half an equal share of the execution pool at the
    /// start. This project's own.
    pub fn floor(&self) -> u64
        ensures { result ≡ floor_of self.now }
    {
        (self.maximum - self.region) / (2 * self.workers)
    }

    /// The bytes of the largest block that is admitted, so that each worker's pin fits the region. This
    /// project's own.
    pub fn block_limit(&self) -> u64
        ensures { result ≡ block_limit_of self.now }
    {
        self.region / self.workers
    }
}
