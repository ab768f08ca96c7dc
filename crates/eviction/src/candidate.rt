ghost use Rattle.std.specs.Prelude.{◌≡◌};
ghost use Rattle.eviction.specs.Victims.{is_evictable};

/// A block in memory, as far as its eviction goes.
#[derive(Clone, Copy, Debug, PartialEq, Eq)]
pub struct Candidate {
    /// The number of its dataset.
    pub dataset: u32,
    /// The number of its part.
    pub part: u32,
    /// Its bytes.
    pub size: u64,
    /// Whether it may not be evicted, since a task reads it.
    pub pinned: bool,
}

impl Candidate {
    /// Whether it may be evicted: it isn't pinned, and not of the dataset that is excepted.
    pub fn may_go(&self, except: Option<u32>) -> bool
        ensures { result ≡ is_evictable except self.now }
    {
        match except {
            None => !self.pinned,
            Some(dataset) => !self.pinned && self.dataset != dataset,
        }
    }
}
