// How the entries of a query are combined.
ghost use Rattle.std.specs.Prelude.{◌≡◌, ◌↔◌, IfOk, IsTrue};
ghost use Rattle.aggregate.specs.Values.{IsValueOf};

use crate::agg_list::AggList;
use crate::partial::are_partials;
use std::alloc::AllocError;

/// What becomes of entries with equal keys.
#[derive(Debug, Drop)]
pub enum Kind {
    /// Their values are combined, number by number.
    Group(AggList),
    /// They stay side by side.
    Order,
}

impl Kind {
    /// Whether an entry of this kind may have this value.
    pub fn takes(&self, value: &[u8]) -> bool
        ensures { IsTrue result ↔ IsValueOf self.now value.now }
    {
        match self {
            Kind::Group(aggs) => are_partials(aggs, value),
            Kind::Order => true,
        }
    }

    /// The same kind in memory of its own.
    pub fn copy(&self) -> Result<Kind, AllocError>
        ensures { IfOk result (λ kind. kind ≡ self.now) }
    {
        match self {
            Kind::Group(aggs) => Ok(Kind::Group(aggs.copy()?)),
            Kind::Order => Ok(Kind::Order),
        }
    }
}
