//! Which blocks of a dataset may be removed: how many, and the one of the least part.

ghost use Rattle.std.specs.Prelude.{◌≡◌, count_by};
ghost use Rattle.memory_core.specs.Choices.{least_in, may_go_of};

use eviction::Candidate;

// How many blocks of a dataset may be removed.
pub(crate) fn count_of(list: &[Candidate], dataset: u32) -> u64
    ensures { result ≡ count_by (may_go_of dataset) list.now }
{
    let mut count = 0;
    for block in list {
        if block.may_go(None) && block.dataset == dataset {
            count += 1;
        }
    }
    count
}

// The one with the least part of the blocks of a dataset that may be removed.
pub(crate) fn least_of(list: &[Candidate], dataset: u32) -> Option<Candidate>
    ensures { result ≡ least_in dataset list.now }
{
    let mut least: Option<Candidate> = None;
    for block in list {
        if block.may_go(None) && block.dataset == dataset {
            least = match least {
                Some(other) if other.part <= block.part => least,
                _ => Some(*block),
            };
        }
    }
    least
}
