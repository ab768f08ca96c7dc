//! The choice.

ghost use Rattle.std.specs.Prelude.{◌≡◌, ◌<◌, ◌↔◌, ℕ, length, IsTrue, IfSome, IfNone};
ghost use Rattle.spill_choice.specs.Choices.{HasNoCandidate, Improves, IsChosen};

/// The consumer that spills for `remainder` bytes: among the candidates the one with the least use that is at
/// least the remainder, else the one with the greatest use; of equal uses the one with the higher number. `None`
/// where there is no candidate.
///
/// Uses and the remainder are bytes. The consumer that asks is handed in with use 0, so that it comes last.
/// After Spark's `TaskMemoryManager.trySpillAndAcquire`; the candidates and the ties are this project's own.
pub fn choose(uses: &[u64], candidates: &[bool], remainder: u64) -> Option<usize>
    requires same_number { length uses.now ≡ length candidates.now }
    ensures chosen { IfSome result (λ number. IsChosen uses.now candidates.now remainder number) }
    ensures none { IfNone result (HasNoCandidate candidates.now) }
{
    let mut best: Option<usize> = None;
    for number in 0..uses.len() {
        if candidates[number] {
            match best {
                Some(other) => {
                    if improves(uses[number], uses[other], remainder) {
                        best = Some(number);
                    }
                }
                None => best = Some(number),
            }
        }
    }
    best
}

// Whether a consumer with this use is chosen rather than an earlier one with that use.
fn improves(with: u64, than: u64, remainder: u64) -> bool
    ensures { IsTrue result ↔ Improves with than remainder }
{
    if than >= remainder {
        with >= remainder && with <= than
    } else {
        with >= than
    }
}
