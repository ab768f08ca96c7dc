//! The blocks that workers have pinned, at most one each.

ghost use Rattle.std.specs.Prelude.{◌≡◌, ◌≤◌, ◌<◌, take};
ghost use Rattle.std.specs.List.{list_any};
ghost use Rattle.journal_replay.specs.Tables.{is_pin, pins_after};

use crate::block_name::BlockName;
use pool_ledger::Event;

/// The block that each worker has pinned.
pub(crate) type Pins = [Option<BlockName>; 16];

/// Whether the pin is of this block.
pub(crate) fn is_pin(pin: Option<BlockName>, dataset: u32, part: u32) -> bool
    ensures { result ≡ is_pin dataset part pin }
{
    match pin {
        Some(name) => name.dataset == dataset && name.part == part,
        None => false,
    }
}

/// Whether some worker has pinned the block.
pub(crate) fn is_pinned(pins: &Pins, dataset: u32, part: u32) -> bool
    ensures { result ≡ list_any (is_pin dataset part) pins.now }
{
    pins.iter().any(|pin| is_pin(*pin, dataset, part))
}

/// Whether one of so many first workers has pinned the block.
pub(crate) fn is_pinned_by_first(pins: &Pins, workers: usize, dataset: u32, part: u32) -> bool
    requires { workers ≤ 16 }
    ensures { result ≡ list_any (is_pin dataset part) (take workers pins.now) }
{
    pins[..workers]
        .iter()
        .any(|pin| is_pin(*pin, dataset, part))
}

/// Notes the pin that an event of this worker makes or takes back.
pub(crate) fn note_pin(pins: &mut Pins, worker: u32, event: Event)
    requires { worker < 16 }
    ensures { pins.new ≡ pins_after worker event pins.old }
{
    match event {
        Event::Pin {
            dataset,
            part,
            copy: false,
        } => pins[worker as usize] = Some(BlockName { dataset, part }),
        Event::Unpin { .. } => pins[worker as usize] = None,
        _ => {}
    }
}
