// A worker's thread, which plays a script: its head, if it has one, which ends with a `;`, and its parts.
//
// The steps of a head are those of signs, and `grow:N`, which makes the pools N bytes larger: worker 0 alone has such a step.
ghost use Rattle.std.specs.Prelude.{◌≡◌, ◌%◌, [], ℕ, Some, None, IfOk};
ghost use Rattle.pool_ledger.specs.History.{grown_by, total};
ghost use Rattle.memory_lock.specs.Crew.{IsWorker};
ghost use Rattle.memory_lock.specs.Workers.{own_of};
ghost use Rattle.pool_tests.specs.Seats.{IsIdle, at_rest};

use crate::tests::entries::put_entry;
use crate::tests::playing::play_parts;
use crate::tests::seats::{Seat, grow};
use crate::tests::signs::Board;
use crate::tests::words::cut;
use memory_lock::{Basis, Manager, Worker};
use pool_ledger::{Entry, Event};
use spill_disk::MemoryDisk;
use std::alloc::{AllocError, Global};
use std::string::String;
use std::sync::Wait;

// Makes the pools larger, and answers by how much the worker has then made them so.
fn take_growth<B: Basis, R: Wait>(
    seat: &Seat<'_, B, R>,
    worker: &mut Worker<B>,
    bytes: u64,
    grown: u64,
    notes: &mut String,
) -> Result<u64, AllocError>
    requires idle { IsIdle seat.now.manager.now seat.now.count seat.now.number seat.now.next worker.old }
    requires grown { total grown_by (own_of worker.old) ≡ grown }
    ensures idle { IsIdle seat.now.manager.now seat.now.count seat.now.number seat.now.next worker.new }
    ensures grown { IfOk result (λ sum. total grown_by (own_of worker.new) ≡ sum) }
{
    let sum = grow(seat, worker, bytes, grown)?;
    let entry = Entry {
        worker: seat.number,
        event: Event::Grow { bytes },
    };
    put_entry(notes, entry, false)?;
    Ok(sum)
}

// Raises a sign or waits for it.
fn take_sign<B: Basis, R: Wait>(seat: &Seat<'_, B, R>, kind: &str, name: &str) {
    match kind {
        "raise" => seat.board.sign(name).raise(seat.rt),
        _ => seat.board.sign(name).wait(seat.rt),
    }
}

fn take_head<B: Basis, R: Wait>(
    seat: &Seat<'_, B, R>,
    worker: &mut Worker<B>,
    head: &str,
    notes: &mut String,
) -> Result<(), AllocError>
    requires idle { IsIdle seat.now.manager.now seat.now.count seat.now.number seat.now.next worker.old }
    requires none { total grown_by (own_of worker.old) ≡ 0 }
    ensures { IsIdle seat.now.manager.now seat.now.count seat.now.number seat.now.next worker.new }
{
    let mut grown = 0u64;
    for step in head.split_whitespace() {
        let (kind, words) = cut(step, ':');
        if kind == "grow" {
            grown = take_growth(seat, worker, words.parse().unwrap_or(0), grown, notes)?;
        } else {
            take_sign(seat, kind, words);
        }
    }
    Ok(())
}

fn play_script<B: Basis, R: Wait>(
    seat: &Seat<'_, B, R>,
    worker: &mut Worker<B>,
    script: &str,
    notes: &mut String,
) -> Result<(), AllocError>
    requires idle { IsIdle seat.now.manager.now seat.now.count seat.now.number seat.now.next worker.old }
    requires none { total grown_by (own_of worker.old) ≡ 0 }
    requires owner { (task : ℕ) → B.owner task ≡ Some (task % seat.now.count) }
    requires rows { (dataset part : ℕ) → B.rows dataset part ≡ None }
    ensures { IsWorker seat.now.manager.now seat.now.count seat.now.number (at_rest worker.new) }
{
    let (head, parts) = script.split_once(';').unwrap_or(("", script));
    take_head(seat, worker, head, notes)?;
    play_parts(seat, worker, parts, notes)
}

/// The thread of a new worker, which plays the script of its number and leaves what it noted on the board.
pub fn play<B: Basis, R: Wait>(
    rt: &R,
    alloc: Global,
    manager: &Manager<MemoryDisk, B>,
    mut worker: Worker<B>,
    scripts: &[&str],
    board: &Board,
) -> Worker<B>
    requires worker { IsWorker manager.now B.sizes.workers worker.number worker }
    requires new { worker.seen ≡ [] }
    requires owner { (task : ℕ) → B.owner task ≡ Some (task % B.sizes.workers) }
    requires rows { (dataset part : ℕ) → B.rows dataset part ≡ None }
    ensures { IsWorker manager.now B.sizes.workers worker.number result }
{
    let number = worker.number();
    let seat = Seat {
        rt,
        alloc,
        manager,
        board,
        count: manager.setup().workers(),
        number,
        next: number,
    };
    let script = scripts.get(number as usize).unwrap_or(&"");
    let mut notes = String::new(alloc);
    let played = play_script(&seat, &mut worker, script, &mut notes);
    board.end(rt, number, played.ok().map(|_| notes));
    // For the proof: that it rests is known with its number.
    let _number = worker.number();
    worker
}
