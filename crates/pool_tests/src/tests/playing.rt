// The parts of a worker's script.
//
// Parts stand with a `|` between them, each of which is a list of steps: within a task, if its first word is `task`.
// The worker's first task has its number. `acquire:N` asks for N bytes and `release:N` gives back so many; `probe` asks for a
// byte more, and gives it back, until another task counts. `keep:D.P:L:B:N` and `look:D.P:L:B:N` are of a block, `remove:D` of
// a dataset, and `raise:S` and `await:S` of a sign.
ghost use Rattle.std.specs.Prelude.{◌≡◌, ◌+◌, ◌%◌, ℕ, Some, None, IfOk};
ghost use Rattle.memory_lock.specs.Crew.{IsWorker};
ghost use Rattle.memory_lock.specs.Workers.{KeepsTask};
ghost use Rattle.pool_tests.specs.Seats.{IsIdle, IsPlaying, IsSteady, at_rest};

use crate::tests::entries::put_entry;
use crate::tests::kept_blocks::{block_of, kept_word, look_word};
use crate::tests::seats::{Seat, acquire, admit, pin, release, remove};
use crate::tests::words::{cut, number_or_zero};
use memory_lock::{Basis, Task, Worker};
use pool_ledger::{Entry, Event};
use std::alloc::{AllocError, Global};
use std::string::String;
use std::sync::Wait;

// Puts an event behind the notes, as its worker's entry.
fn note(notes: &mut String, worker: u32, event: Event) -> Result<(), AllocError> {
    put_entry(notes, Entry { worker, event }, false)
}

// An ask. What is noted is what its caller knows of it: not what moved from storage.
fn ask<B: Basis, R: Wait>(
    seat: &Seat<'_, B, R>,
    worker: &mut Worker<B>,
    task: &Task,
    bytes: u32,
    notes: &mut String,
) -> Result<(), AllocError>
    requires { IsPlaying seat.now.manager.now seat.now.count seat.now.number seat.now.next task.now worker.old }
    ensures { IsPlaying seat.now.manager.now seat.now.count seat.now.number seat.now.next task.now worker.new }
{
    let asked = u64::from(bytes).max(1);
    let got = acquire(seat, worker, task, asked)?;
    let event = Event::Attempt {
        task: task.number(),
        asked,
        moved: 0,
        evictions: 0,
        got: Some(got),
    };
    note(notes, seat.number, event)
}

fn give_back<B: Basis, R: Wait>(
    seat: &Seat<'_, B, R>,
    worker: &mut Worker<B>,
    task: &Task,
    bytes: u32,
    notes: &mut String,
) -> Result<(), AllocError>
    requires { IsPlaying seat.now.manager.now seat.now.count seat.now.number seat.now.next task.now worker.old }
    ensures { IsPlaying seat.now.manager.now seat.now.count seat.now.number seat.now.next task.now worker.new }
{
    let freed = release(seat, worker, task, u64::from(bytes))?;
    let event = Event::Release {
        task: task.number(),
        freed,
    };
    note(notes, seat.number, event)
}

// Asks for a byte more, and gives it back, until another task counts, so that none is granted, or the asker was granted all.
fn probe<B: Basis, R: Wait>(
    seat: &Seat<'_, B, R>,
    worker: &mut Worker<B>,
    task: &Task,
) -> Result<(), AllocError>
    requires { IsPlaying seat.now.manager.now seat.now.count seat.now.number seat.now.next task.now worker.old }
    ensures { IsPlaying seat.now.manager.now seat.now.count seat.now.number seat.now.next task.now worker.new }
{
    for _ in seat.rt.forever() {
        let more = acquire(seat, worker, task, 1)?;
        if more == 0 || seat.board.granted.is_up(seat.rt) {
            return Ok(());
        }
        release(seat, worker, task, more)?;
    }
    unreachable!()
}

fn keep<B: Basis, R: Wait>(
    seat: &Seat<'_, B, R>,
    worker: &mut Worker<B>,
    words: &str,
    notes: &mut String,
) -> Result<(), AllocError>
    requires steady { IsSteady seat.now.manager.now seat.now.count seat.now.number seat.now.next worker.old }
    requires rows { (dataset part : ℕ) → B.rows dataset part ≡ None }
    ensures steady { IsSteady seat.now.manager.now seat.now.count seat.now.number seat.now.next worker.new }
    ensures task { KeepsTask worker.old worker.new }
{
    let block = block_of(seat.alloc, words)?;
    let answer = admit(seat, worker, block)?;
    notes.push_str(kept_word(answer))
}

// Pins the block that is named like this one, and gives the pin back.
fn look<B: Basis, R: Wait>(
    seat: &Seat<'_, B, R>,
    worker: &mut Worker<B>,
    words: &str,
    notes: &mut String,
) -> Result<(), AllocError>
    requires steady { IsSteady seat.now.manager.now seat.now.count seat.now.number seat.now.next worker.old }
    ensures steady { IsSteady seat.now.manager.now seat.now.count seat.now.number seat.now.next worker.new }
    ensures task { KeepsTask worker.old worker.new }
{
    let like = block_of(seat.alloc, words)?;
    let found = pin(seat, worker, like.dataset, like.part)?;
    notes.push_str(look_word(found, &like))
}

// Takes a step that needs no task.
fn take_other<B: Basis, R: Wait>(
    seat: &Seat<'_, B, R>,
    worker: &mut Worker<B>,
    step: &str,
    notes: &mut String,
) -> Result<(), AllocError>
    requires steady { IsSteady seat.now.manager.now seat.now.count seat.now.number seat.now.next worker.old }
    requires rows { (dataset part : ℕ) → B.rows dataset part ≡ None }
    ensures steady { IsSteady seat.now.manager.now seat.now.count seat.now.number seat.now.next worker.new }
    ensures task { KeepsTask worker.old worker.new }
{
    let (kind, words) = cut(step, ':');
    match kind {
        "keep" => keep(seat, worker, words, notes),
        "look" => look(seat, worker, words, notes),
        "remove" => remove(seat, worker, number_or_zero(words)),
        "raise" => {
            seat.board.sign(words).raise(seat.rt);
            Ok(())
        }
        "await" => {
            seat.board.sign(words).wait(seat.rt);
            Ok(())
        }
        _ => notes.push_str(" unknown"),
    }
}

// The same within a task.
fn take_within<B: Basis, R: Wait>(
    seat: &Seat<'_, B, R>,
    worker: &mut Worker<B>,
    task: &Task,
    step: &str,
    notes: &mut String,
) -> Result<(), AllocError>
    requires playing { IsPlaying seat.now.manager.now seat.now.count seat.now.number seat.now.next task.now worker.old }
    requires rows { (dataset part : ℕ) → B.rows dataset part ≡ None }
    ensures { IsPlaying seat.now.manager.now seat.now.count seat.now.number seat.now.next task.now worker.new }
{
    take_other(seat, worker, step, notes)
}

// The same without a task.
fn take_idle<B: Basis, R: Wait>(
    seat: &Seat<'_, B, R>,
    worker: &mut Worker<B>,
    step: &str,
    notes: &mut String,
) -> Result<(), AllocError>
    requires idle { IsIdle seat.now.manager.now seat.now.count seat.now.number seat.now.next worker.old }
    requires rows { (dataset part : ℕ) → B.rows dataset part ≡ None }
    ensures { IsIdle seat.now.manager.now seat.now.count seat.now.number seat.now.next worker.new }
{
    take_other(seat, worker, step, notes)
}

// Takes a step of a task.
fn take_step<B: Basis, R: Wait>(
    seat: &Seat<'_, B, R>,
    worker: &mut Worker<B>,
    task: &Task,
    step: &str,
    notes: &mut String,
) -> Result<(), AllocError>
    requires playing { IsPlaying seat.now.manager.now seat.now.count seat.now.number seat.now.next task.now worker.old }
    requires rows { (dataset part : ℕ) → B.rows dataset part ≡ None }
    ensures { IsPlaying seat.now.manager.now seat.now.count seat.now.number seat.now.next task.now worker.new }
{
    let (kind, bytes) = cut(step, ':');
    match kind {
        "acquire" => ask(seat, worker, task, number_or_zero(bytes), notes),
        "release" => give_back(seat, worker, task, number_or_zero(bytes), notes),
        "probe" => probe(seat, worker, task),
        _ => take_within(seat, worker, task, step, notes),
    }
}

fn take_steps<B: Basis, R: Wait>(
    seat: &Seat<'_, B, R>,
    worker: &mut Worker<B>,
    task: &Task,
    steps: &str,
    notes: &mut String,
) -> Result<(), AllocError>
    requires playing { IsPlaying seat.now.manager.now seat.now.count seat.now.number seat.now.next task.now worker.old }
    requires rows { (dataset part : ℕ) → B.rows dataset part ≡ None }
    ensures { IsPlaying seat.now.manager.now seat.now.count seat.now.number seat.now.next task.now worker.new }
{
    for step in steps.split_whitespace() {
        take_step(seat, worker, task, step, notes)?;
    }
    Ok(())
}

// The same without a task.
fn take_others<B: Basis, R: Wait>(
    seat: &Seat<'_, B, R>,
    worker: &mut Worker<B>,
    steps: &str,
    notes: &mut String,
) -> Result<(), AllocError>
    requires idle { IsIdle seat.now.manager.now seat.now.count seat.now.number seat.now.next worker.old }
    requires rows { (dataset part : ℕ) → B.rows dataset part ≡ None }
    ensures { IsIdle seat.now.manager.now seat.now.count seat.now.number seat.now.next worker.new }
{
    for step in steps.split_whitespace() {
        take_idle(seat, worker, step, notes)?;
    }
    Ok(())
}

// Begins the seat's next task, if the worker owns it.
fn begin<B: Basis, R: Wait>(
    seat: &Seat<'_, B, R>,
    worker: &mut Worker<B>,
) -> Result<Task, AllocError>
    requires idle { IsIdle seat.now.manager.now seat.now.count seat.now.number seat.now.next worker.old }
    requires owner { (task : ℕ) → B.owner task ≡ Some (task % seat.now.count) }
    ensures its { IsWorker seat.now.manager.now seat.now.count seat.now.number (at_rest worker.new) }
    ensures playing { IfOk result (λ task.
        IsPlaying seat.now.manager.now seat.now.count seat.now.number (seat.now.next + 1) task worker.new) }
{
    if seat.count == 0 || u64::from(seat.next) % seat.count != u64::from(seat.number) {
        return Err(AllocError);
    }
    seat.manager.begin(seat.rt, worker, seat.next)
}

fn end<B: Basis, R: Wait>(seat: &Seat<'_, B, R>, worker: &mut Worker<B>, task: Task) -> u64
    requires { IsPlaying seat.now.manager.now seat.now.count seat.now.number seat.now.next task worker.old }
    ensures { IsIdle seat.now.manager.now seat.now.count seat.now.number seat.now.next worker.new }
{
    seat.manager.end(seat.rt, worker, task)
}

// Plays a task: what its end freed.
fn play_task<B: Basis, R: Wait>(
    seat: &Seat<'_, B, R>,
    worker: &mut Worker<B>,
    task: Task,
    steps: &str,
    notes: &mut String,
) -> Result<u64, AllocError>
    requires playing { IsPlaying seat.now.manager.now seat.now.count seat.now.number seat.now.next task worker.old }
    requires rows { (dataset part : ℕ) → B.rows dataset part ≡ None }
    ensures { IsIdle seat.now.manager.now seat.now.count seat.now.number seat.now.next worker.new }
{
    let outcome = take_steps(seat, worker, &task, steps, notes);
    let freed = end(seat, worker, task);
    outcome?;
    Ok(freed)
}

// Plays the next task from its begin to its end, with a note for each.
fn play_next<B: Basis, R: Wait>(
    seat: &Seat<'_, B, R>,
    worker: &mut Worker<B>,
    steps: &str,
    notes: &mut String,
) -> Result<u32, AllocError>
    requires idle { IsIdle seat.now.manager.now seat.now.count seat.now.number seat.now.next worker.old }
    requires owner { (task : ℕ) → B.owner task ≡ Some (task % seat.now.count) }
    requires rows { (dataset part : ℕ) → B.rows dataset part ≡ None }
    ensures its { IsWorker seat.now.manager.now seat.now.count seat.now.number (at_rest worker.new) }
    ensures idle { IfOk result (λ next. IsIdle seat.now.manager.now seat.now.count seat.now.number next worker.new) }
{
    let number = seat.next;
    let Some(next) = number.checked_add(1) else {
        return Err(AllocError);
    };
    note(notes, seat.number, Event::Begin { task: number })?;
    let task = begin(seat, worker)?;
    let freed = play_task(&seat_at(seat, next), worker, task, steps, notes)?;
    let event = Event::End {
        task: number,
        freed,
    };
    note(notes, seat.number, event)?;
    Ok(next)
}

// The same seat, from another task on.
fn seat_at<'a, B: Basis, R: Wait>(seat: &Seat<'a, B, R>, next: u32) -> Seat<'a, B, R>
    ensures { (result.manager.now ≡ seat.now.manager.now) × (result.count ≡ seat.now.count)
        × (result.number ≡ seat.now.number) × (result.next ≡ next) }
{
    Seat {
        rt: seat.rt,
        alloc: seat.alloc,
        manager: seat.manager,
        board: seat.board,
        count: seat.count,
        number: seat.number,
        next,
    }
}

// Plays a part of a script. What it answers is the number of the worker's next task.
fn play_part<B: Basis, R: Wait>(
    seat: &Seat<'_, B, R>,
    worker: &mut Worker<B>,
    part: &str,
    notes: &mut String,
) -> Result<u32, AllocError>
    requires idle { IsIdle seat.now.manager.now seat.now.count seat.now.number seat.now.next worker.old }
    requires owner { (task : ℕ) → B.owner task ≡ Some (task % seat.now.count) }
    requires rows { (dataset part : ℕ) → B.rows dataset part ≡ None }
    ensures its { IsWorker seat.now.manager.now seat.now.count seat.now.number (at_rest worker.new) }
    ensures idle { IfOk result (λ next. IsIdle seat.now.manager.now seat.now.count seat.now.number next worker.new) }
{
    let (word, steps) = cut(part.trim(), ' ');
    if word == "task" {
        return play_next(seat, worker, steps, notes);
    }
    take_others(seat, worker, part, notes)?;
    Ok(seat.next)
}

pub fn play_parts<B: Basis, R: Wait>(
    seat: &Seat<'_, B, R>,
    worker: &mut Worker<B>,
    script: &str,
    notes: &mut String,
) -> Result<(), AllocError>
    requires idle { IsIdle seat.now.manager.now seat.now.count seat.now.number seat.now.next worker.old }
    requires owner { (task : ℕ) → B.owner task ≡ Some (task % seat.now.count) }
    requires rows { (dataset part : ℕ) → B.rows dataset part ≡ None }
    ensures { IsWorker seat.now.manager.now seat.now.count seat.now.number (at_rest worker.new) }
{
    let mut next = seat.next;
    for part in script.split('|') {
        next = play_part(&seat_at(seat, next), worker, part, notes)?;
    }
    Ok(())
}
