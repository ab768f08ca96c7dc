// What a pass's seat does at the lock's table.
ghost use Rattle.std.specs.Prelude.{◌≡◌, ◌+◌, ◌<◌, [], ◌∷◌, Contains, Some, None};
ghost use Rattle.pool_ledger.specs.Workers.{Continues};
ghost use Rattle.turn_lock.specs.declared.view.Stage.TheVariants.{Idle, Open, Taken};
ghost use Rattle.turn_lock.specs.Parts.{IsPart};
ghost use Rattle.turn_lock.specs.Steps.{IsFound};
ghost use Rattle.turn_lock.specs.Views.{staged_view, settled_view, joined_view, resting_view};

use crate::kept::Kept;
use crate::pass::LIMIT;
use crate::rule::{Gives, Joins, Leaves, Returns, Settles, Takes, Turns};
use crate::view::View;
use atomic_table::{Seat, Shared};
use std::sync::Wait;
use std::sync::atomic::{AtomicU64, Ordering};
use std::thread;

// How often a thread looks for the turn before it sleeps.
const LOOKS: u32 = 60;

// Waits for the turn, and takes the value. The slot stays behind with None.
pub(crate) fn take_value<V: Kept<B>, B, R: Wait>(
    rt: &R,
    turns: &Shared<Option<V>, View, (), Turns<B>>,
    sleepers: &AtomicU64,
    seat: &mut Seat<Option<V>, View>,
    number: u32,
) -> V
    requires table { (seat.old.table_id ≡ turns.now.table_id)
        × (turns.now.table_id.words ≡ 1) × (turns.now.table_id.slots ≡ 1) }
    requires idle { (seat.old.me ≡ (staged_view Idle seat.old.me.0, []))
        × (seat.old.me.0.number ≡ number) × Contains seat.old.me.0.speaks number }
    ensures seat { (seat.new.table_id ≡ seat.old.table_id) × (seat.new.id ≡ seat.old.id)
        × (seat.new.me ≡ (staged_view (Taken (V.history result)) seat.old.me.0, [])) }
    ensures found { IsFound V.history V.fact seat.old.me.0 result }
{
    let word = number as u64 * 2 + 1;
    for _ in rt.forever() {
        if turns.peek(0) == 0 {
            if turns.compare_exchange::<Takes<B>>(seat, 0, 0, word) == 0 {
                return take_out(turns, seat);
            }
        } else {
            wait_for_turn(rt, turns, sleepers);
        }
    }
    unreachable!()
}

// Looks a while whether the turn is free, and then sleeps until it may be: most turns are shorter than a sleep.
fn wait_for_turn<V: Kept<B>, B, R: Wait>(
    rt: &R,
    turns: &Shared<Option<V>, View, (), Turns<B>>,
    sleepers: &AtomicU64,
)
    requires { turns.now.table_id.words ≡ 1 }
{
    for _ in 0..LOOKS {
        if turns.peek(0) == 0 {
            return;
        }
        thread::yield_now();
    }
    // A sleep sees the low 32 bits alone: they are odd while the turn is held, and else 0. Whoever sleeps is
    // counted before the word is looked at again, and so a holder that counts nobody after it has freed the turn
    // has kept nobody asleep.
    let found = turns.peek(0);
    if found != 0 {
        sleepers.fetch_add(1, Ordering::SeqCst);
        turns.park(rt, 0, (found % LIMIT) as u32);
        sleepers.fetch_sub(1, Ordering::SeqCst);
    }
}

// The value leaves its slot, and the slot goes home.
fn take_out<V: Kept<B>, B>(
    turns: &Shared<Option<V>, View, (), Turns<B>>,
    seat: &mut Seat<Option<V>, View>,
) -> V
    requires table { (seat.old.table_id ≡ turns.now.table_id)
        × (turns.now.table_id.words ≡ 1) × (turns.now.table_id.slots ≡ 1) }
    requires full { (value : V) × (seat.old.me.0.stage ≡ Open (V.history value))
        × (seat.old.me.1 ≡ (0, Some value) ∷ []) }
    ensures seat { (seat.new.table_id ≡ seat.old.table_id) × (seat.new.id ≡ seat.old.id)
        × (seat.new.me ≡ (staged_view (Taken (V.history result)) seat.old.me.0, [])) }
    ensures value { seat.old.me.1 ≡ (0, Some result) ∷ [] }
{
    let value = turns.exchange(seat, 0, None);
    turns.load::<Leaves>(seat, 0);
    value.unwrap()
}

// Puts the value back, frees the turn, and wakes one who waits for it, if somebody does.
pub(crate) fn give_value<V: Kept<B>, B>(
    turns: &Shared<Option<V>, View, (), Turns<B>>,
    sleepers: &AtomicU64,
    seat: &mut Seat<Option<V>, View>,
    value: V,
)
    requires table { (seat.old.table_id ≡ turns.now.table_id)
        × (turns.now.table_id.words ≡ 1) × (turns.now.table_id.slots ≡ 1) }
    requires holds { ((base : _) × (seat.old.me.0.stage ≡ Taken base)
        × Continues seat.old.me.0.number base (V.history value)) × (seat.old.me.1 ≡ []) }
    requires alone { (seat.old.me.0.joined ≡ []) × (seat.old.me.0.told ≡ [])
        × Contains seat.old.me.0.speaks seat.old.me.0.number }
    requires meets { V.fact value }
    ensures { (seat.new.table_id ≡ seat.old.table_id) × (seat.new.id ≡ seat.old.id)
        × (seat.new.me ≡ (resting_view (V.history value) seat.old.me.0, [])) }
{
    turns.load::<Returns>(seat, 0);
    match turns.exchange(seat, 0, Some(value)) {
        None => {}
        Some(_) => unreachable!(),
    }
    // The turn goes back last: until then nobody sees the value.
    turns.swap::<Gives<B>>(seat, 0, 0);
    if sleepers.load(Ordering::SeqCst) != 0 {
        turns.wake_one(0);
    }
}

// One seat for two.
pub(crate) fn join_seats<V: Kept<B>, B>(
    turns: &Shared<Option<V>, View, (), Turns<B>>,
    seat: &mut Seat<Option<V>, View>,
    other: Seat<Option<V>, View>,
)
    requires table { (seat.old.table_id ≡ turns.now.table_id)
        × (other.table_id ≡ turns.now.table_id)
        × (turns.now.table_id.words ≡ 1) × (turns.now.table_id.slots ≡ 1) }
    requires alone { (seat.old.me.0.joined ≡ []) × (other.me.0.joined ≡ [])
        × (other.me.0.stage ≡ Idle) × (other.me.1 ≡ []) }
    ensures seat { (seat.new.table_id ≡ seat.old.table_id) × (seat.new.id ≡ seat.old.id)
        × (seat.new.me ≡ (settled_view (joined_view seat.old.me.0 other.me.0), seat.old.me.1)) }
    ensures this { IsPart seat.old.me.0.speaks seat.old.me.0.seen seat.new.me.0.seen }
    ensures that { IsPart other.me.0.speaks other.me.0.seen seat.new.me.0.seen }
{
    turns.join_seat::<Joins>(seat, other);
    // A join tells nothing of the two lists. This load does.
    turns.load::<Settles>(seat, 0);
}
