//! What a waiting thread watches.

use std::sync::atomic::{AtomicU64, Ordering};
use std::sync::{Condvar, Mutex, Wait};

// A number that rises by one, wrapping, at each release, each end and each first attempt of a task: after these
// a task that waits may be granted what it asks. Nothing is claimed of it.
#[derive(Drop)]
pub(crate) struct WakeUpCount {
    count: AtomicU64,
    // How many threads sleep, or are about to.
    sleepers: AtomicU64,
    lock: Mutex<()>,
    changed: Condvar,
}

impl WakeUpCount {
    pub(crate) fn new() -> WakeUpCount {
        WakeUpCount {
            count: AtomicU64::new(0),
            sleepers: AtomicU64::new(0),
            lock: Mutex::new(()),
            changed: Condvar::new(),
        }
    }

    // The number now. An attempt that comes after it sees all that raised it.
    pub(crate) fn now(&self) -> u64 {
        self.count.load(Ordering::SeqCst)
    }

    // Raises it, and wakes all that wait for that.
    pub(crate) fn raise<R: Wait>(&self, rt: &R) {
        self.count.fetch_add(1, Ordering::SeqCst);
        // Whoever is counted only later finds the new number. Whoever is counted has looked at it under the lock, and
        // sleeps by the time that it is free, or looks again.
        if self.sleepers.load(Ordering::SeqCst) != 0 {
            drop(self.lock.lock(rt));
            self.changed.notify_all();
        }
    }

    // Sleeps until it is another number than this one.
    pub(crate) fn wait_past<R: Wait>(&self, rt: &R, seen: u64) {
        self.sleepers.fetch_add(1, Ordering::SeqCst);
        let mut held = self.lock.lock(rt);
        for _ in rt.forever() {
            if self.now() != seen {
                self.sleepers.fetch_sub(1, Ordering::SeqCst);
                return;
            }
            held = self.changed.wait(rt, held);
        }
    }
}
