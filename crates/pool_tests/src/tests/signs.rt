// What the threads of a script tell each other, and what each leaves.
use std::string::String;
use std::sync::{Condvar, Mutex, Wait};

// Whether something is so, which stays so.
#[derive(Drop)]
pub struct Sign {
    is_up: Mutex<bool>,
    changed: Condvar,
}

impl Sign {
    fn new() -> Sign {
        Sign {
            is_up: Mutex::new(false),
            changed: Condvar::new(),
        }
    }

    pub fn is_up<R: Wait>(&self, rt: &R) -> bool {
        *self.is_up.lock(rt)
    }

    pub fn raise<R: Wait>(&self, rt: &R) {
        let mut is_up = self.is_up.lock(rt);
        *is_up = true;
        drop(is_up);
        self.changed.notify_all();
    }

    // Sleeps until it is up.
    pub fn wait<R: Wait>(&self, rt: &R) {
        let mut is_up = self.is_up.lock(rt);
        for _ in rt.forever() {
            if *is_up {
                return;
            }
            is_up = self.changed.wait(rt, is_up);
        }
    }
}

// Each sign is raised by a step of its name, and all of them where a thread comes to its end.
#[derive(Drop)]
pub struct Board {
    // Worker 1 has made its first attempt, and holds nothing.
    ready: Sign,
    // Another worker holds what it asked for.
    taken: Sign,
    // That worker has seen that worker 1 counts, which so was told to wait.
    probed: Sign,
    // Worker 1 was granted what it waited for.
    pub granted: Sign,
    // What each worker noted, once it has come to its script's end, at its number.
    notes: [Mutex<Option<String>>; 4],
}

impl Board {
    pub fn new() -> Board {
        Board {
            ready: Sign::new(),
            taken: Sign::new(),
            probed: Sign::new(),
            granted: Sign::new(),
            notes: [
                Mutex::new(None),
                Mutex::new(None),
                Mutex::new(None),
                Mutex::new(None),
            ],
        }
    }

    pub fn sign(&self, name: &str) -> &Sign {
        match name {
            "ready" => &self.ready,
            "taken" => &self.taken,
            "probed" => &self.probed,
            _ => &self.granted,
        }
    }

    // A thread's end, with its notes, if it has come to its script's.
    pub fn end<R: Wait>(&self, rt: &R, number: u32, notes: Option<String>) {
        if let Some(place) = self.notes.get(number as usize) {
            *place.lock(rt) = notes;
        }
        self.ready.raise(rt);
        self.taken.raise(rt);
        self.probed.raise(rt);
        self.granted.raise(rt);
    }

    // What the worker of this number noted, if it came to its script's end.
    pub fn take_notes<R: Wait>(&self, rt: &R, number: usize) -> Option<String> {
        self.notes.get(number)?.lock(rt).take()
    }
}
