//! A task that was begun.

ghost use Rattle.std.specs.Prelude.{◌≡◌};

use std::marker::Model;

/// A task that a worker has begun and not ended. It has to be ended: it can't be dropped. A contract sees
/// its number.
pub struct Task {
    number: u32,
}

impl Model for Task {
    ghost use Rattle.std.specs.Prelude.{ℕ};

    ghost Value = { ℕ };

    ghost view = { λ task. task.number };
}

impl Task {
    // The task of this number.
    pub(crate) fn new(number: u32) -> Task
        ensures { result ≡ number }
    {
        Task { number }
    }

    /// Its number.
    pub fn number(&self) -> u32
        ensures { result ≡ self.now }
    {
        self.number
    }

    // Its number, once it is ended.
    pub(crate) fn into_number(self) -> u32
        ensures { result ≡ self }
    {
        let Task { number } = self;
        number
    }
}
