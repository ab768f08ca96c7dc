//! A worker of a manager.

ghost use Rattle.std.specs.Prelude.{◌≡◌};

use crate::basis::Basis;
use std::marker::Model;
use turn_lock::Pass;

/// One thread's right to call a manager. A contract sees its pass: its number, and the entries that it has
/// seen, among which its own are all that it made.
pub struct Worker<B: Basis> {
    pub(crate) pass: Pass<B>,
}

impl<B: Basis> Model for Worker<B> {
    ghost use Rattle.std.specs.Prelude.{◌≡◌, ◌<◌, None};
    ghost use Rattle.turn_lock.specs.Passes.{WorkerView};

    ghost Value = { WorkerView };

    ghost view = { λ worker. worker.pass };

    ghost invariant = { λ worker. (worker.pass.base ≡ None) × (worker.pass.number < B.sizes.workers) };
}

impl<B: Basis> Worker<B> {
    ghost use Rattle.std.specs.Prelude.{None};

    /// Its number, from 0, below the setup's workers.
    pub fn number(&self) -> u32
        ensures value { result ≡ self.now.number }
        ensures rests { self.now.base ≡ None }
    {
        self.pass.number()
    }

    pub(crate) fn into_pass(self) -> Pass<B>
        ensures { result ≡ self }
    {
        let Worker { pass } = self;
        pass
    }
}

impl<B: Basis> Drop for Worker<B> {
    fn drop(self) {
        let Self { pass: _ } = self;
    }
}
