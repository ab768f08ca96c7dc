//! A consumer in a box is a consumer.

ghost use Rattle.consumer_trait.specs.States.{State};

use crate::answers::{Fed, Turn};
use crate::consumer::Consumer;
use aggregate::Kind;
use row_page::Page;
use std::alloc::AllocError;

impl Consumer for Box<dyn Consumer + Send> {
    ghost state = { λ b. (Consumer-box b).state b.value };

    fn serves(&self, kind: &Kind) -> bool {
        (**self).serves(kind)
    }

    fn begin(&mut self, kind: &Kind) -> Result<(), AllocError> {
        (**self).begin(kind)
    }

    fn feed(&mut self, key: &[u8], value: &[u8]) -> Result<Fed, AllocError> {
        (**self).feed(key, value)
    }

    fn granted(&mut self, bytes: u64) {
        (**self).granted(bytes)
    }

    fn used(&self) -> u64 {
        (**self).used()
    }

    fn least(&self) -> u64 {
        (**self).least()
    }

    fn is_empty(&self) -> bool {
        (**self).is_empty()
    }

    fn spill_turn(&mut self, out: &mut Page) -> Result<Turn, AllocError> {
        (**self).spill_turn(out)
    }

    fn reset(&mut self) {
        (**self).reset()
    }
}
