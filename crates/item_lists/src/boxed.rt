// A box that contracts see as its value.
ghost use Rattle.std.specs.Prelude.{◌≡◌};

use std::marker::Model;

/// A box, which contracts see as the value in it. A type may hold a box of itself.
#[derive(Debug, Drop)]
pub struct Boxed<T> {
    boxed: Box<T>,
}

impl<T> Model for Boxed<T> {
    ghost Value = { T };

    ghost coded = { T.code };

    ghost view = { λ held. held.boxed.value };
}

impl<T> Boxed<T> {
    /// The box with this value. Takes no memory.
    pub fn of(boxed: Box<T>) -> Self
        ensures { result ≡ boxed.value }
    {
        Boxed { boxed }
    }

    /// The value.
    pub fn value(&self) -> &T
        ensures { result.now ≡ self.now }
    {
        &self.boxed
    }
}
