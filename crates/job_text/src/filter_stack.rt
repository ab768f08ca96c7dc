//! A stack, which contracts see from its top.

ghost use Rattle.std.specs.Option.{option_copied};
ghost use Rattle.std.specs.Prelude.{◌≡◌, [], ◌∷◌, IfOk, MatchOption, length, slice_get};

use std::alloc::{AllocError, Global};
use std::marker::Model;

/// A list whose first item is the one that was added last.
#[derive(Drop)]
pub(crate) struct Stack<T> {
    items: Vec<T>,
}

impl<T> Model for Stack<T> {
    ghost use Rattle.std.specs.Prelude.{List, reverse};
    ghost use Rattle.std.specs.Coded.{coded_list};

    ghost Value = { List T };

    ghost coded = { coded_list T.code };

    ghost view = { λ stack. reverse stack.items.items };
}

impl<T: Drop> Stack<T> {
    pub(crate) fn new(alloc: Global) -> Self
        ensures { result ≡ [] }
    {
        Stack {
            items: Vec::new(alloc),
        }
    }

    pub(crate) fn len(&self) -> usize
        ensures { result ≡ length self.now }
    {
        self.items.len()
    }

    /// The item that was added last.
    pub(crate) fn first(&self) -> Option<&T>
        ensures { option_copied result ≡ slice_get self.now 0 }
    {
        self.items.last()
    }

    /// With one more item.
    pub(crate) fn with(mut self, item: T) -> Result<Self, AllocError>
        ensures { IfOk result (λ longer. longer ≡ item ∷ self) }
    {
        self.items.push(item)?;
        Ok(self)
    }

    /// Takes the item off that was added last.
    pub(crate) fn pop(&mut self) -> Option<T>
        ensures { MatchOption result ((self.old ≡ []) × (self.new ≡ [])) (λ item. self.old ≡ item ∷ self.new) }
    {
        self.items.pop()
    }
}
