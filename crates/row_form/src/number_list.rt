//! The number columns of landed rows.

ghost use Rattle.std.specs.Prelude.{◌≡◌, IfOk};
ghost use Rattle.row_form.specs.Numbers.{may_be};

use crate::number::is_decimal;
use std::alloc::{AllocError, Global};
use std::marker::Model;

/// A number column: its place among the kept columns, from 0, and whether an empty field may stand there too.
#[derive(Clone, Copy, Debug, PartialEq, Eq)]
pub struct NumberPlace {
    /// The column's place among the kept columns, from 0.
    pub column: u32,
    /// Whether it is a value column, where an empty field is a missing value.
    pub value: bool,
}

impl NumberPlace {
    /// Whether a field may stand in this column: a number, and in a value column an empty one.
    #[inline(always)]
    pub fn may_be(self, field: &[u8]) -> bool
        ensures { result ≡ may_be self field.now }
    {
        is_decimal(field) || self.value && field.is_empty()
    }
}

/// The places of the number columns among the kept columns, ascending.
#[derive(Debug, Drop)]
pub struct NumberList {
    places: Vec<NumberPlace>,
}

impl Model for NumberList {
    ghost use Rattle.std.specs.Prelude.{List};
    ghost use Rattle.row_form.specs.declared.number_list.NumberPlace.{NumberPlace};

    ghost Value = { List NumberPlace };

    ghost view = { λ list. list.places.items };
}

impl NumberList {
    /// The list of these places. Plans make it.
    pub fn of(alloc: Global, list: &[NumberPlace]) -> Result<NumberList, AllocError>
        ensures { IfOk result (λ numbers. numbers ≡ list.now) }
    {
        Ok(NumberList {
            places: list.to_vec(alloc)?,
        })
    }

    /// The places.
    pub fn items(&self) -> &[NumberPlace]
        ensures { result.now ≡ self.now }
    {
        &self.places
    }

    /// The same list in memory of its own.
    pub fn copy(&self) -> Result<NumberList, AllocError>
        ensures { IfOk result (λ numbers. numbers ≡ self.now) }
    {
        NumberList::of(*self.places.allocator(), &self.places)
    }
}
