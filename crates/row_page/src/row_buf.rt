//! A row that is put together.

ghost use Rattle.std.specs.Prelude.{◌≡◌, ◌+◌, ◌<◌, ◌^◌, ◌++◌, ◌∷◌, [], length, OnOk, OnErr};
ghost use Rattle.row_page.specs.Spelling.{row_length};
ghost use Rattle.row_page.specs.Views.{fields_in};

use crate::RowView;
use crate::byte_buf::ByteBuf;
use std::alloc::{AllocError, Global};
use std::marker::Model;

/// A row that is put together field by field, as one run of bytes that is used again for the next row.
/// Contracts see the list of its fields.
#[derive(Debug, Drop)]
pub struct RowBuf {
    bytes: ByteBuf,
}

impl Model for RowBuf {
    ghost use Rattle.std.specs.Prelude.{List, ℕ};
    ghost use Rattle.row_page.specs.Grammar.{IsRow};
    ghost use Rattle.row_page.specs.Reading.{fields_of};

    ghost Value = { List (List ℕ) };

    ghost view = { λ row. fields_of row.bytes };

    ghost invariant = { λ row. IsRow row.bytes (fields_of row.bytes) };
}

impl RowBuf {
    /// A row without fields.
    pub fn new(alloc: Global) -> RowBuf
        ensures { result ≡ [] }
    {
        RowBuf {
            bytes: ByteBuf::new(alloc),
        }
    }

    /// Puts a field behind the others. After an `Err` nothing changed.
    #[inline(always)]
    pub fn add(&mut self, field: &[u8]) -> Result<(), AllocError>
        requires { row_length self.old + (4 + length field.now) < 2 ^ 31 }
        ensures ok { OnOk result (self.new ≡ self.old ++ field.now ∷ []) }
        ensures err { OnErr result (self.new ≡ self.old) }
    {
        self.bytes.append_piece(field)
    }

    /// Takes all fields away, and keeps the memory for the next row.
    pub fn clear(&mut self)
        ensures { self.new ≡ [] }
    {
        self.bytes.clear();
    }

    /// The row.
    #[inline(always)]
    pub fn view(&self) -> RowView<'_>
        ensures { fields_in result ≡ self.now }
    {
        RowView::of_known(self.bytes.as_slice())
    }
}
