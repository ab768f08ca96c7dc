//! A row that is lent.

ghost use Rattle.std.specs.Prelude.{◌≡◌, ◌≢◌, ◌<◌, ◌∷◌, [], List, ℕ, length, slice_index_or, IfSome, IfNone};
ghost use Rattle.row_page.specs.Grammar.{IsRow};
ghost use Rattle.row_page.specs.Reading.{fields_of};
ghost use Rattle.row_page.specs.Spelling.{row_bytes, row_length};

use crate::piece::{are_pieces, first_piece};

/// A row as a slice of somebody's bytes, which are a row's. Contracts see the list of its fields. No
/// field is copied: each that it lends is a part of that slice.
#[derive(Clone, Copy, Debug, Drop)]
pub struct RowView<'a> {
    bytes: &'a [u8],
    ghost formed: { ∥ IsRow bytes.now (fields_of bytes.now) ∥₁ },
}

impl<'a> RowView<'a> {
    ghost use Rattle.row_page.specs.Views.{fields_in};

    /// The row whose encoding these bytes are, all of them.
    pub fn of(bytes: &'a [u8]) -> Option<RowView<'a>>
        ensures found { IfSome result (λ row. IsRow bytes.now (fields_in row)) }
        ensures none { IfNone result ((fields : List (List ℕ)) → IsRow bytes.now fields → ⊥) }
    {
        if bytes.len() > u32::MAX as usize || !are_pieces(bytes) {
            return None;
        }
        Some(RowView { bytes })
    }

    /// The row whose encoding these bytes are known to be: what `of` gives, without a look at them. Who
    /// keeps the bytes of a row that was checked lends it by this call.
    #[inline(always)]
    pub fn of_known(bytes: &'a [u8]) -> RowView<'a>
        requires { (fields : List (List ℕ)) × IsRow bytes.now fields }
        ensures row { IsRow bytes.now (fields_in result) }
        ensures only { (fields : List (List ℕ)) → IsRow bytes.now fields →
            fields_in result ≡ fields }
    {
        RowView { bytes }
    }

    /// How many fields the row has. It goes over all of them.
    pub fn count(&self) -> usize
        ensures { result ≡ length (fields_in self.now) }
    {
        let mut rest = self.bytes;
        let mut count = 0;
        while !rest.is_empty() {
            rest = first_piece(rest).1;
            count += 1;
        }
        count
    }

    /// The field at this place, from 0. It goes over the fields before it.
    #[inline(always)]
    pub fn field(&self, j: usize) -> &'a [u8]
        requires { j < length (fields_in self.now) }
        ensures { result.now ≡ slice_index_or (fields_in self.now) j [] }
    {
        let mut rest = self.bytes;
        for _ in 0..j {
            rest = first_piece(rest).1;
        }
        first_piece(rest).0
    }

    /// Both fields of a row of two, as an entry is. It goes over the row once.
    #[inline(always)]
    pub fn pair(&self) -> Option<(&'a [u8], &'a [u8])>
        ensures found { IfSome result
            (λ fields. fields_in self.now ≡ fields.0.now ∷ fields.1.now ∷ []) }
        ensures none { IfNone result (length (fields_in self.now) ≢ 2) }
    {
        if self.bytes.is_empty() {
            return None;
        }
        let (first, rest) = first_piece(self.bytes);
        if rest.is_empty() {
            return None;
        }
        let (second, rest) = first_piece(rest);
        if !rest.is_empty() {
            return None;
        }
        Some((first, second))
    }

    /// The row's encoding.
    #[inline(always)]
    pub fn bytes(&self) -> &'a [u8]
        ensures grammar { IsRow result.now (fields_in self.now) }
        ensures spelling { result.now ≡ row_bytes (fields_in self.now) }
        ensures length { length result.now ≡ row_length (fields_in self.now) }
    {
        self.bytes
    }

    /// The same row, lent once more.
    #[inline(always)]
    pub fn again(&self) -> RowView<'a>
        ensures { result ≡ self.now }
    {
        *self
    }
}
