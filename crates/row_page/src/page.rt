//! Rows in one run of bytes, with a bound on it.

ghost use Rattle.std.specs.Prelude.{◌≡◌, ◌+◌, ◌<◌, ◌≤◌, ◌^◌, ◌++◌, ◌∷◌, ◌↔◌, [], List, ℕ, length, slice_index_or, IsTrue, IfOk, IfSome, IfNone, OnOk, OnErr, Err};
ghost use Rattle.row_page.specs.declared.page.PageFault.TheVariants.{NoMemory};
ghost use Rattle.row_page.specs.Grammar.{IsPage, HasRows};
ghost use Rattle.row_page.specs.Pages.{HasPlaces};
ghost use Rattle.row_page.specs.Reading.{rows_of};
ghost use Rattle.row_page.specs.Spelling.{with_length, page_bytes, page_length, page_cost, row_bytes, row_length};
ghost use Rattle.row_page.specs.Views.{fields_in};

use crate::RowView;
use crate::byte_buf::ByteBuf;
use crate::piece::{LENGTH_BYTES, are_pieces, first_piece, split_piece};
use std::alloc::{AllocError, Global};
use std::marker::Model;
use thiserror::Error;

/// The room of a page that rows are landed, spilled and merged by, in bytes.
pub const PAGE_ROOM: u64 = 262_144;

/// Why a page didn't take a row. The page is then as it was.
#[derive(Clone, Copy, Debug, PartialEq, Eq, Error)]
pub enum PageFault {
    #[error("the row passes the page's room")]
    Full,
    #[error("out of memory")]
    NoMemory,
}

impl From<AllocError> for PageFault {
    ghost from_gives = { λ _ fault. fault ≡ NoMemory };

    fn from(_refused: AllocError) -> PageFault {
        PageFault::NoMemory
    }
}

/// Rows with their lengths in one run of bytes, which has a bound: the unit that is written, and a
/// block's content. Contracts see the list of its rows, each the list of its fields, and its room.
#[derive(Debug, Drop)]
pub struct Page {
    bytes: ByteBuf,
    starts: Vec<usize>,
    room: u64,
}

impl Model for Page {
    ghost use Rattle.row_page.specs.Pages.{PageView, IsSound};
    ghost use Rattle.row_page.specs.Reading.{rows_of};

    ghost Value = { PageView };

    ghost view = { λ page. record { rows = rows_of page.bytes; room = page.room } };

    ghost invariant = { λ page. IsSound page.starts.items page.bytes page.room
        (rows_of page.bytes) };
}

impl Page {
    /// A page without rows. The room is in bytes, lengths included.
    pub fn new(alloc: Global, room: u64) -> Page
        requires { room ≤ 2 ^ 40 }
        ensures { result ≡ record { rows = []; room = room } }
    {
        Page {
            bytes: ByteBuf::new(alloc),
            starts: Vec::new(alloc),
            room,
        }
    }

    /// The page that these bytes are, with this room: a block that is read back from its copy. `None`
    /// where the bytes are no page's, or pass the room. An `Err` is want of memory.
    pub fn read(alloc: Global, bytes: Vec<u8>, room: u64) -> Result<Option<Page>, AllocError>
        requires { room ≤ 2 ^ 40 }
        ensures found { IfOk result (λ read. IfSome read (λ page. IsPage bytes.items page.rows
            × (page.room ≡ room))) }
        ensures none { IfOk result (λ read. IfNone read
            ((rows : List (List (List ℕ))) → IsPage bytes.items rows → room < length bytes.items)) }
    {
        if bytes.len() as u64 > room {
            return Ok(None);
        }
        let Some(starts) = places_of(alloc, &bytes)? else {
            return Ok(None);
        };
        Ok(Some(Page {
            bytes: ByteBuf::of(bytes),
            starts,
            room,
        }))
    }

    /// The page that these bytes are known to be, with this room: what `read` gives, without a look at each
    /// row's fields. Memory for the places of `count` rows is taken at once. An `Err` is want of memory.
    pub fn read_known(
        alloc: Global,
        bytes: Vec<u8>,
        count: usize,
        room: u64,
    ) -> Result<Page, AllocError>
        requires known { HasRows bytes.items }
        requires fits { length bytes.items ≤ room }
        requires room { room ≤ 2 ^ 40 }
        ensures { IfOk result (λ page. IsPage bytes.items page.rows × (page.room ≡ room)) }
    {
        let starts = known_places(alloc, &bytes, count)?;
        Ok(Page {
            bytes: ByteBuf::of(bytes),
            starts,
            room,
        })
    }

    /// How many rows the page has.
    pub fn rows(&self) -> usize
        ensures { result ≡ length self.now.rows }
    {
        self.starts.len()
    }

    /// What the page costs as a block in memory, in bytes: 64, and for each row 32 and its encoding.
    pub fn cost(&self) -> u64
        ensures { result ≡ page_cost self.now.rows }
    {
        64 + self.bytes.len() as u64 + 28 * self.starts.len() as u64
    }

    /// The page's bytes: each row's encoding behind its length.
    pub fn bytes(&self) -> &[u8]
        ensures grammar { IsPage result.now self.now.rows }
        ensures spelling { result.now ≡ page_bytes self.now.rows }
        ensures length { length result.now ≡ page_length self.now.rows }
        ensures fits { page_length self.now.rows ≤ self.now.room }
        ensures small { self.now.room ≤ 2 ^ 40 }
    {
        self.bytes.as_slice()
    }

    /// The row at this place, from 0, as a slice of the page's bytes.
    #[inline(always)]
    pub fn row(&self, i: usize) -> RowView<'_>
        requires { i < length self.now.rows }
        ensures { fields_in result ≡ slice_index_or self.now.rows i [] }
    {
        let start = self.starts[i];
        RowView::of_known(first_piece(&self.bytes.as_slice()[start..]).0)
    }

    /// Puts a row behind the others. `Full` comes exactly where the page's bytes with this row pass the
    /// room. After an `Err` nothing changed.
    #[inline(always)]
    pub fn push(&mut self, row: RowView<'_>) -> Result<(), PageFault>
        ensures ok { OnOk result
            (self.new ≡ record self.old { rows = self.old.rows ++ fields_in row.entry ∷ [] }) }
        ensures err { OnErr result (self.new ≡ self.old) }
        ensures full { (result ≡ Err PageFault.Full)
            ↔ (self.old.room < page_length self.old.rows + (4 + row_length (fields_in row.entry))) }
    {
        let piece = row.bytes();
        if self.room < (self.bytes.len() + LENGTH_BYTES + piece.len()) as u64 {
            return Err(PageFault::Full);
        }
        add_piece(&mut self.starts, &mut self.bytes, piece)?;
        Ok(())
    }

    /// Puts the row of two fields behind the others, as `push` would: an entry's key and its value need no
    /// row that is put together first.
    pub fn push_pair(&mut self, first: &[u8], second: &[u8]) -> Result<(), PageFault>
        requires short { row_length (first.now ∷ second.now ∷ []) < 2 ^ 32 }
        ensures ok { OnOk result (self.new ≡ record self.old {
          rows = self.old.rows ++ (first.now ∷ second.now ∷ []) ∷ [];
        }) }
        ensures err { OnErr result (self.new ≡ self.old) }
        ensures full { (result ≡ Err PageFault.Full)
            ↔ (self.old.room < page_length self.old.rows + (4 + row_length (first.now ∷ second.now ∷ []))) }
    {
        let row = 2 * LENGTH_BYTES + first.len() + second.len();
        if self.room < (self.bytes.len() + LENGTH_BYTES + row) as u64 {
            return Err(PageFault::Full);
        }
        add_pair(&mut self.starts, &mut self.bytes, first, second)?;
        Ok(())
    }

    /// Takes all rows away, and keeps the memory for the next rows.
    pub fn clear(&mut self)
        ensures { self.new ≡ record self.old { rows = [] } }
    {
        self.bytes.clear();
        self.starts.clear();
    }
}

/// Puts a piece behind the bytes, and its place behind the places.
#[inline(always)]
fn add_piece(starts: &mut Vec<usize>, bytes: &mut ByteBuf, piece: &[u8]) -> Result<(), AllocError>
    requires { length piece.now < 2 ^ 32 }
    ensures bytes { OnOk result (bytes.new ≡ bytes.old ++ with_length piece.now) }
    ensures starts { OnOk result (starts.new.items ≡ starts.old.items ++ length bytes.old ∷ []) }
    ensures bytes_err { OnErr result (bytes.new ≡ bytes.old) }
    ensures starts_err { OnErr result (starts.new.items ≡ starts.old.items) }
{
    let places = starts.len();
    starts.push(bytes.len())?;
    if let Err(refused) = bytes.append_piece(piece) {
        starts.truncate(places);
        return Err(refused);
    }
    Ok(())
}

/// Puts the row of two fields behind the bytes, and its place behind the places.
fn add_pair(
    starts: &mut Vec<usize>,
    bytes: &mut ByteBuf,
    first: &[u8],
    second: &[u8],
) -> Result<(), AllocError>
    requires { row_length (first.now ∷ second.now ∷ []) < 2 ^ 32 }
    ensures bytes { OnOk result (bytes.new ≡ bytes.old ++ with_length (row_bytes (first.now ∷ second.now ∷ []))) }
    ensures starts { OnOk result (starts.new.items ≡ starts.old.items ++ length bytes.old ∷ []) }
    ensures bytes_err { OnErr result (bytes.new ≡ bytes.old) }
    ensures starts_err { OnErr result (starts.new.items ≡ starts.old.items) }
{
    let places = starts.len();
    starts.push(bytes.len())?;
    if let Err(refused) = bytes.append_pair(first, second) {
        starts.truncate(places);
        return Err(refused);
    }
    Ok(())
}

/// Where each row of a page begins, with its length. `None` where the bytes are no page's.
fn places_of(alloc: Global, bytes: &[u8]) -> Result<Option<Vec<usize>>, AllocError>
    ensures page { IfOk result (λ read. IfSome read (λ starts. HasRows bytes.now)) }
    ensures count { IfOk result (λ read. IfSome read
        (λ starts. length starts.items ≡ length (rows_of bytes.now))) }
    ensures places { IfOk result (λ read. IfSome read
        (λ starts. HasPlaces starts.items bytes.now (rows_of bytes.now))) }
    ensures none { IfOk result (λ read. IfNone read (HasRows bytes.now → ⊥)) }
{
    let mut starts = Vec::new(alloc);
    let mut at = 0;
    while at < bytes.len() {
        let Some((row, _)) = split_piece(&bytes[at..]) else {
            return Ok(None);
        };
        if !are_pieces(row) {
            return Ok(None);
        }
        starts.push(at)?;
        at += LENGTH_BYTES + row.len();
    }
    Ok(Some(starts))
}

/// Where each row of a page begins, with its length, of bytes that are a page's.
fn known_places(alloc: Global, bytes: &[u8], count: usize) -> Result<Vec<usize>, AllocError>
    requires { HasRows bytes.now }
    ensures count { IfOk result (λ starts. length starts.items ≡ length (rows_of bytes.now)) }
    ensures places { IfOk result (λ starts. HasPlaces starts.items bytes.now (rows_of bytes.now)) }
{
    let mut starts = Vec::with_capacity(alloc, count)?;
    let mut at = 0;
    while at < bytes.len() {
        let Some((encoding, _)) = split_piece(&bytes[at..]) else {
            unreachable!()
        };
        starts.push(at)?;
        at += LENGTH_BYTES + encoding.len();
    }
    Ok(starts)
}
