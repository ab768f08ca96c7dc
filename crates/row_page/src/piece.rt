//! Pieces of bytes, each behind its length.

ghost use Rattle.std.specs.Prelude.{◌<◌, ◌↔◌, List, ℕ, length, IsTrue, IfSome, IfNone};
ghost use Rattle.row_page.specs.Grammar.{HasPieces, IsPieceThen};

/// How many bytes a length has.
pub(crate) const LENGTH_BYTES: usize = 4;

/// The piece at the front, without its length, and what stands behind it. The readers of rows, pages and
/// run files go from piece to piece by this call.
#[inline(always)]
pub fn split_piece(bytes: &[u8]) -> Option<(&[u8], &[u8])>
    ensures found { IfSome result (λ parts. IsPieceThen bytes.now parts.0.now parts.1.now) }
    ensures none { IfNone result ((piece behind : List ℕ) → IsPieceThen bytes.now piece behind → ⊥) }
{
    if bytes.len() < LENGTH_BYTES {
        return None;
    }
    let (front, behind) = bytes.split_at(LENGTH_BYTES);
    let length = u32::from_be_bytes([front[0], front[1], front[2], front[3]]) as usize;
    if behind.len() < length {
        return None;
    }
    Some(behind.split_at(length))
}

/// The piece at the front and what stands behind it, of bytes that have pieces.
#[inline(always)]
pub(crate) fn first_piece(bytes: &[u8]) -> (&[u8], &[u8])
    requires pieces { HasPieces bytes.now }
    requires some { 0 < length bytes.now }
    ensures { IsPieceThen bytes.now result.0.now result.1.now }
{
    let Some(parts) = split_piece(bytes) else {
        unreachable!()
    };
    parts
}

/// Whether the bytes are pieces, one behind the other, and nothing else.
pub(crate) fn are_pieces(bytes: &[u8]) -> bool
    ensures { IsTrue result ↔ HasPieces bytes.now }
{
    let mut rest = bytes;
    while !rest.is_empty() {
        let Some((_, behind)) = split_piece(rest) else {
            return false;
        };
        rest = behind;
    }
    true
}
