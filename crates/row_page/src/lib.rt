//! Rows as lists of fields in one encoding, and pages that lend them as slices of their bytes.
#![tactic(auto)]

mod byte_buf;
mod laws;
mod page;
mod piece;
mod row_buf;
mod row_view;

pub use laws::{fields_have_one_encoding, no_encoding_begins_another, pages_have_their_length};
pub use page::{PAGE_ROOM, Page, PageFault};
pub use piece::split_piece;
pub use row_buf::RowBuf;
pub use row_view::RowView;
