use row_page::{Page, PageFault, RowBuf, RowView, split_piece};
use std::test::Fail;

const ROW: [u8; 10] = [0, 0, 0, 2, b'a', b'b', 0, 0, 0, 0];

const PAGE: [u8; 14] = [0, 0, 0, 10, 0, 0, 0, 2, b'a', b'b', 0, 0, 0, 0];

#[test]
fn a_row_of_two_fields_has_ten_bytes_and_a_page_takes_it_whole(
    rt: HostRuntime,
) -> Result<(), Fail> {
    let mut row = RowBuf::new(rt.alloc());
    row.add(b"ab")?;
    row.add(b"")?;
    assert_eq!(rt; row.view().bytes(), ROW.as_slice());
    assert_eq!(rt; row.view().count(), 2);

    let mut small = Page::new(rt.alloc(), 13);
    assert_eq!(rt; small.push(row.view()), Err(PageFault::Full));
    assert_eq!(rt; small.rows(), 0, "a refused row isn't there");

    let mut page = Page::new(rt.alloc(), 14);
    assert_eq!(rt; page.push(row.view()), Ok(()));
    assert_eq!(rt; page.bytes(), PAGE.as_slice());
    assert_eq!(rt; page.cost(), 106);
    row.clear();
    assert_eq!(rt; page.push(row.view()), Err(PageFault::Full));
    page.clear();
    assert_eq!(rt;
        page.push(row.view()),
        Ok(()),
        "a row without fields takes its length alone"
    );
    assert_eq!(rt; page.bytes(), [0u8; 4].as_slice());
    Ok(())
}

#[test]
fn a_pair_is_put_as_the_row_of_its_two_fields(rt: HostRuntime) -> Result<(), Fail> {
    let mut page = Page::new(rt.alloc(), 14);
    assert_eq!(rt; page.push_pair(b"abc", b""), Err(PageFault::Full));
    assert_eq!(rt; page.push_pair(b"ab", b""), Ok(()));
    assert_eq!(rt; page.bytes(), PAGE.as_slice());
    Ok(())
}

#[test]
fn a_row_of_two_fields_lends_both(rt: HostRuntime) -> Result<(), Fail> {
    let row = RowView::of(&ROW).ok_or("these are a row's bytes")?;
    let (first, second) = row.pair().ok_or("the row has two fields")?;
    assert_eq!(rt; first, b"ab".as_slice());
    assert_eq!(rt; second, b"".as_slice());
    let short = RowView::of(&ROW[..6]).ok_or("the first field is a row too")?;
    assert!(rt; short.pair().is_none(), "one field is no pair");
    Ok(())
}

#[test]
fn a_page_that_is_read_back_lends_its_rows(rt: HostRuntime) -> Result<(), Fail> {
    let read = Page::read(rt.alloc(), PAGE.to_vec(rt.alloc())?, 14)?;
    let page = read.ok_or("these are a page's bytes")?;
    assert_eq!(rt; page.rows(), 1);
    assert_eq!(rt; page.cost(), 106);
    if page.rows() == 1 {
        let row = page.row(0);
        assert_eq!(rt; row.bytes(), ROW.as_slice());
        assert_eq!(rt; row.again().count(), 2);
        if row.count() == 2 {
            assert_eq!(rt; row.field(0), b"ab".as_slice());
            assert_eq!(rt; row.field(1), b"".as_slice());
        }
    }
    Ok(())
}

#[test]
fn the_bytes_of_a_page_are_known_to_be_one(rt: HostRuntime) -> Result<(), Fail> {
    let mut page = Page::new(rt.alloc(), 40);
    assert_eq!(rt; page.push_pair(b"ab", b""), Ok(()));
    assert_eq!(rt; page.push_pair(b"", b"c"), Ok(()));
    let again = Page::read_known(rt.alloc(), page.bytes().to_vec(rt.alloc())?, 2, 40)?;
    assert_eq!(rt; again.rows(), 2);
    assert_eq!(rt; again.bytes(), page.bytes());
    Ok(())
}

#[test]
fn bytes_outside_the_grammar_are_no_row_and_no_page(rt: HostRuntime) -> Result<(), Fail> {
    assert!(rt; RowView::of(&ROW).is_some());
    assert!(rt; RowView::of(&[]).is_some(), "a row without fields is empty");
    assert!(rt;
        RowView::of(&ROW[..9]).is_none(),
        "the last length is short"
    );
    assert!(rt;
        RowView::of(&ROW[..5]).is_none(),
        "a field is one byte short"
    );
    assert!(rt; RowView::of(&PAGE[4..13]).is_none());

    let short = Page::read(rt.alloc(), PAGE[..13].to_vec(rt.alloc())?, 100)?;
    assert!(rt; short.is_none(), "the last row is one byte short");
    let long = Page::read(rt.alloc(), PAGE.to_vec(rt.alloc())?, 13)?;
    assert!(rt; long.is_none(), "the bytes pass the room");
    let empty = Page::read(rt.alloc(), Vec::new(rt.alloc()), 0)?;
    assert!(rt; empty.is_some(), "no bytes are a page without rows");
    Ok(())
}
