// The numbers and texts of statuses.
use crate::tests::running::told;
use aggregate::Key;
use item_lists::Name;
use job_ending::Status;
use std::test::Fail;

#[test]
fn each_status_has_its_number_and_text(rt: HostRuntime) -> Result<(), Fail> {
    let alloc = rt.alloc();
    let column = Name::of(String::from_str(alloc, "net price")?);
    let key = Key::of(b"Oslo\x00\x00".to_vec(alloc)?);
    let mut cases = Vec::new(alloc);
    cases.push((Status::Done, "0 "))?;
    cases.push((
        Status::BadWords,
        "2 usage: run [options] JOB, plan JOB, audit, trial [options] N",
    ))?;
    cases.push((Status::BadJob { place: 7 }, "3 job: error at byte 7"))?;
    cases.push((Status::HeapTooSmall, "4 heap too small for the reserve"))?;
    cases.push((Status::NoHeader, "5 input has no header"))?;
    cases.push((Status::NoColumn { column }, "6 no column net price"))?;
    cases.push((Status::Ragged { row: 3 }, "7 row 3: wrong number of fields"))?;
    cases.push((Status::RowTooLong { row: 0 }, "8 row 0: too long"))?;
    cases.push((
        Status::BadNumber { row: 4, column: 1 },
        "9 row 4 column 1: not a number",
    ))?;
    cases.push((Status::TooManyRows, "10 too many rows"))?;
    cases.push((
        Status::SumTooWide { query: 0, key },
        "11 query 0: a sum is too wide",
    ))?;
    cases.push((
        Status::NoRoom {
            asked: 3073,
            held: 1024,
            floor: 2048,
        },
        "12 no room: asked 3073, held 1024, floor 2048",
    ))?;
    cases.push((Status::ReadFault, "13 input failed"))?;
    cases.push((Status::WriteFault, "14 output failed"))?;
    cases.push((Status::JournalFault, "15 journal failed"))?;
    cases.push((Status::DiskFault { post: 2 }, "16 disk of post 2 failed"))?;
    cases.push((
        Status::Damaged {
            post: 1,
            file: 9,
            kept: 8,
            found: 5,
        },
        "17 disk of post 1 file 9: 8 entries kept, 5 found",
    ))?;
    cases.push((Status::NoMemory, "18 out of memory"))?;
    for (status, text) in &cases {
        assert_eq!(rt; told(alloc, status)?.as_str(), *text);
    }
    Ok(())
}
