// The folder `spill/` of real working folders: what is taken, what is refused, and that what is refused stays.
use crate::{SpillFolder, take_folder};
use std::alloc::AllocError;
use std::fs;
use std::fs::File;
use std::rt::Files;
use std::test::*;

// The number and the text of taking it; `had` where it was taken.
fn told<R: Files<File = File> + AllocGlobal + Clone + Drop>(rt: &R) -> Result<String, AllocError> {
    match take_folder(rt, 4) {
        Ok(_) => String::from_str(rt.alloc(), "had"),
        Err(fault) => {
            let number = fault.number();
            format!(in rt.alloc(); "{number} {fault}")
        }
    }
}

// Makes what a line says: `NAME/` a folder, `NAME>TARGET` a link, else a file.
fn make<R: Files>(rt: &R, line: &str) -> Result<(), Fail> {
    if let Some((name, target)) = line.split_once('>') {
        rt.symlink(target, name)?;
        return Ok(());
    }
    match line.strip_suffix('/') {
        Some(name) => fs::create_dir(rt, name)?,
        None => fs::write(rt, line, b"precious".as_slice())?,
    }
    Ok(())
}

// Whether what a line says is there.
fn stands<R: Files>(rt: &R, line: &str) -> bool {
    let name = match line.split_once('>') {
        Some((name, _)) => name,
        None => line.strip_suffix('/').unwrap_or(line),
    };
    fs::symlink_metadata(rt, name).is_ok()
}

// Makes these things in a new working folder, and takes the folder; the answer, with the things that are gone then.
fn taken<R: Files<File = File> + AllocGlobal + Clone + Drop>(
    rt: &R,
    things: &str,
) -> Result<String, Fail> {
    let _ = fs::remove_file(rt, "spill");
    let _ = fs::remove_dir_all(rt, "spill");
    let _ = fs::remove_dir_all(rt, "else");
    fs::create_dir(rt, "else")?;
    for line in things.split(' ') {
        make(rt, line)?;
    }
    let mut found = told(rt)?;
    for line in things.split(' ') {
        if !stands(rt, line) {
            found.push_str(" -")?;
            found.push_str(line)?;
        }
    }
    Ok(found)
}

// What is there, parted by blanks; then the answer.
const CASES: [[&str; 2]; 14] = [
    ["spill/", "had"],
    ["spill", "16 spill: not a directory"],
    ["spill>else", "16 spill: is a link"],
    ["spill>nowhere", "16 spill: is a link"],
    [
        "spill/ spill/lock spill/post0/ spill/post0/7",
        "had -spill/post0/7",
    ],
    [
        "spill/ spill/store/ spill/store/7",
        "16 spill: it has files and no lock, so no run made it",
    ],
    [
        "spill/ else/7 spill/lock spill/post0>../else",
        "16 spill/post0: is a link",
    ],
    [
        "spill/ else/keep spill/lock>../else/keep",
        "16 spill/lock: is a link",
    ],
    ["spill/ spill/lock/", "16 spill/lock: not a plain file"],
    [
        "spill/ spill/lock spill/post3",
        "16 spill/post3: not a directory",
    ],
    [
        "spill/ spill/lock spill/store/ spill/store/1 spill/store/2/",
        "16 spill/store/2: not a plain file",
    ],
    [
        "spill/ spill/lock spill/post1/ spill/post1/3>../lock spill/post0/ spill/post0/1",
        "16 spill/post1/3: is a link",
    ],
    [
        "spill/ spill/lock spill/12 spill/post0/ spill/post0/07 spill/post0/x",
        "had",
    ],
    ["spill/ spill/lock spill/post4/ spill/post4/7", "had"],
];

#[test]
fn a_folder_that_cannot_be_had_is_named_with_the_reason(rt: HostRuntime) -> Result<(), Fail> {
    for [things, wanted] in CASES {
        let found = taken(&rt, things)?;
        assert_eq!(rt; found.as_str(), wanted, "{things}");
    }
    Ok(())
}

// Whether a second process is told so beside a first one, and has the folder after it.
fn told_beside<R: Files<File = File> + AllocGlobal + Clone + Drop>(
    rt: &R,
    first: Result<SpillFolder, crate::SpillFault>,
) -> Result<String, AllocError> {
    let mut found = told(rt)?;
    drop(first);
    found.push_str(", then ")?;
    found.push_str(told(rt)?.as_str())?;
    Ok(found)
}

#[test]
fn a_second_process_is_told_that_the_folder_is_in_use(rt: HostRuntime) -> Result<(), Fail> {
    let _ = fs::remove_file(&rt, "spill");
    let _ = fs::remove_dir_all(&rt, "spill");
    let found = told_beside(&rt, take_folder(&rt, 4))?;
    assert_eq!(rt;
        found.as_str(),
        "16 spill: another run is using it, then had"
    );
    Ok(())
}
