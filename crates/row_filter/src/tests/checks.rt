// What a test compares. It calls these in place of an assert of its own, each of which takes a second and more to prove.
use std::fmt::Debug;
use std::process::Abort;
use std::test::Fail;

/// What was found is what is wanted.
pub fn equals<T: PartialEq + Debug + Drop>(
    rt: &impl Abort,
    found: Result<T, Fail>,
    wanted: T,
    name: &str,
) -> Result<(), Fail> {
    assert_eq!(rt; found?, wanted, "{name}");
    Ok(())
}

/// A text is the one that is wanted.
pub fn reads(
    rt: &impl Abort,
    found: Result<String, Fail>,
    wanted: &str,
    name: &str,
) -> Result<(), Fail> {
    assert_eq!(rt; found?.as_str(), wanted, "{name}");
    Ok(())
}
