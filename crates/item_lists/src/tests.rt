// A type that holds lists and boxes of itself, and what is handed in and given back.
ghost use Rattle.std.specs.Prelude.{◌≡◌};
ghost use Rattle.item_lists.specs.declared.tests.Filter.TheVariants as variants;

use crate::{Boxed, Listed, Name};
use std::test::Fail;

/// What a number has to meet.
#[derive(Drop)]
enum Filter {
    Test(u32),
    And(Listed<Filter>),
    Not(Boxed<Filter>),
}

fn all_of(parts: Vec<Filter>) -> Filter
    ensures { result ≡ variants.And parts.items }
{
    Filter::And(Listed::of(parts))
}

fn none_of(part: Box<Filter>) -> Filter
    ensures { result ≡ variants.Not part.value }
{
    Filter::Not(Boxed::of(part))
}

fn passes(filter: &Filter, number: u32) -> bool {
    match filter {
        Filter::Test(wanted) => number == *wanted,
        Filter::And(parts) => {
            for part in parts.items() {
                if !passes(part, number) {
                    return false;
                }
            }
            true
        }
        Filter::Not(part) => !passes(part.value(), number),
    }
}

#[test]
fn a_filter_that_holds_filters_is_walked(rt: HostRuntime) -> Result<(), Fail> {
    let four = Filter::Test(4);
    assert!(rt; passes(&four, 4), "a test of its number");
    assert!(rt; !passes(&four, 5), "a test of another number");

    let no_four = none_of(Box::new(rt.alloc(), four)?);
    let no_five = none_of(Box::new(rt.alloc(), Filter::Test(5))?);
    let neither = all_of(Vec::from_array(rt.alloc(), [no_four, no_five])?);
    for (number, passed) in [(3, true), (4, false), (5, false), (6, true)] {
        assert_eq!(rt; passes(&neither, number), passed, "neither, of {number}");
    }

    let either = none_of(Box::new(rt.alloc(), neither)?);
    for (number, passed) in [(3, false), (4, true), (5, true), (6, false)] {
        assert_eq!(rt; passes(&either, number), passed, "either, of {number}");
    }

    let all = all_of(Vec::new(rt.alloc()));
    assert!(rt; passes(&all, 0), "no part is left to fail");
    Ok(())
}

#[test]
fn items_come_back_in_the_memory_that_they_had(rt: HostRuntime) -> Result<(), Fail> {
    let mut items = Vec::with_capacity(rt.alloc(), 8)?;
    for item in [3, 1, 2] {
        items.push(item)?;
    }
    let room = items.capacity();
    let list = Listed::of(items);
    assert_eq!(rt; list.items(), [3, 1, 2].as_slice(), "lent");
    let items = list.into_items();
    assert_eq!(rt; items.as_slice(), [3, 1, 2].as_slice(), "given back");
    assert_eq!(rt; items.capacity(), room, "not copied");
    Ok(())
}

#[test]
fn a_name_lends_its_text(rt: HostRuntime) -> Result<(), Fail> {
    for text in ["price", "Tromsø", ""] {
        let name = Name::of(String::from_str(rt.alloc(), text)?);
        assert_eq!(rt; name.text(), text);
    }
    Ok(())
}
