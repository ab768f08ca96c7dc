// Chains and filters.
ghost use Rattle.std.specs.Prelude.{◌≡◌, length, IfOk};
ghost use Rattle.row_filter.specs.Chains.{links_of};

mod checks;
mod filters;
mod keeping;
mod moving;
mod selecting;

use crate::tests::checks::equals;
use crate::{Chain, Comparison, Constant, Filter, Link};
use item_lists::{Boxed, Listed, Name};
use pool_ledger::Level;
use row_form::{Form, NumberList, NumberPlace};
use std::alloc::{AllocError, Global};
use std::test::Fail;

// Rows whose column 0 isn't `a`, and whose column 1 is 7 or more.
fn both(alloc: Global) -> Result<Filter, AllocError> {
    let text = Filter::Test {
        column: 0,
        test: Comparison::Equal,
        constant: Constant::Text(Name::of(String::from_str(alloc, "a")?)),
    };
    let number = Filter::Test {
        column: 1,
        test: Comparison::AtLeast,
        constant: Constant::Number(7),
    };
    let mut parts = Vec::new(alloc);
    parts.push(Filter::Not(Boxed::of(Box::new(alloc, text)?)))?;
    parts.push(number)?;
    Ok(Filter::And(Listed::of(parts)))
}

// How many tests a filter has.
fn tests_in(filter: &Filter) -> usize {
    match filter {
        Filter::Test { .. } => 1,
        Filter::Not(inner) => tests_in(inner.value()),
        Filter::And(parts) | Filter::Or(parts) => parts.items().len(),
    }
}

// Dataset 1 of two tests, which is kept on disk, and dataset 2, which is derived from it.
fn chain(alloc: Global) -> Result<Chain, Fail>
    ensures { IfOk result (λ chain. length (links_of chain) ≡ 2) }
{
    let mut links = Vec::new(alloc);
    links.push(Link {
        parent: 0,
        filter: Some(both(alloc)?),
        level: Some(Level::Disk),
    })?;
    links.push(Link {
        parent: 1,
        filter: None,
        level: None,
    })?;
    let form = Form::Landed {
        columns: 2,
        numbers: NumberList::of(
            alloc,
            &[NumberPlace {
                column: 1,
                value: false,
            }],
        )?,
    };
    Ok(Chain::of(Listed::of(links), form))
}

// The base of a chain, that of the chain which is based on 4096, and how many datasets that has.
fn bases(alloc: Global) -> Result<[u64; 3], Fail> {
    let chain = chain(alloc)?;
    let base = u64::from(chain.base());
    let chain = chain.based(4096);
    Ok([base, u64::from(chain.base()), u64::from(chain.datasets())])
}

// A dataset's parent, its level, and how many tests its filter has.
fn link(alloc: Global, dataset: u32) -> Result<(u32, Option<Level>, usize), Fail> {
    let chain = chain(alloc)?.based(4096);
    if dataset < 1 || dataset > chain.datasets() {
        return Err("no such dataset".into());
    }
    let tests = chain.filter(dataset).map_or(0, |filter| tests_in(filter));
    Ok((chain.parent(dataset), chain.level(dataset), tests))
}

// Whether dataset 0, the rows as they land, has neither a filter nor a level.
fn lands(alloc: Global) -> Result<bool, Fail> {
    let chain = chain(alloc)?.based(4096);
    Ok(chain.filter(0).is_none() && chain.level(0).is_none())
}

#[test]
fn a_chain_gives_back_what_it_was_made_of(rt: HostRuntime) -> Result<(), Fail> {
    equals(&rt, bases(rt.alloc()), [0, 4096, 2], "bases")?;
    equals(
        &rt,
        link(rt.alloc(), 1),
        (0, Some(Level::Disk), 2),
        "dataset 1",
    )?;
    equals(&rt, link(rt.alloc(), 2), (1, None, 0), "dataset 2")?;
    equals(&rt, lands(rt.alloc()), true, "dataset 0")
}
