// Plans of whole jobs: their texts and their passes, worked by hand.
use crate::tests::plans::plan_over;
use job_plan::Plan;
use row_form::Form;
use std::alloc::{AllocError, Global};
use std::test::Fail;

/// The job of a trial.
pub const TRIAL: &str = "\
    let pos = input where price >= 0 keep disk; let high = pos where price >= 500; \
    group key: count, sum price from pos; order number price down: key, price from pos; \
    group key: min price, max price from high; group key: count";

const TRIAL_PLAN: &str = "\
columns key,price
pass 0 pos queries 0,1
pass 1 high queries 2
remove pos after 1
pass 2 input queries 3
";

// Eight datasets and eight queries.
const WIDE: &str = "\
    let d1 = input where c1 = 1 keep memory; let d2 = d1 keep disk; let d3 = d1 where c2 = 'x'; \
    let d4 = d3 keep memory; let d5 = input; let d6 = d5 where not (c2 = 'y' or c3 < 5) keep disk; \
    let d7 = d4 keep disk; let d8 = d7; \
    group c1: count from d8; group c1: count from d2; group c1: count; group c1: count from d8; \
    group c1: count from d6; group c1: count from d3; group c1: count from d2; group c1: count from d5";

const WIDE_PLAN: &str = "\
columns c3,c2,c1
pass 0 d8 queries 0,3
remove d4 after 0
remove d7 after 0
pass 1 d2 queries 1,6
remove d2 after 1
pass 2 input queries 2
pass 3 d6 queries 4
remove d6 after 3
pass 4 d3 queries 5
remove d1 after 4
pass 5 d5 queries 7
";

// Of two kept datasets no pass goes over the second, nor over one that derives from it.
const UNUSED: &str = "\
    let a = input keep memory; let b = input where x > 0 keep disk; group x: count from a";

const UNUSED_PLAN: &str = "\
columns x
pass 0 a queries 0
remove a after 0
";

// A column that isn't a word, one with quotes, and one that is a reserved word.
const QUOTED: &str = "\
    group \"a b\": count, sum \"say \"\"x\"\"\"; order \"group\": \"group\", ok";

const QUOTED_PLAN: &str = "\
columns \"a b\",ok,\"say \"\"x\"\"\",\"group\"
pass 0 input queries 0,1
";

#[test]
fn a_plan_is_printed_line_by_line(rt: HostRuntime) -> Result<(), Fail> {
    let alloc = rt.alloc();
    for (job, columns, wanted) in [
        (TRIAL, "key,price", TRIAL_PLAN),
        (TRIAL, "price,id,key", "columns price,key"),
        (WIDE, "c3,c2,no,c1", WIDE_PLAN),
        (UNUSED, "x", UNUSED_PLAN),
        (QUOTED, "a b,ok,say \"x\",group", QUOTED_PLAN),
    ] {
        let text = plan_over(alloc, job, columns)??.print(alloc)?;
        assert!(rt; text.as_str().starts_with(wanted), "{job}: {text}");
        let is_whole = !wanted.ends_with('\n') || text.len() == wanted.len();
        assert!(rt; is_whole, "{job}: {text}");
    }
    Ok(())
}

// Of each pass its dataset, its queries, what is removed after it, and its final task of ten partitions.
fn passes_of(alloc: Global, plan: &Plan) -> Result<String, AllocError> {
    let mut told = String::new(alloc);
    for pass in 0..plan.passes() {
        let dataset = plan.dataset(pass);
        let queries = plan.queries(pass);
        let removed = plan.removed(pass);
        let task = plan.task(10, pass, 10);
        write!(told, "{dataset} {queries:?} {removed:?} {task};")?;
    }
    Ok(told)
}

#[test]
fn calls_tell_of_each_pass_what_its_line_does(rt: HostRuntime) -> Result<(), Fail> {
    let alloc = rt.alloc();
    let plan = plan_over(alloc, TRIAL, "key,price")??;
    assert_eq!(rt;
        passes_of(alloc, &plan)?.as_str(),
        "1 [0, 1] [] 10;2 [2] [1] 21;0 [3] [] 32;"
    );
    let text = plan.print(alloc)?;
    let plan = plan.based(4096, 500);
    assert_eq!(rt;
        passes_of(alloc, &plan)?.as_str(),
        "1 [0, 1] [] 510;2 [2] [1] 521;0 [3] [] 532;"
    );
    assert_eq!(rt; plan.chain().base(), 4096);
    assert_eq!(rt;
        plan.print(alloc)?.as_str(),
        text.as_str(),
        "the text is the same"
    );
    Ok(())
}

// The number columns of a plan, as their places among the kept ones, a value column with a `?` behind it.
fn numbers_of(alloc: Global, plan: &Plan) -> Result<String, AllocError> {
    let Form::Landed { columns, numbers } = plan.chain().form() else {
        return String::from_str(alloc, "entries");
    };
    let mut text = format!(in alloc; "{columns}")?;
    for place in numbers.items() {
        let mark = if place.value { "?" } else { "" };
        text.push_str(&format!(in alloc; " {}{mark}", place.column)?)?;
    }
    Ok(text)
}

#[test]
fn a_column_that_a_filter_compares_with_a_number_is_a_number(rt: HostRuntime) -> Result<(), Fail> {
    let alloc = rt.alloc();
    for (job, columns, wanted) in [
        (WIDE, "c3,c2,no,c1", "3 0 2"),
        (TRIAL, "key,price", "2 1"),
        (UNUSED, "x", "1 0"),
        ("let a = input where x = '1'; group y: count", "x,y", "2"),
    ] {
        let plan = plan_over(alloc, job, columns)??;
        assert_eq!(rt; numbers_of(alloc, &plan)?.as_str(), wanted, "{job}");
    }
    Ok(())
}

#[test]
fn a_number_column_that_is_only_told_is_a_value_column(rt: HostRuntime) -> Result<(), Fail> {
    let alloc = rt.alloc();
    for (job, columns, wanted) in [
        ("group y: count, sum x", "y,x", "2 1?"),
        ("group x: sum x", "x", "1 0?"),
        (
            "group y: min x, max x, sum z; order number z: y",
            "z,y,x",
            "3 0 2?",
        ),
        ("let a = input where x > 0; group y: sum x", "x,y", "2 0"),
        (
            "let a = input where x = '1'; group y: sum x from a",
            "x,y",
            "2 0?",
        ),
        ("group y: sum x; order x: y", "x,y", "2 0?"),
    ] {
        let plan = plan_over(alloc, job, columns)??;
        assert_eq!(rt; numbers_of(alloc, &plan)?.as_str(), wanted, "{job}");
    }
    Ok(())
}

fn derives(plan: &Plan, dataset: u32, from: u32) -> Result<bool, Fail> {
    let chain = plan.chain();
    if dataset > chain.datasets() {
        return Err("no such dataset".into());
    }
    Ok(chain.derives(dataset, from))
}

#[test]
fn a_dataset_derives_from_those_that_it_is_made_of(rt: HostRuntime) -> Result<(), Fail> {
    let plan = plan_over(rt.alloc(), WIDE, "c1,c2,c3")??;
    for (dataset, from, wanted) in [
        (8, 1, true),
        (8, 4, true),
        (8, 2, false),
        (3, 4, false),
        (6, 1, false),
        (6, 5, true),
        (2, 2, true),
        (7, 0, true),
    ] {
        assert_eq!(rt;
            derives(&plan, dataset, from)?,
            wanted,
            "{dataset} from {from}"
        );
    }
    Ok(())
}
