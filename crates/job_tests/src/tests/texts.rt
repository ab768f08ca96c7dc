// Where texts are refused, and how jobs are printed.
use crate::tests::jobs::{job_of, print_job};
use job_text::JobFault;
use std::alloc::{AllocError, Global};
use std::test::Fail;

// The place at which a text is refused; None where it is read.
fn refused_at(alloc: Global, text: &str) -> Result<Option<u32>, JobFault> {
    match job_of(alloc, text) {
        Ok(_job) => Ok(None),
        Err(JobFault::BadJob { place }) => Ok(Some(place)),
        Err(JobFault::NoMemory) => Err(JobFault::NoMemory),
    }
}

// The job of a text, printed.
fn printed(alloc: Global, text: &str) -> Result<String, Fail> {
    let job = job_of(alloc, text)?;
    Ok(print_job(alloc, &job)?)
}

// A place, and the text that is refused there.
const REFUSED: &str = "\
    0 \n\
    5 group\n\
    11 group city count\n\
    11 group city:\n\
    23 group city: count from x\n\
    9 group a, a: count\n\
    23 group a, b: sum a, sum a\n\
    16 group a: count, count\n\
    27 order number x down, y: z, z\n\
    20 group a: sum b;group\n\
    15 group a: count;\n\
    9 group \"a\"\"\n\
    20 group a: count from x\n\
    13 order number number: x\n\
    15 group a: count 'x\n\
    28 group a, b, c, d, e, f, g, h, i: count\n\
    20 group a: count , sum\n\
    11 order a: b $\n\
    15 group a: count let b = input\n\
    6 group 7: count\n\
    13 group a: sum -7\n\
    13 group a: sum -\n\
    9 group k, \"k\": count\n\
    8 let a = a; group x: count\n\
    19 let a = input; let a = input; group x: count\n\
    35 let a = input; group x: count from b\n\
    8 let a = b; group x: count\n\
    4 let count = input\n\
    4 let \"a\" = input\n\
    8 let a = \"input\"\n\
    6 let a input\n\
    19 let a = input keep x\n\
    26 let a = input keep memory where x = 1\n\
    26 let a = input keep memory keep disk\n\
    14 let a = input group x: count\n\
    14 let a = input;\n\
    19 let a = input where\n\
    21 let a = input where x\n\
    24 let a = input where x = y\n\
    24 let a = input where x = \"y\"\n\
    22 let a = input where x 1\n\
    20 let a = input where 1 = x\n\
    25 let a = input where x = 1)\n\
    26 let a = input where (x = 1; group x: count\n\
    27 let a = input where (x = 1 keep disk\n\
    29 let a = input where x = 1 and\n\
    29 let a = input where x = 1 or or\n\
    20 let a = input where and x = 1\n\
    23 let a = input where not; group x: count\n\
    26 let a = input where x = 1 not y = 2\n\
    36 let a = input where x = 1 keep disk and y = 2\n\
    24 let a = input where x = 9223372036854775808\n\
    24 let a = input where x = -9223372036854775809\n\
    26 let a = input where x = 1 group x: count\n\
    16 group x: count; let a = input\n\
    28 order a, b, c, d, e, f, g, h, i: x\n\
    31 order a: a, b, c, d, e, f, g, h, i\n\
    63 group a: count, sum b, sum c, sum d, sum e, sum f, sum g, sum h, sum i\n\
    126 group a: count; group a: count; group a: count; group a: count; group a: count; group a: count; group a: count; group a: count; group a: count\n\
    120 let a = input; let b = input; let c = input; let d = input; let e = input; let f = input; let g = input; let h = input; let i = input; group a: count";

#[test]
fn a_text_is_refused_at_the_first_token_that_no_job_goes_on_with(
    rt: HostRuntime,
) -> Result<(), Fail> {
    for row in REFUSED.lines() {
        let (place, text) = row.split_once(' ').ok_or("a row without a text")?;
        let place: u32 = place.parse()?;
        let refused = refused_at(rt.alloc(), text)?;
        assert_eq!(rt; refused, Some(place), "the text {text}");
    }
    Ok(())
}

#[test]
fn jobs_of_each_kind_are_read(rt: HostRuntime) -> Result<(), Fail> {
    for text in [
        "group key: count",
        "group a: count; order k: v from input",
        "group \"a\"\"b\": count",
        "group \"\": min \"\", max \"\"",
        "order number x down, y: z, x",
        "let a = input; let b = a; group x: count from b; order y: y from a",
        "let a = input where x = 9223372036854775807 or x = -9223372036854775808; group x: count",
    ] {
        assert_eq!(rt; refused_at(rt.alloc(), text)?, None, "the text {text}");
    }
    Ok(())
}

// A text, and the job's one form.
const PRINTED: &str = "\
    group   city :count|group city: count~\
    group city:count from input|group city: count~\
    group a,\"b\"\t:sum\r\nb,min a|group a, b: sum b, min a~\
    order number \"x\" down,y:z ,x|order number x down, y: z, x~\
    group a:count;order a:a;group b:max b|group a: count; order a: a; group b: max b~\
    group \"a b\",\"\",\"count\":count|group \"a b\", \"\", \"count\": count~\
    order \"say \"\"so\"\"\" down:\"\"\"\"|order \"say \"\"so\"\"\" down: \"\"\"\"~\
    group \"7a\",\"_7\":sum \"Tromsø\"|group \"7a\", _7: sum \"Tromsø\"~\
    let d=input;group x:count from d|let d = input; group x: count from d~\
    let d=input where (x=1 or y=2)or z='q';group x:count|let d = input where x = 1 or y = 2 or z = 'q'; group x: count~\
    let d=input where not x=1 and y=2;group x:count|let d = input where not x = 1 and y = 2; group x: count~\
    let d=input where not(x=1 and y=2);group x:count|let d = input where not (x = 1 and y = 2); group x: count~\
    let d=input where not(x=1)or(y<2);group x:count|let d = input where not x = 1 or y < 2; group x: count~\
    let d=input where(x=1 or y!=-2)and(not(z>=3)and\"a b\"<='it''s')keep memory;let e=d keep disk;order x:x from e|let d = input where (x = 1 or y != -2) and not z >= 3 and \"a b\" <= 'it''s' keep memory; let e = d keep disk; order x: x from e~\
    let d=input where((x=007))or x=-0;group x:count from input|let d = input where x = 7 or x = 0; group x: count~\
    let d=input where not not(x>'');group x:count|let d = input where not not x > ''; group x: count";

#[test]
fn a_job_is_printed_in_its_one_form(rt: HostRuntime) -> Result<(), Fail> {
    for row in PRINTED.split('~') {
        let (text, form) = row.split_once('|').ok_or("a row without a form")?;
        let once = printed(rt.alloc(), text)?;
        assert_eq!(rt; once.as_str(), form, "the text {text}");
        let twice = printed(rt.alloc(), form)?;
        assert_eq!(rt; twice.as_str(), form, "printed and read again");
    }
    Ok(())
}

#[test]
fn a_text_has_at_most_16384_bytes(rt: HostRuntime) -> Result<(), Fail> {
    let mut text = String::from_str(rt.alloc(), "group a: count")?;
    for _ in 0..16_370 {
        text.push(' ')?;
    }
    assert_eq!(rt; text.len(), 16_384);
    assert_eq!(rt;
        refused_at(rt.alloc(), &text)?,
        None,
        "a job of 16,384 bytes"
    );
    text.push(' ')?;
    assert_eq!(rt; refused_at(rt.alloc(), &text)?, Some(16_384), "a byte more");
    Ok(())
}

// A text of a head, an item so many times, and a tail.
fn repeated(
    alloc: Global,
    head: &str,
    item: &str,
    times: u64,
    tail: &str,
) -> Result<String, AllocError> {
    let mut text = String::from_str(alloc, head)?;
    for _ in 0..times {
        text.push_str(item)?;
    }
    text.push_str(tail)?;
    Ok(text)
}

#[test]
fn each_limit_is_refused_at_its_token(rt: HostRuntime) -> Result<(), Fail> {
    // A head, an item, a tail, how many items are taken, and where one more is refused.
    for (head, item, tail, most, place) in [
        ("let ", "n", " = input; group x: count", 64, 4),
        ("group ", "c", ": count", 1024, 6),
        ("order \"", "c", "\": x", 1024, 6),
        (
            "let a = input where ",
            "c",
            " = 1; group x: count",
            1024,
            20,
        ),
        (
            "let a = input where ",
            "not ",
            "x = 1; group x: count",
            64,
            276,
        ),
    ] {
        let text = repeated(rt.alloc(), head, item, most, tail)?;
        assert_eq!(rt; refused_at(rt.alloc(), &text)?, None, "{most} of {item}");
        let text = repeated(rt.alloc(), head, item, most + 1, tail)?;
        assert_eq!(rt;
            refused_at(rt.alloc(), &text)?,
            Some(place),
            "one more {item}"
        );
    }
    let head = "let a = input where ";
    let text = repeated(rt.alloc(), head, "(", 64, "x = 1")?;
    let inner = repeated(rt.alloc(), &text, ")", 64, "; group x: count")?;
    assert_eq!(rt; refused_at(rt.alloc(), &inner)?, None, "64 parentheses");
    let text = repeated(rt.alloc(), head, "(", 65, "x = 1")?;
    assert_eq!(rt;
        refused_at(rt.alloc(), &text)?,
        Some(84),
        "one parenthesis more"
    );
    Ok(())
}

// Parts of jobs, of which each combination is a job.
const MADE: [&str; 9] = [
    "",
    "let d = input;",
    "let d = input where x = 1 keep memory;",
    "let c = input where not(x<2 and\"y z\">='it''s');let d=c keep disk;",
    "let c=input where (x=1 or y=2)and(x!=3 or not not y<=-4)or(z='') ; let d = c where z>'a';",
    "let e=input;let c=e where((x=1)or(y=2 or w=3));let d=c where not((x=1));",
    "let d=input where not(not(a=0 and b=1)or not c>=-9223372036854775808)keep disk;",
    "let b=input where\"\"='' and(x<='a'and y!='' or z!='''');let d=b keep memory;",
    "let a=input;let b=a;let c=b;let d=c where not((a=1 or b=2)and(c=3 or d=4));",
];

const ASKED: [&str; 9] = [
    "group x:count",
    "group \"a b\",x:sum x,max \"a\"\"b\"",
    "order x:x",
    "order number y down,x down:z,y",
    "group x:count;order number \"count\":x",
    "order x,y,z:w;group v:min u;group u:count,sum v",
    "group a,b,c,d,e,f,g,h:count,sum a,min a,max a,sum b,min b,max b,sum c",
    "order number a down,b,number c,d down:a,b,c,d,e,f,g,h",
    "group \"let\",\"\",\" \":count;order \"x y\" down:\"number\"",
];

const OVER: [&str; 3] = ["", " from input", " from d"];

#[test]
fn printed_jobs_are_read_and_printed_as_they_were(rt: HostRuntime) -> Result<(), Fail> {
    for made in MADE {
        for asked in ASKED {
            for over in OVER {
                if over == " from d" && made.is_empty() {
                    continue;
                }
                let mut text = String::from_str(rt.alloc(), made)?;
                text.push_str(asked)?;
                text.push_str(over)?;
                let once = printed(rt.alloc(), &text)?;
                let twice = printed(rt.alloc(), &once)?;
                assert_eq!(rt; twice.as_str(), once.as_str(), "the text {text}");
            }
        }
    }
    Ok(())
}
