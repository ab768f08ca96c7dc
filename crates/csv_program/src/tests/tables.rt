// The tables of jobs, written by hand.
use crate::tests::running::{BOTH, CITIES, call_of, ends};
use std::alloc::{AllocError, Global};
use std::sync::Wait;
use std::test::Fail;
use std::thread::Threads;

const SALES: &str = "city,price,year\nOslo,3,2001\nBergen,4,2001\nOslo,5,2002\nOslo,-7,2001\n";

const NAMES: &str = "the city,\"net \"\"price\"\"\",count\nOslo,3,x\n";

// Whether the run of a job on an input has this table.
fn prints<X: Threads + Wait + Sync>(
    rt: &X,
    alloc: Global,
    job: &str,
    input: &str,
    table: &str,
) -> Result<bool, AllocError> {
    let wanted = format!(in alloc; "0 |{table}")?;
    ends(
        rt,
        alloc,
        4,
        call_of(&["run", job], input.as_bytes()),
        &wanted,
    )
}

#[test]
fn each_group_job_prints_its_table(rt: HostRuntime) -> Result<(), Fail> {
    let alloc = rt.alloc();
    let cases = [
        ("group city: count", "city,price\n", "city,count\n"),
        (BOTH, CITIES, "city,count,sum_price\nBergen,1,4\nOslo,2,8\n"),
        (
            "group city: sum price",
            CITIES,
            "city,sum_price\nBergen,4\nOslo,8\n",
        ),
        (
            "group city: max price, count, min price, sum price",
            SALES,
            "city,max_price,count,min_price,sum_price\nBergen,4,1,4,4\nOslo,5,3,-7,1\n",
        ),
        (
            "group city, year: count, sum price",
            SALES,
            "city,year,count,sum_price\nBergen,2001,1,4\nOslo,2001,2,-4\nOslo,2002,1,5\n",
        ),
        (
            "group year, city: count",
            SALES,
            "year,city,count\n2001,Bergen,1\n2001,Oslo,2\n2002,Oslo,1\n",
        ),
        (
            "group \"the city\": sum \"net \"\"price\"\"\"",
            NAMES,
            "the city,\"sum_net \"\"price\"\"\"\nOslo,3\n",
        ),
        ("group \"count\": count", NAMES, "count,count\nx,1\n"),
        (
            "group k: count",
            "k\n\"a,\"\"b\nc\"\n",
            "k,count\n\"a,\"\"b\nc\",1\n",
        ),
        (
            "group city: sum price",
            "city,price\nOslo,9223372036854775807\nOslo,1\nOslo,-1\n",
            "city,sum_price\nOslo,9223372036854775807\n",
        ),
        ("group n: sum n", "n\n7\n07\n7\n", "n,sum_n\n07,7\n7,14\n"),
        (
            "group k: count",
            "\u{feff}k,l\r\nb,a\r\n\r\n,x\r\nb,a",
            "k,count\n,1\nb,2\n",
        ),
    ];
    for (job, input, table) in cases {
        assert!(rt; prints(&rt, alloc, job, input, table)?, "{job}");
    }
    Ok(())
}

#[test]
fn each_order_job_prints_its_table(rt: HostRuntime) -> Result<(), Fail> {
    let alloc = rt.alloc();
    let cases = [
        ("order city: city, price", "city,price\n", "city,price\n"),
        (
            "order number price: city, price",
            SALES,
            "city,price\nOslo,-7\nOslo,3\nBergen,4\nOslo,5\n",
        ),
        (
            "order number price down: price, city",
            SALES,
            "price,city\n5,Oslo\n4,Bergen\n3,Oslo\n-7,Oslo\n",
        ),
        ("order city: price", SALES, "price\n4\n3\n5\n-7\n"),
        ("order city down: price", SALES, "price\n3\n5\n-7\n4\n"),
        (
            "order city down, number year down, number price: price",
            SALES,
            "price\n5\n-7\n3\n4\n",
        ),
        ("order n: n", "n\n9\n10\n-1\n", "n\n-1\n10\n9\n"),
        (
            "order number n: n",
            "n\n5\n+5\n-0\n05\n0\n",
            "n\n-0\n0\n5\n+5\n05\n",
        ),
        (
            "order \"the city\": \"net \"\"price\"\"\", \"the city\"",
            NAMES,
            "\"net \"\"price\"\"\",the city\n3,Oslo\n",
        ),
    ];
    for (job, input, table) in cases {
        assert!(rt; prints(&rt, alloc, job, input, table)?, "{job}");
    }
    Ok(())
}

// Whether a field has this sum; where there is none, whether it is no number.
fn sums_to<X: Threads + Wait + Sync>(
    rt: &X,
    alloc: Global,
    field: &str,
    sum: &str,
) -> Result<bool, AllocError> {
    let input = format!(in alloc; "k,n\na,{field}\n")?;
    let wanted = if sum.is_empty() {
        String::from_str(alloc, "9 row 1 column 1: not a number|")?
    } else {
        format!(in alloc; "0 |k,sum_n\na,{sum}\n")?
    };
    ends(
        rt,
        alloc,
        4,
        call_of(&["run", "group k: sum n"], input.as_bytes()),
        &wanted,
    )
}

#[test]
fn a_number_is_a_sign_and_digits_of_64_bits(rt: HostRuntime) -> Result<(), Fail> {
    let alloc = rt.alloc();
    let cases = [
        ("+5", "5"),
        ("-0", "0"),
        ("007", "7"),
        ("9223372036854775807", "9223372036854775807"),
        ("-9223372036854775808", "-9223372036854775808"),
        ("9223372036854775808", ""),
        ("-9223372036854775809", ""),
        ("+", ""),
        (" 1", ""),
        ("1 ", ""),
        ("1e3", ""),
        ("3.5", ""),
        ("--1", ""),
        ("\u{663}", ""),
    ];
    for (field, sum) in cases {
        assert!(rt; sums_to(&rt, alloc, field, sum)?, "{field}");
    }
    Ok(())
}
