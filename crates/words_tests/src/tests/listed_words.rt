// Lists of words by hand, one for each rule, and the words of the programs' examples. The answers are by the rules alone.
use crate::tests::drawn_words::DRAWN;
use crate::tests::told_words::told;
use std::alloc::Global;
use std::test::Fail;

// What a case is about; the words, with bars between them; what they say.
const CASES: &str = "\
a first word that is no program's: walk|job -> bad
a program's name in other letters: Run|job -> bad
a name that is cut short: ru|job -> bad
no job: run -> bad
a job alone: run|group k: count -> 4 1073741824 314572800 600 500 10000 10000000 [group k: count]
two jobs: run|job|job -> bad
too many behind two dashes: run|job|--|job -> bad
no rows: trial -> bad
two numbers of rows: trial|1|1 -> bad
no job of a plan: plan -> bad
two jobs of a plan: plan|a|b -> bad
an audit of something: audit|x -> bad
an audit of the empty word: audit| -> bad
the options in one word each: run|--workers=2|--part-rows=2|job -> 2 1073741824 314572800 600 500 2 10000000 [job]
the options in two words each: run|--workers|2|--part-rows|2|job -> 2 1073741824 314572800 600 500 2 10000000 [job]
the whole heap, one worker: run|--workers|1|--reserved|0|--fraction|1000|--heap|4096|job -> 1 4096 0 1000 500 10000 10000000 [job]
options behind the job: run|job|--max-rows|2 -> 4 1073741824 314572800 600 500 10000 2 [job]
options on both sides of the job: run|--heap=8|job|--storage=0 -> 4 8 314572800 600 0 10000 10000000 [job]
rows with a heap: trial|--workers|1|--reserved|0|--fraction|1000|--heap|67108864|10000 -> 1 67108864 0 1000 500 10000 10000
rows in small partitions: trial|--workers|1|--part-rows|50|--reserved|0|--fraction|1000|--heap|5408|1000 -> 1 5408 0 1000 500 50 1000
an option twice: run|--workers|2|--workers|2|job -> bad
an option twice, in both ways: run|--workers|1|--workers=1|job -> bad
an option twice, behind the job: run|--heap=4|job|--heap=4 -> bad
a missing value: run|job|--workers -> bad
a missing value before two dashes: run|job|--workers|-- -> bad
an option's name as a value: run|--workers|--heap|4|job -> bad
a word with a dash as a value: run|--workers|-5|job -> bad
a dash as a value: run|--workers|-|job -> bad
the empty word as a value: run|--workers||job -> bad
nothing behind the equals sign: run|--workers=|job -> bad
two equals signs: run|--workers=4=4|job -> bad
an option of no name: run|--=4|job -> bad
three dashes: run|---|job -> bad
an unknown option: run|--size=4|job -> bad
a shortened option: run|--worker=4|job -> bad
an option with a letter more: run|--workerss=4|job -> bad
an option in other letters: run|--Workers=4|job -> bad
an option with one dash: run|-workers=4|job -> bad
an option of a letter: run|-w|4|job -> bad
the journal: run|--journal|job -> 4 1073741824 314572800 600 500 10000 10000000 journal [job]
the journal behind the job: run|job|--journal -> 4 1073741824 314572800 600 500 10000 10000000 journal [job]
the journal between options: run|--workers|2|--journal|--heap=8|job -> 2 8 314572800 600 500 10000 10000000 journal [job]
the journal behind the last option: run|job|--heap|8|--journal -> 4 8 314572800 600 500 10000 10000000 journal [job]
the journal alone, which takes no word: run|--journal -> bad
a job behind the journal that reads as a value: run|--journal|false -> 4 1073741824 314572800 600 500 10000 10000000 journal [false]
a value behind the journal: run|--journal|true|job -> bad
the journal twice: run|--journal|--journal|job -> bad
the journal on both sides of the job: run|--journal|job|--journal -> bad
nothing behind the journal's equals sign: run|--journal=|job -> bad
a word behind the journal's equals sign: run|--journal=x|job -> bad
a journal that is true: run|--journal=true|job -> bad
a journal that is false: run|--journal=false|job -> bad
the journal, and then with a value: run|--journal|--journal=x|job -> bad
the journal's name as a value: run|--heap|--journal|job -> bad
the journal's name as a value, and the journal: run|--heap|--journal|--journal|job -> bad
the journal's name as a value behind the equals sign: run|--heap=--journal|job -> bad
the journal's name as a job: run|--|--journal -> 4 1073741824 314572800 600 500 10000 10000000 [--journal]
the journal, and its name as a job: run|--journal|--|--journal -> 4 1073741824 314572800 600 500 10000 10000000 journal [--journal]
the journal's name behind the job and two dashes: run|job|--|--journal -> bad
the journal's name without its dashes: run|journal -> 4 1073741824 314572800 600 500 10000 10000000 [journal]
the journal with one dash: run|-journal|job -> bad
a shortened journal: run|--journa|job -> bad
the journal with a letter more: run|--journals|job -> bad
the journal in other letters: run|--Journal|job -> bad
the journal, and a number out of its range: run|--journal|--workers=17|job -> bad
the journal of a trial: trial|--journal|7 -> bad
the journal's name as a number of rows: trial|--|--journal -> bad
the journal of a plan: plan|--journal|job -> bad
the journal's name as the job of a plan: plan|--|--journal -> [--journal]
the journal of an audit: audit|--journal -> bad
the journal before the first word: --journal|run|job -> bad
the rows of a run's input at a trial: trial|--max-rows|7|7 -> bad
an option of a plan: plan|--workers=4|job -> bad
an option of an audit: audit|--workers=4 -> bad
help: run|--help -> bad
help with a job: run|--help|job -> bad
help in a letter: run|-h|job -> bad
help as a first word: help -> bad
a version: run|--version -> bad
a version in a letter: run|-V|job -> bad
a dash as a job: run|- -> 4 1073741824 314572800 600 500 10000 10000000 [-]
the empty word as a job: run| -> 4 1073741824 314572800 600 500 10000 10000000 []
a job with a dash: run|-x -> bad
a negative number of rows: trial|-5 -> bad
a job with a dash, behind two: run|--workers=02|--|-x -> 2 1073741824 314572800 600 500 10000 10000000 [-x]
an option's name as a job: run|--|--workers -> 4 1073741824 314572800 600 500 10000 10000000 [--workers]
two dashes as a job: run|--|-- -> 4 1073741824 314572800 600 500 10000 10000000 [--]
nothing behind two dashes: run|-- -> bad
two dashes behind the job: run|job|-- -> 4 1073741824 314572800 600 500 10000 10000000 [job]
two dashes behind the rows: trial|7|-- -> 4 1073741824 314572800 600 500 10000 7
two dashes of an audit: audit|-- -> ok
two dashes twice of an audit: audit|--|-- -> bad
a plan of a job with a dash: plan|--|--help -> [--help]
a plan of a dash: plan|- -> [-]
a value of 20 digits: run|--workers=00000000000000000016|job -> 16 1073741824 314572800 600 500 10000 10000000 [job]
a value of 21 digits: run|--workers=000000000000000000016|job -> bad
the greatest number of 64 bits: run|--heap=18446744073709551615|job -> bad
one more than 64 bits hold: run|--heap=18446744073709551616|job -> bad
a value with a sign: run|--workers=+4|job -> bad
a value with a blank: run|--workers= 4|job -> bad
a value with a letter: run|--heap=4k|job -> bad
digits of another script: run|--workers=٤|job -> bad
no workers: run|--workers|0|job -> bad
one worker: run|--workers=1|job -> 1 1073741824 314572800 600 500 10000 10000000 [job]
16 workers: run|--workers=16|job -> 16 1073741824 314572800 600 500 10000 10000000 [job]
17 workers: run|--workers=17|job -> bad
no heap: run|--heap=0|job -> bad
a heap of a byte: run|--heap=1|job -> 4 1 314572800 600 500 10000 10000000 [job]
the greatest heap: run|--heap=1099511627776|job -> 4 1099511627776 314572800 600 500 10000 10000000 [job]
a byte more: run|--heap=1099511627777|job -> bad
nothing reserved: run|--reserved=0|job -> 4 1073741824 0 600 500 10000 10000000 [job]
the most that is reserved: run|--reserved=1099511627776|job -> 4 1073741824 1099511627776 600 500 10000 10000000 [job]
a byte more reserved: run|--reserved=1099511627777|job -> bad
no fraction: run|--fraction=0|job -> bad
the least fraction: run|--fraction=1|job -> 4 1073741824 314572800 1 500 10000 10000000 [job]
the whole: run|--fraction=1000|job -> 4 1073741824 314572800 1000 500 10000 10000000 [job]
more than the whole: run|--fraction=1001|job -> bad
no storage: run|--storage=0|job -> 4 1073741824 314572800 600 0 10000 10000000 [job]
all storage: run|--storage=1000|job -> 4 1073741824 314572800 600 1000 10000 10000000 [job]
more than all storage: run|--storage=1001|job -> bad
partitions of no rows: run|--part-rows=0|job -> bad
partitions of a row: run|--part-rows=1|job -> 4 1073741824 314572800 600 500 1 10000000 [job]
the largest partitions: run|--part-rows=1000000|job -> 4 1073741824 314572800 600 500 1000000 10000000 [job]
a row more: run|--part-rows=1000001|job -> bad
an input of no rows: run|--max-rows=0|job -> bad
an input of a row: run|--max-rows=1|job -> 4 1073741824 314572800 600 500 10000 1 [job]
the longest input: run|--max-rows=10000000|job -> 4 1073741824 314572800 600 500 10000 10000000 [job]
an input of a row more: run|--max-rows=10000001|job -> bad
no rows made: trial|0 -> bad
a row made: trial|1 -> 4 1073741824 314572800 600 500 10000 1
the most rows made: trial|1000000 -> 4 1073741824 314572800 600 500 10000 1000000
a row made more: trial|1000001 -> bad
rows with zeros before: trial|007 -> 4 1073741824 314572800 600 500 10000 7
rows that are no number: trial|many -> bad
rows with a sign: trial|+7 -> bad";

// What a row's words say, as it is told, and as the row has it.
fn both_told(alloc: Global, row: &str) -> Result<(String, &str), Fail> {
    let (list, wanted) = row.split_once(" -> ").ok_or("a row without an answer")?;
    let mut words = Vec::new(alloc);
    for word in list.split('|') {
        words.push(word)?;
    }
    Ok((told(alloc, words.as_slice())?, wanted))
}

#[test]
fn words_say_what_the_rules_say(rt: HostRuntime) -> Result<(), Fail> {
    for case in CASES.lines() {
        let (about, row) = case.split_once(": ").ok_or("a case without a name")?;
        let (told, wanted) = both_told(rt.alloc(), row)?;
        assert_eq!(rt; told.as_str(), wanted, "{about}");
    }
    Ok(())
}

#[test]
fn drawn_words_say_what_another_reader_says(rt: HostRuntime) -> Result<(), Fail> {
    for row in DRAWN.lines() {
        let (told, wanted) = both_told(rt.alloc(), row)?;
        assert_eq!(rt; told.as_str(), wanted, "{row}");
    }
    Ok(())
}
