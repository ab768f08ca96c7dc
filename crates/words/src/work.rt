//! The options of a run's work, which `run` and `trial` have in common.

ghost use Rattle.std.specs.Prelude.{◌≡◌, IfOk, IfErr, true, false};
ghost use Rattle.std.specs.List.{list_all};
ghost use Rattle.clap.specs.Words.{first_value, found_of};
ghost use Rattle.words.specs.Numbers.{fits};
ghost use Rattle.words.specs.Options.{AreInRange, work_options, work_values};
ghost use Rattle.words.specs.Views.{work_reading};

use crate::WordsFault;
use crate::numbers::number;
use clap::ArgMatches;

/// How much memory a run has, and how its work is divided.
#[derive(Clone, Copy, Debug, PartialEq, Eq)]
pub struct WorkOptions {
    /// How many threads work: `--workers`, 1 to 16, else 4.
    pub workers: u64,
    /// The heap, in bytes: `--heap`, 1 to 2^40, else 2^30.
    pub heap: u64,
    /// What of the heap isn't the pools', in bytes: `--reserved`, 0 to 2^40, else 300 times 2^20.
    pub reserved: u64,
    /// The part of the rest that both pools have, in thousandths: `--fraction`, 1 to 1000, else 600.
    pub fraction: u64,
    /// The part of the pools that execution can't evict, in thousandths: `--storage`, 0 to 1000, else 500.
    pub storage: u64,
    /// How many rows a partition has at most: `--part-rows`, 1 to 1,000,000, else 10,000.
    pub part_rows: u64,
}

/// What the words say of the work.
pub fn work_from(matches: &ArgMatches<'_>) -> Result<WorkOptions, WordsFault>
    ensures ok { IfOk result (λ r. work_reading r ≡ work_values (first_value (found_of matches.now))) }
    ensures ranges { IfOk result (λ r. AreInRange (work_reading r)) }
    ensures fits { IfOk result (λ r. list_all (fits (first_value (found_of matches.now))) work_options ≡ true) }
    ensures bad { IfErr result (λ e. list_all (fits (first_value (found_of matches.now))) work_options ≡ false) }
{
    Ok(WorkOptions {
        workers: number(matches, "workers", 1, 16, 4)?,
        heap: number(matches, "heap", 1, 1_099_511_627_776, 1_073_741_824)?,
        reserved: number(matches, "reserved", 0, 1_099_511_627_776, 314_572_800)?,
        fraction: number(matches, "fraction", 1, 1000, 600)?,
        storage: number(matches, "storage", 0, 1000, 500)?,
        part_rows: number(matches, "part-rows", 1, 1_000_000, 10_000)?,
    })
}
