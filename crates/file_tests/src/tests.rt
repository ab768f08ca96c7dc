// Rows, aggregates, disks, runs, and runs that are merged.
mod aggregates;
mod calls;
mod disks;
mod entries;
mod folders;
mod forms;
mod lists;
mod merged_runs;
mod merges;
mod merging;
mod owner;
mod reading;
mod rows;
mod runs;
mod scripts;
mod told;
mod words;
