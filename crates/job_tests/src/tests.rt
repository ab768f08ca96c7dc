// Jobs and their plans, bytes and records, input that lands, rows that are handed out, and trials.
mod files;
mod handing;
mod jobs;
mod landed;
mod partitions;
mod passes;
mod plans;
mod playing;
mod records;
mod row_faults;
mod row_words;
mod sinks;
mod streams;
mod texts;
mod trials;
