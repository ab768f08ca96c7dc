// Runs through the top call, against answers from outside.
mod datasets;
mod faults;
mod folder;
mod gates;
mod generated;
mod journals;
mod kept;
mod missing;
mod plain;
mod plans;
mod records;
mod refusals;
mod running;
mod statuses;
mod tables;
mod trials;
