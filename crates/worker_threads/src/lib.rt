//! Workers on threads: one for each place of two lists, joined, with what each call did and answered.
#![tactic(auto)]

mod threads;

pub use threads::each_place;
