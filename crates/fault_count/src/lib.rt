//! What a rise in a count of faults means: definitions alone, which sources, sinks and disks cite.
#![tactic(auto)]
