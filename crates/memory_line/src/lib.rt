//! The line in memory: an array of pairs, each with room for three messages.
#![tactic(auto)]

pub mod memory_line;
