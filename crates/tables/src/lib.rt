//! One table over a rule: requests, enabled and owed events, and the laws of runs.
#![tactic(auto)]

pub mod table;
