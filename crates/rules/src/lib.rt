//! Rules over a graph: what a rule means and its laws, and the rule of each release.
#![tactic(auto)]

pub mod decision;
mod masks;
pub mod release_rule;
mod rows;
pub mod rule;
