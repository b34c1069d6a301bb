//! The texts that programs print of the calls of a site and of their outcomes.
#![tactic(auto)]

mod answer;
mod call;
mod event_list;
mod outcome;
mod shown;

pub use shown::Shown;
