//! How stations agree by messages: the calls of a site and their outcomes, what a station does at a message, and the
//! theorem that the answers are those of one table.
#![tactic(auto)]

pub mod answer;
pub mod call;
pub mod delivery;
pub mod laws;
pub mod refusal;
