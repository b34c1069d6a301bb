//! A site: stations over any rule and any line and all its calls.
#![tactic(auto)]

mod carries;
mod lists;
mod pairs;
mod requests;
mod settles;
pub mod site;
mod starts;
mod transfers;
