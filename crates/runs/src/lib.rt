//! Lists of calls of a site, single calls of a table, and what is promised of them.
#![tactic(auto)]

pub mod run;
pub mod table;
