//! The spool: a line over bytes that the caller lends.
#![tactic(auto)]

mod slot;
pub mod spool;
