//! A station: its marks, its request and its locks, what it does at a note, and what it posts.
#![tactic(auto)]

mod lock_sets;
pub mod outbox;
pub mod role;
pub mod station;
pub mod station_id;
mod verdict;
