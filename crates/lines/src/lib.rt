//! What waits between stations: messages, what they say, and what every line means.
#![tactic(auto)]

pub mod line;
pub mod message;
pub mod note;
pub mod play;
