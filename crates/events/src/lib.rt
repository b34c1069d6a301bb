//! Sets of events and of stations as the bits of a word, and the marking of events by such sets.
//!
//! Every function takes every number: an event or a station past the word is in no set.
#![tactic(auto)]

mod marking;
mod marks;
mod members;
mod set;
mod word;

pub use marking::Marking;
pub use marks::{Marks, UnknownMarks, sums_tell_marks_apart};
pub use members::Members;
pub use set::{
    EventSet, Set, StationSet, event_sets_are_their_members, sets_are_their_members,
    station_sets_are_their_members,
};
pub use word::Word;
