//! The lines and the words of a text: the first layer of the reader.
#![tactic(auto)]

mod bytes;
pub mod fault;
pub mod lines;
pub mod numbers;
pub mod part;
pub mod words;
