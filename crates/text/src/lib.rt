//! Reads a graph text over the words of the lexer: the lines and what they declare, and the graph.
#![tactic(auto)]

pub mod builder;
pub mod declaration;
pub mod fault;
mod parser;

pub use parser::fields;
