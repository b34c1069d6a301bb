//! The graph of a parts case: stations, events with owner and start marks, and relations.
#![tactic(auto)]

pub mod build;
pub mod draft;
pub mod error;
pub mod event;
pub mod graph;
pub mod kind;
pub mod relation;
pub mod release;
pub mod view;
