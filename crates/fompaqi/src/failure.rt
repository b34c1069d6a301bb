use crate::command::{USAGE, UsageError};
use std::alloc::AllocError;
use std::io;
use text::fault::Report;
use thiserror::Error;

/// Why a command was not carried out.
#[derive(Debug, Drop, Error)]
pub enum Failure {
    #[error("fompaqi: {0}\n{usage}", usage = USAGE)]
    Usage(#[from] UsageError),
    #[error("fompaqi: cannot read the file '{path}': {error}\n{usage}", usage = USAGE)]
    Unreadable {
        path: String,
        error: io::Error,
    },
    #[error("fompaqi: the graph text '{path}' is not in order: {report}: 'fompaqi check {path}' says more")]
    Graph {
        path: String,
        report: Report,
    },
    #[error("fompaqi: the script '{path}' is longer than 1,048,576 bytes: split it")]
    LongScript {
        path: String,
    },
    #[error("fompaqi: '{path}', line {line}: no call: {written}: write {forms}")]
    NoCall {
        path: String,
        line: usize,
        written: String,
        forms: &'static str,
    },
    #[error(transparent)]
    System(#[from] io::Error),
    #[error(transparent)]
    Memory(#[from(alloc)] AllocError),
}
