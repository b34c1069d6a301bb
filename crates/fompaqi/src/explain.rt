use graph::error::BuildError;
use lexer::fault::ByteFault;
use text::fault::{GraphFault, LineFault};

/// The rule that the fault breaks, told by the letter of its line, if there is a line.
pub fn rule(fault: GraphFault, letter: Option<u8>) -> &'static str {
    match fault {
        GraphFault::Line(LineFault::Byte(ByteFault::TooLong)) => {
            "a text may have at most 65,536 bytes"
        }
        GraphFault::Line(LineFault::Byte(ByteFault::Unprintable(_))) => {
            "a text may have only the bytes 32 to 126 and ends of lines"
        }
        GraphFault::Line(LineFault::Form(_)) => form(letter),
        GraphFault::Order(line) => order(line, letter),
        GraphFault::Build { error, .. } => build(error, letter),
    }
}

fn build(error: BuildError, letter: Option<u8>) -> &'static str {
    match error {
        BuildError::Invalid => value(letter),
        BuildError::Conflict => {
            "a relation may stand only once, and a pair of events may not have both include (i) and exclude (x)"
        }
        BuildError::Full => "a graph may have at most 64 events and 512 relations",
    }
}

fn form(letter: Option<u8>) -> &'static str {
    match letter {
        Some(b's') =>
            "an s line must be 's STATIONS RELEASE', with one space before each number and numbers 0 to 999 without leading zero",
        Some(b'e') =>
            "an e line must be 'e EVENT OWNER MARKS', with one space before each number and numbers 0 to 999 without leading zero",
        Some(b'c' | b'm' | b'r' | b'i' | b'x') => {
            "a relation line must be its letter and two events, with one space before each number and numbers 0 to 999 without leading zero"
        }
        Some(_) => "a line must begin with one of the letters s, e, c, m, r, i, x",
        None => "a line may not be empty",
    }
}

fn value(letter: Option<u8>) -> &'static str {
    match letter {
        Some(b's') => "there must be 1 to 8 stations, and the release must be 4 or 6",
        Some(b'e') =>
            "events must be numbered in turn from 0, the owner must be a station, and marks must be 0 to 7",
        Some(b'm') =>
            "both events must be declared by e lines above, and release 4 may have no milestones (m)",
        _ => "both events must be declared by e lines above",
    }
}

fn order(line: usize, letter: Option<u8>) -> &'static str {
    match letter {
        None if line == 1 => "a text must begin with its s line, and this one is empty",
        None => "a text must have an e line, and this one ends without",
        Some(b's') => "the s line may stand only once, as the first line",
        _ if line == 1 => "a text must begin with its s line",
        _ => "e lines must come before all relation lines",
    }
}
