use std::env::Args;
use thiserror::Error;

pub const USAGE: &str = "usage: fompaqi check GRAPH
       fompaqi table GRAPH SCRIPT
       fompaqi site GRAPH SCRIPT [memory|spool]

  check GRAPH          read the graph text in the file GRAPH and say whether it is in order
  table GRAPH SCRIPT   play the calls in the file SCRIPT on one table that holds the whole graph
  site GRAPH SCRIPT    play the calls in the file SCRIPT on a site, whose stations agree by messages
                       over a line in memory, or over a spool if that is named

check prints 'ok: S stations, release R, E events, N relations', or 'fault N, layer L, line K'
and a second line that says what is wrong there.

A script has one call a line; blank lines and lines that begin with '#' are passed over.
  table: 'q E' requests event E, 'w' asks for the work list
  site:  'b' starts the site, 'q S E' requests event E at station S, 't A B' carries one message
         from station A to station B, 'z' settles, 'w' asks for the work list, 'y S' for the tally
         of station S

A line is printed for each call: the call, ' -> ', and what came of it: 'started', 'open', 'nothing
waits', 'carried', 'answer E N W' (event, number, named event), 'K answers, M messages: E N W; ...',
'enabled 0 1; owed 1', 'owed 1', or 'refused N'.

The exit status is 0, or 1 for a fault or an error.";

/// The line of a site.
#[derive(Clone, Copy, Default)]
pub enum LineKind {
    #[default]
    Memory,
    Spool,
}

/// What the user asks for.
#[derive(Drop)]
pub enum Command {
    Help,
    /// Read the graph text in that file.
    Check(String),
    /// Play a script on one table: the files of the graph and of the script.
    Table {
        graph: String,
        script: String,
    },
    /// Play a script on a site over that line.
    Site {
        graph: String,
        script: String,
        line: LineKind,
    },
}

/// What is wrong with the words of the command line.
#[derive(Debug, Drop, Error)]
pub enum UsageError {
    #[error("no command: say what to do, as 'fompaqi check GRAPH'")]
    NoCommand,
    #[error("unknown command '{0}': the commands are listed below")]
    Unknown(String),
    #[error("no graph: name the file of the graph text")]
    NoGraph,
    #[error("no script: name the file of the script after the graph")]
    NoScript,
    #[error("unknown line '{0}': it is memory or spool")]
    UnknownLine(String),
    #[error("unexpected word '{0}': leave it out")]
    Surplus(String),
}

impl TryFrom<String> for LineKind {
    type Error = UsageError;

    fn try_from(name: String) -> Result<LineKind, UsageError> {
        match name.as_str() {
            "memory" => Ok(LineKind::Memory),
            "spool" => Ok(LineKind::Spool),
            _ => Err(UsageError::UnknownLine(name)),
        }
    }
}

impl Command {
    /// The command that the words after the program's name give.
    pub fn of(words: &mut Args) -> Result<Command, UsageError> {
        let name = words.next().ok_or(UsageError::NoCommand)?;
        let command = match name.as_str() {
            "help" | "--help" | "-h" => return Ok(Command::Help),
            "check" => Command::Check(word(words, UsageError::NoGraph)?),
            "table" => Command::Table {
                graph: word(words, UsageError::NoGraph)?,
                script: word(words, UsageError::NoScript)?,
            },
            "site" => Command::Site {
                graph: word(words, UsageError::NoGraph)?,
                script: word(words, UsageError::NoScript)?,
                line: line(words)?,
            },
            _ => return Err(UsageError::Unknown(name)),
        };
        match words.next() {
            Some(word) => Err(UsageError::Surplus(word)),
            None => Ok(command),
        }
    }
}

/// The next word, or what is said where there is none.
fn word(words: &mut Args, missing: UsageError) -> Result<String, UsageError> {
    words.next().ok_or(missing)
}

/// The line that is named, or the line in memory.
fn line(words: &mut Args) -> Result<LineKind, UsageError> {
    let line = words.next().map(LineKind::try_from).transpose()?;
    Ok(line.unwrap_or_default())
}
