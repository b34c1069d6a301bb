ghost use Rattle.text.specs.Faults.{told, fault_text};
ghost use Rattle.text.specs.declared.fault.GraphFault.TheVariants.{Line};
ghost use Rattle.text.specs.declared.fault.LineFault.TheVariants.{Byte};
ghost use Rattle.std.specs.Prelude.{◌≡◌, Some};

use graph::error::BuildError;
use lexer::fault::ByteFault;
use std::error::Error;
use std::fmt;

/// A fault of a line: the second layer.
#[derive(Clone, Copy)]
pub enum LineFault {
    Byte(ByteFault),
    /// The line of that number is empty or not made as any line is.
    Form(usize),
}

/// A fault of a text: the third layer, and what the lower ones pass up.
#[derive(Clone, Copy)]
pub enum GraphFault {
    Line(LineFault),
    /// The line stands where its kind may not stand, or a line is missing there.
    Order(usize),
    /// The graph refuses what the line declares.
    Build { error: BuildError, line: usize },
}

/// What a fault tells: its number, its layer and its line.
// Numbers: the rules name the faults of texts by them, and `GraphFault` is the enum.
#[derive(Clone, Copy, Debug)]
pub struct Report {
    pub number: u8,
    pub layer: u8,
    pub line: usize,
}

impl From<ByteFault> for LineFault {
    ghost from_gives = { λ e r. r ≡ Byte e };

    fn from(fault: ByteFault) -> LineFault {
        LineFault::Byte(fault)
    }
}

impl From<LineFault> for GraphFault {
    ghost from_gives = { λ e r. r ≡ Line e };

    fn from(fault: LineFault) -> GraphFault {
        GraphFault::Line(fault)
    }
}

impl From<GraphFault> for Report {
    ghost from_gives = { λ e r. r ≡ told e };

    fn from(fault: GraphFault) -> Report {
        let (number, layer, line) = match fault {
            GraphFault::Line(LineFault::Byte(ByteFault::TooLong)) => (7, 1, 0),
            GraphFault::Line(LineFault::Byte(ByteFault::Unprintable(line))) => (1, 1, line),
            GraphFault::Line(LineFault::Form(line)) => (2, 2, line),
            GraphFault::Order(line) => (4, 3, line),
            GraphFault::Build { error, line } => (u8::from(error), 3, line),
        };
        Report {
            number,
            layer,
            line,
        }
    }
}

impl fmt::Display for Report {
    ghost output = { λ p. Some (fault_text p) };

    fn fmt<W: fmt::Write>(&self, f: &mut fmt::Formatter<W>) -> fmt::Result {
        let Report {
            number,
            layer,
            line,
        } = *self;
        write!(f, "fault {number}, layer {layer}, line {line}")
    }
}

impl Error for Report {}
