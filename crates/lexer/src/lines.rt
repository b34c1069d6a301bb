ghost use Rattle.std.specs.Prelude.{◌≡◌, ◌-◌, ◌<◌, ◌≤◌, [], length, MatchOption, MatchResult, slice_index_or};
ghost use Rattle.std.specs.Iterator.{at_most};
ghost use Rattle.lexer.specs.Lines.{LinesAreTheText, OnlyLines, TakesLine, lines};
ghost use Rattle.lexer.specs.declared.fault.ByteFault.TheVariants.{TooLong};

use crate::fault::ByteFault;
use crate::part::Part;

/// The most bytes that a text may have.
const LONGEST: usize = 65_536;

/// One line of a text, with its number.
#[derive(Clone, Copy)]
pub struct Line<'a> {
    pub number: usize,
    pub part: Part<'a>,
}

/// The lines of a text that are still to come.
#[derive(Drop)]
pub struct Lines<'a> {
    rest: Part<'a>,
    number: usize,
}

impl<'a> Lines<'a> {
    /// The lines of the text, however long it is.
    pub fn new(text: &'a [u8]) -> Lines<'a>
        ensures { (result.rest.bytes.now ≡ text.now) × (result.rest.at ≡ 0) × (result.number ≡ 0) }
    {
        Lines {
            rest: Part { at: 0, bytes: text },
            number: 0,
        }
    }
}

/// The lines of a graph text, or a fault where it is too long.
impl<'a> TryFrom<&'a [u8]> for Lines<'a> {
    type Error = ByteFault;

    ghost try_from_gives = { λ text r. MatchResult r
        (λ l. (length text.now ≤ 65536) × (l.rest.bytes.now ≡ text.now) × (l.rest.at ≡ 0) × (l.number ≡ 0))
        (λ f. (f ≡ TooLong) × (65536 < length text.now)) };

    fn try_from(text: &'a [u8]) -> Result<Lines<'a>, ByteFault> {
        if text.len() > LONGEST {
            return Err(ByteFault::TooLong);
        }
        Ok(Lines::new(text))
    }
}

impl<'a> Iterator for Lines<'a> {
    type Item = Line<'a>;

    ghost next_gives = { TakesLine };

    ghost remaining = { λ s. at_most (length s.rest.bytes.now) };

    fn next(&mut self) -> Option<Line<'a>> {
        if self.rest.bytes.is_empty() {
            return None;
        }
        let (part, rest) = self.rest.cut(b'\n');
        self.rest = match rest.split_first() {
            Some((_, next)) => next,
            None => rest,
        };
        self.number = self.number.saturating_add(1);
        Some(Line {
            number: self.number,
            part,
        })
    }
}

/// The line of that number, counted from 1, if the text has it.
pub fn line_at(text: &[u8], number: usize) -> Option<&[u8]>
    ensures { MatchOption result (0 < number → length (lines text.now) < number)
        (λ l. (0 < number) × (number ≤ length (lines text.now)) × (l.now ≡ slice_index_or (lines text.now) (number - 1) [])) }
{
    let line = Lines::new(text).nth(number.checked_sub(1)?)?;
    Some(line.part.bytes)
}

/// How a text falls into lines, as a law: the lines hold no end of line and are the text when put
/// together again, and no other lines are.
pub fn lines_are_the_text()
    ensures made { LinesAreTheText }
    ensures only { OnlyLines }
{}
