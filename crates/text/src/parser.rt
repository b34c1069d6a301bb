ghost use Rattle.std.specs.Prelude.{◌≡◌, ℕ, ◌+◌, ◌^◌, ◌<◌, ◌≤◌, ◌∷◌, ◌++◌, length, MatchOption, MatchResult};
ghost use Rattle.std.specs.Iterator.{at_most};
ghost use Rattle.lexer.specs.Words.{Stop};
ghost use Rattle.text.specs.Declarations.{Fits, NoDeclaration, NoField, NoFields, Small, field, fields, letter_of, written};
ghost use Rattle.text.specs.Faults.{told};
ghost use Rattle.text.specs.Reading.{BadLine, TakesEntry};
ghost use Rattle.text.specs.declared.fault.GraphFault.TheVariants.{Line as InLine};

use crate::declaration::Declaration;
use crate::fault::LineFault;
use graph::kind::Kind;
use lexer::lines::{Line, Lines};
use lexer::numbers::number;
use lexer::words::{Word, Words};

/// A declaration, and the number of its line.
#[derive(Clone, Copy)]
pub struct Entry {
    pub line: usize,
    pub declaration: Declaration,
}

/// The declarations of a text that are still to come, one a line.
#[derive(Drop)]
pub struct Entries<'a> {
    pub(crate) lines: Lines<'a>,
}

fn field(words: &mut Words) -> Option<u16>
    ensures { MatchOption result (NoField words.old.rest.bytes.now)
        (λ n. (n < 1000) × (words.old.rest.bytes.now ≡ field n ++ words.new.rest.bytes.now) × Stop words.new.rest.bytes.now) }
{
    match words.next()? {
        Word::Number { digits, .. } => number(digits),
        Word::Other { .. } | Word::Letter { .. } => None,
    }
}

/// The fields that end a line, so many of them.
pub fn fields<const N: usize>(words: &mut Words) -> Option<[u16; N]>
    ensures { MatchOption result (NoFields N words.old.rest.bytes.now) (λ ns. Small ns × (words.old.rest.bytes.now ≡ fields ns)) }
{
    let mut numbers = [0; N];
    for number in &mut numbers {
        *number = field(words)?;
    }
    if !words.is_empty() {
        return None;
    }
    Some(numbers)
}

fn relation(kind: Kind, words: &mut Words) -> Option<Declaration>
    ensures { MatchOption result (NoDeclaration (letter_of kind ∷ words.old.rest.bytes.now))
        (λ d. Fits d × (letter_of kind ∷ words.old.rest.bytes.now ≡ written d)) }
{
    let [from, to] = fields::<2>(words)?;
    Some(Declaration::Relation { kind, from, to })
}

/// What the words of a line declare: its first letter tells the kind.
fn declaration(words: &mut Words) -> Option<Declaration>
    ensures { MatchOption result (NoDeclaration words.old.rest.bytes.now) (λ d. Fits d × (words.old.rest.bytes.now ≡ written d)) }
{
    let Word::Letter { byte, .. } = words.letter()? else {
        return None;
    };
    match *byte as char {
        's' => {
            let [stations, release] = fields::<2>(words)?;
            Some(Declaration::Stations { stations, release })
        }
        'e' => {
            let [number, owner, marks] = fields::<3>(words)?;
            Some(Declaration::Event {
                number,
                owner,
                marks,
            })
        }
        'c' => relation(Kind::Condition, words),
        'm' => relation(Kind::Milestone, words),
        'r' => relation(Kind::Response, words),
        'i' => relation(Kind::Include, words),
        'x' => relation(Kind::Exclude, words),
        _ => None,
    }
}

/// The declaration that a line writes down, or the line's fault.
pub fn parse(line: Line) -> Result<Declaration, LineFault>
    ensures { MatchResult result (λ d. Fits d × (line.entry.part.bytes.now ≡ written d))
        (λ f. BadLine line.entry.part.bytes.now line.entry.number (told (InLine f))) }
{
    let mut words = Words::try_from(line)?;
    declaration(&mut words).ok_or(LineFault::Form(line.number))
}

/// The declarations of the text, or a fault where it is too long.
impl<'a> TryFrom<&'a [u8]> for Entries<'a> {
    type Error = LineFault;

    ghost try_from_gives = { λ text r. MatchResult r
        (λ e. (length text.now ≤ 65536) × (e.lines.rest.bytes.now ≡ text.now) × (e.lines.number ≡ 0))
        (λ f. (65536 < length text.now) × (told (InLine f) ≡ record { number = 7; layer = 1; line = 0 })) };

    fn try_from(text: &'a [u8]) -> Result<Entries<'a>, LineFault> {
        let lines = Lines::try_from(text)?;
        Ok(Entries { lines })
    }
}

impl<'a> Iterator for Entries<'a> {
    type Item = Result<Entry, LineFault>;

    ghost next_gives = { TakesEntry };

    ghost remaining = { λ s. at_most (length s.lines.rest.bytes.now) };

    fn next(&mut self) -> Option<Result<Entry, LineFault>> {
        let line = self.lines.next()?;
        Some(parse(line).map(|declaration| Entry {
            line: line.number,
            declaration,
        }))
    }
}
