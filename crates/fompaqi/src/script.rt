ghost use Rattle.std.specs.Prelude.{◌≡◌, ◌≢◌, Ok, Some, ℕ, ◌<◌, ◌≤◌, true, List, ◌∷◌, ◌++◌, MatchOption, Decides};
ghost use Rattle.fompaqi.specs.ScriptLaws.{site-one, site-plain, table-one, table-plain};
ghost use Rattle.fompaqi.specs.Scripts.{NoNumber, NoNumbers, Passed, SiteFits, TableFits, Tells, site_line, table_line};
ghost use Rattle.lexer.specs.Bytes.{clean};
ghost use Rattle.text.specs.Declarations.{field};

use lexer::lines::Line;
use lexer::words::{Word, Words};
use protocol::call::Call;
use runs::table::TableCall;
use text::fields;

/// A line that is neither a call nor passed over.
#[derive(Clone, Copy)]
pub struct NoCall;

/// A call that a script can make.
pub trait ScriptCall: Sized {
    /// The forms of the calls, for who wrote another.
    const FORMS: &'static str;

    // The line that writes the call.
    ghost written: { Self → List ℕ };

    // Whether a script can make the call: its numbers are small enough.
    ghost fits: { Self → Type 0 };

    /// The call that the letter and all the words after it write.
    fn read(letter: char, words: &mut Words) -> Option<Self>
        ensures { MatchOption result ((c : Self) → fits c → letter ∷ words.old.rest.bytes.now ≢ written c)
            (λ c. fits c × (letter ∷ words.old.rest.bytes.now ≡ written c)) };

    // A line writes one call at most.
    ghost one: { (c d : Self) → fits c → fits d → written c ≡ written d → c ≡ d };

    // A line that writes a call is printable, and is not passed over.
    ghost plain: { (c : Self) → fits c → (clean (written c) ≡ true) × (Passed (written c) → ⊥) };
}

impl ScriptCall for TableCall {
    const FORMS: &'static str = "'q E' with an event 0 to 255, or 'w'";

    ghost written = { table_line };

    ghost fits = { TableFits };

    ghost one = { table-one };

    ghost plain = { table-plain };

    fn read(letter: char, words: &mut Words) -> Option<TableCall> {
        match letter {
            'q' => Some(TableCall::Request(last_number(words)?)),
            'w' if words.is_empty() => Some(TableCall::WorkList),
            _ => None,
        }
    }
}

impl ScriptCall for Call {
    const FORMS: &'static str =
        "'b', 'q S E', 't A B', 'z', 'w' or 'y S', with stations and events 0 to 255";

    ghost written = { site_line };

    ghost fits = { SiteFits };

    ghost one = { site-one };

    ghost plain = { site-plain };

    fn read(letter: char, words: &mut Words) -> Option<Call> {
        match letter {
            'b' if words.is_empty() => Some(Call::Start),
            'q' => {
                let (station, event) = two_numbers(words)?;
                Some(Call::Request { station, event })
            }
            't' => {
                let (from, to) = two_numbers(words)?;
                Some(Call::Carry { from, to })
            }
            'z' if words.is_empty() => Some(Call::Settle { room: 8 }),
            'w' if words.is_empty() => Some(Call::WorkList),
            'y' => {
                let station = last_number(words)?;
                Some(Call::Tally { station })
            }
            _ => None,
        }
    }
}

/// Whether the line is blank, of spaces at most, or a comment.
fn is_passed_over(line: &[u8]) -> bool
    ensures { Decides result (Passed line.now) }
{
    matches!(line, [b'#', ..]) || line.iter().all(|byte| *byte == b' ')
}

/// The one number from 0 to 255 that ends the line.
// Not one function with `two_numbers`: it would need a loop in place of a `u8::try_from` for each number.
#[tactic(auto, using(crate::proofs::Numbers::none_one))]
fn last_number(words: &mut Words) -> Option<u8>
    ensures { MatchOption result (NoNumber words.old.rest.bytes.now) (λ n. (n < 256) × (words.old.rest.bytes.now ≡ field n)) }
{
    let [n] = fields::<1>(words)?;
    u8::try_from(n).ok()
}

/// The two numbers from 0 to 255 that end the line.
#[tactic(auto, using(crate::proofs::Numbers::none_two))]
fn two_numbers(words: &mut Words) -> Option<(u8, u8)>
    ensures { MatchOption result (NoNumbers words.old.rest.bytes.now)
        (λ p. (p.0 < 256) × (p.1 < 256) × (words.old.rest.bytes.now ≡ field p.0 ++ field p.1)) }
{
    let [a, b] = fields::<2>(words)?;
    Some((u8::try_from(a).ok()?, u8::try_from(b).ok()?))
}

/// The call that the words write: its letter, then its numbers.
fn call<C: ScriptCall + Drop>(words: &mut Words) -> Option<C>
    ensures { MatchOption result ((c : C) → C.fits c → words.old.rest.bytes.now ≢ C.written c)
        (λ c. C.fits c × (words.old.rest.bytes.now ≡ C.written c)) }
{
    let Word::Letter { byte, .. } = words.letter()? else {
        return None;
    };
    C::read(*byte as char, words)
}

/// The call that the line writes, or none if the line is blank or a comment.
pub fn script_line<C: ScriptCall + Drop>(line: Line) -> Result<Option<C>, NoCall>
    ensures tells { Tells C.written C.fits line.entry.part.bytes.now result }
    ensures exact { (c : C) → C.fits c → line.entry.part.bytes.now ≡ C.written c → result ≡ Ok (Some c) }
{
    if is_passed_over(line.part.bytes) {
        return Ok(None);
    }
    let mut words = Words::try_from(line).map_err(|_| NoCall)?;
    let call = call(&mut words).ok_or(NoCall)?;
    Ok(Some(call))
}
