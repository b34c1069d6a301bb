ghost use Rattle.protocol.specs.Outcomes.{entries};
ghost use Rattle.reports.specs.Texts.{answer_text, answers_text};
ghost use Rattle.std.specs.Prelude.{Some};

use crate::shown::Shown;
use protocol::answer::{Answer, Answers};
use std::fmt;

/// The event, the number of the answer, and the event that it names.
impl fmt::Display for Shown<Answer> {
    ghost output = { λ s. Some (answer_text s.0) };

    fn fmt<W: fmt::Write>(&self, f: &mut fmt::Formatter<W>) -> fmt::Result {
        let Answer { event, decision } = self.0;
        let number = u8::from(decision);
        let named = decision.named(event);
        write!(f, "{event} {number} {named}")
    }
}

/// A colon and the answers, with a semicolon between two; nothing for no answer.
impl fmt::Display for Shown<Answers> {
    ghost output = { λ s. Some (answers_text (entries s.0)) };

    fn fmt<W: fmt::Write>(&self, f: &mut fmt::Formatter<W>) -> fmt::Result {
        let answers = self.0.as_slice();
        if let [first, rest @ ..] = answers {
            write!(f, ": {}", Shown(*first))?;
            for answer in rest {
                write!(f, "; {}", Shown(*answer))?;
            }
        }
        Ok(())
    }
}
