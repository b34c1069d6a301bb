ghost use Rattle.reports.specs.Texts.{outcome_text, reply_text};
ghost use Rattle.std.specs.Prelude.{Some};

use crate::shown::Shown;
use protocol::call::{Outcome, Reply};
use std::fmt;

/// What a call of a site came to.
impl fmt::Display for Shown<Outcome> {
    ghost output = { λ s. Some (outcome_text s.0) };

    fn fmt<W: fmt::Write>(&self, f: &mut fmt::Formatter<W>) -> fmt::Result {
        match self.0 {
            Ok(reply) => write!(f, "{}", Shown(reply)),
            Err(refusal) => write!(f, "refused {}", u8::from(refusal)),
        }
    }
}

/// What a call gives that is not refused.
impl fmt::Display for Shown<Reply> {
    ghost output = { λ s. Some (reply_text s.0) };

    fn fmt<W: fmt::Write>(&self, f: &mut fmt::Formatter<W>) -> fmt::Result {
        match &self.0 {
            Reply::Started => f.write_str("started"),
            Reply::Opened => f.write_str("open"),
            Reply::Nothing => f.write_str("nothing waits"),
            Reply::Carried => f.write_str("carried"),
            Reply::Answered(answer) => write!(f, "answer {}", Shown(*answer)),
            Reply::Settled { answers, messages } => {
                let count = answers.count;
                let given = Shown(*answers);
                write!(f, "{count} answers, {messages} messages{given}")
            }
            Reply::Listed { enabled, owed } => {
                write!(f, "enabled{}; owed{}", Shown(*enabled), Shown(*owed))
            }
            Reply::Tallied { owed } => write!(f, "owed{}", Shown(*owed)),
        }
    }
}
