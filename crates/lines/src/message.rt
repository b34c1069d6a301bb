ghost use Rattle.lines.specs.Texts.{message_text};
ghost use Rattle.std.specs.Prelude.{Some};

use std::fmt;

/// A message as lines keep it: three bytes.
// The kind is a byte and no enum: a line keeps every triple of bytes, and a `Note` is what one says.
#[derive(Clone, Copy, Default)]
pub struct Message {
    pub kind: u8,
    pub event: u8,
    pub extra: u8,
}

impl fmt::Display for Message {
    ghost output = { λ m. Some (message_text m) };

    fn fmt<W: fmt::Write>(&self, f: &mut fmt::Formatter<W>) -> fmt::Result {
        let Message { kind, event, extra } = *self;
        write!(f, "{kind} {event} {extra}")
    }
}
