ghost use Rattle.std.specs.Prelude.{◌≡◌, ℕ, ◌<◌, ◌≤◌, true, List, Some, length};
ghost use Rattle.fompaqi.specs.Shown.{shown_byte, shown_line};
ghost use Rattle.lexer.specs.Bytes.{clean};

use std::fmt;

/// The most bytes of a line that are shown.
const SHOWN: usize = 120;

/// A line as it can be shown: a byte that is not printable as a question mark, and not all of a long line.
#[derive(Clone, Copy)]
pub struct ShownLine<'a>(pub &'a [u8]);

impl fmt::Display for ShownLine<'_> {
    ghost output = { λ line. Some (shown_line line.0.now) };

    fn fmt<W: fmt::Write>(&self, f: &mut fmt::Formatter<W>) -> fmt::Result {
        let (first, rest) = self.0.split_at(SHOWN.min(self.0.len()));
        for byte in first {
            f.write_char(shown_byte(*byte))?;
        }
        if !rest.is_empty() {
            f.write_str(" ...")?;
        }
        Ok(())
    }
}

/// The byte as it can be shown.
fn shown_byte(byte: u8) -> char
    ensures is { result ≡ shown_byte byte }
    ensures ascii { result < 128 }
{
    if matches!(byte, b' '..=b'~') {
        byte as char
    } else {
        '?'
    }
}

/// A printable line of at most 120 bytes is shown as it is, as a law.
pub fn short_lines_are_shown_whole()
    ensures { (bytes : List ℕ) → clean bytes ≡ true → length bytes ≤ 120 → shown_line bytes ≡ bytes }
{}
