ghost use Rattle.lexer.specs.Bytes.{FirstAt, clean, printable};
ghost use Rattle.lexer.specs.declared.fault.ByteFault.TheVariants.{Unprintable};
ghost use Rattle.std.specs.Prelude.{◌≡◌, true, false, MatchResult};

use crate::fault::ByteFault;
use crate::lines::Line;

/// Where the byte first stands, or the end where it does not.
// No `Option`: a line is cut there, and without the byte its end is where to cut.
pub(crate) fn find(bytes: &[u8], sought: u8) -> usize
    ensures { FirstAt bytes.now sought result }
{
    bytes
        .iter()
        .position(|byte| *byte == sought)
        .unwrap_or(bytes.len())
}

fn is_printable(byte: u8) -> bool
    ensures { result ≡ printable byte }
{
    matches!(byte, b' '..=b'~')
}

/// Whether every byte of the line is printable: the fault names the line.
pub(crate) fn check_bytes(line: Line) -> Result<(), ByteFault>
    ensures { MatchResult result (λ _. clean line.entry.part.bytes.now ≡ true)
        (λ f. (f ≡ Unprintable line.entry.number) × (clean line.entry.part.bytes.now ≡ false)) }
{
    if line.part.bytes.iter().all(|byte| is_printable(*byte)) {
        Ok(())
    } else {
        Err(ByteFault::Unprintable(line.number))
    }
}
