// The 13 bytes of one pair: its count, its messages oldest first, and zeros.
ghost use Rattle.std.specs.Prelude.{◌≡◌, ◌≤◌, [], ◌∷◌, ◌++◌, length, is_ok, if◌then◌else◌, nat_lt};
ghost use Rattle.lines.specs.Lists.{oldest, younger};
ghost use Rattle.spool.specs.Slots.{Cleared, SameBeyond, Slot, slot_at};

use crate::spool::SIZE;
use lines::line::Full;
use lines::message::Message;

// Makes every byte of the spool zero.
pub(crate) fn clear(bytes: &mut [u8])
    requires { 832 ≤ length bytes.old }
    ensures cleared { Cleared bytes.new }
    ensures beyond { SameBeyond bytes.old bytes.new }
{
    bytes[..SIZE].fill(0);
}

// Puts a message at the end of a pair.
pub(crate) fn push(slot: &mut [u8], message: Message) -> Result<(), Full>
    requires { (length slot.old ≡ 13) × Slot slot.old 0 }
    ensures answer { is_ok result ≡ nat_lt (length (slot_at slot.old 0)) 4 }
    ensures list { slot_at slot.new 0 ≡ (if nat_lt (length (slot_at slot.old 0)) 4 then slot_at slot.old 0 ++ message ∷ [] else slot_at slot.old 0) }
    ensures slot { Slot slot.new 0 }
{
    let count = slot[0];
    if count >= 4 {
        return Err(Full);
    }
    let end = 1 + 3 * count as usize;
    slot[end..end + 3].copy_from_slice(&[message.kind, message.event, message.extra]);
    slot[0] = count + 1;
    Ok(())
}

// Takes the oldest message of a pair.
pub(crate) fn pop(slot: &mut [u8]) -> Option<Message>
    requires { (length slot.old ≡ 13) × Slot slot.old 0 }
    ensures answer { result ≡ oldest (slot_at slot.old 0) }
    ensures list { slot_at slot.new 0 ≡ younger (slot_at slot.old 0) }
    ensures slot { Slot slot.new 0 }
{
    let count = slot[0];
    if count == 0 {
        return None;
    }
    let oldest = Message {
        kind: slot[1],
        event: slot[2],
        extra: slot[3],
    };
    slot.copy_within(4.., 1);
    slot[10..].fill(0);
    slot[0] = count - 1;
    Some(oldest)
}
