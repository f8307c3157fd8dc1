// The writer: one message to bytes, laid into the caller's frame from an offset on.
ghost use Rattle.std.specs.Prelude.{◌≡◌, ◌+◌, ◌*◌, ◌≤◌, IfOk, length};
ghost use Rattle.ground.specs.Limits.{message_room};
ghost use Rattle.ground.specs.Refused.{refused_as, answer_of};
ghost use Rattle.ground.specs.Rows.{filled};
ghost use Rattle.rules.specs.Message.{write_refusal, written};
ghost use Rattle.message.specs.Fields.{fields_of};
ghost use Rattle.message.specs.Writing.{write_answer, frame_after, Fitting, room_refusal, contents_of, laid_at_start};

use crate::fields;
use crate::kind::Kind;
use ground::refusals::Refusal;
use ground::{CHANGE_BASE, ENTRY_BASE, MESSAGE_ROOM};

// Refusals 1 and 7 of a message of so many entries. The room is counted in fours, so that no sum can wrap.
pub fn room_refusal(count: u32, entries: usize, places: usize, offset: usize) -> Result<(), Refusal>
    ensures { refused_as result ≡ room_refusal count entries places offset }
{
    fields::check_count(count)?;
    if places < offset {
        return Err(Refusal::Room);
    }
    if (places - offset) / 4 <= entries {
        return Err(Refusal::Room);
    }
    Ok(())
}

// The lowest refusal that applies.
fn check(
    count: u32,
    kind: u32,
    sender: u32,
    changes: &[u32],
    places: usize,
    offset: usize,
) -> Result<(), Refusal>
    ensures { refused_as result ≡ write_refusal count (fields_of kind sender changes.now) places offset }
{
    room_refusal(count, changes.len(), places, offset)?;
    let kind = Kind::try_from(kind)?;
    if !fields::legal_fields(count, kind, sender, changes) {
        return Err(Refusal::Message);
    }
    Ok(())
}

// The table of contents, in an array of zeros.
fn contents(kind: u32, sender: u32, changes: &[u32]) -> [u8; MESSAGE_ROOM]
    requires { Fitting kind sender changes.now }
    ensures { result ≡ filled message_room (contents_of kind sender changes.now) }
{
    let mut built = [0u8; MESSAGE_ROOM];
    built[0] = 1;
    built[1] = (sender % 256) as u8;
    built[2] = (kind % 256) as u8;
    built[3] = (changes.len() % 256) as u8;
    for (i, &change) in changes.iter().enumerate() {
        built[4 + i] = (change / CHANGE_BASE % 256) as u8;
    }
    built
}

// The whole message, with zeros after it: the bodies come after the contents.
fn build(kind: u32, sender: u32, changes: &[u32]) -> [u8; MESSAGE_ROOM]
    requires { Fitting kind sender changes.now }
    ensures { result ≡ filled message_room (written (fields_of kind sender changes.now)) }
{
    let mut built = contents(kind, sender, changes);
    for (i, &change) in changes.iter().enumerate() {
        let at = 4 + changes.len() + 3 * i;
        built[at] = (change / ENTRY_BASE % 256) as u8;
        built[at + 1] = (change / 256 % 256) as u8;
        built[at + 2] = (change % 256) as u8;
    }
    built
}

// The message at the start of `place`.
fn lay(kind: u32, sender: u32, changes: &[u32], place: &mut [u8])
    requires { Fitting kind sender changes.now × (4 + 4 * length changes.now ≤ length place.old) }
    ensures { place.new ≡ laid_at_start (fields_of kind sender changes.now) place.old }
{
    let built = build(kind, sender, changes);
    let bytes = 4 + 4 * changes.len();
    place[..bytes].copy_from_slice(&built[..bytes]);
}

// Lays the message with these fields into the frame from `offset` on and answers its length; bytes before and after it stay.
pub fn write(
    count: u32,
    kind: u32,
    sender: u32,
    changes: &[u32],
    frame: &mut [u8],
    offset: usize,
) -> Result<usize, Refusal>
    ensures answer { answer_of result ≡ write_answer count (fields_of kind sender changes.now) (length frame.old) offset }
    ensures short { IfOk result (λ bytes. bytes ≤ message_room) }
    ensures frame { frame.new ≡ frame_after count (fields_of kind sender changes.now) frame.old offset }
{
    check(count, kind, sender, changes, frame.len(), offset)?;
    lay(kind, sender, changes, &mut frame[offset..]);
    Ok(4 + 4 * changes.len())
}
