// The reader and the writer of one message's bytes, for radio tools. The reader lays a message's fields into a lent table: kind,
// sender, number of entries, and the changes with zeros after the last. The four bytes of a change are its unit, its head and
// its cost, high byte first.
ghost use Rattle.std.specs.Prelude.{◌≡◌, ◌*◌, ◌/◌, ◌≤◌, length};
ghost use Rattle.ground.specs.Limits.{entry_limit};
ghost use Rattle.ground.specs.Rows.{filled};
ghost use Rattle.rules.specs.Tables.{words_of};
ghost use Rattle.message.specs.Numbers.{read_answer};
ghost use Rattle.border.specs.MessageBytes.{broken_refusal, border_write_answer, border_frame, border_fields};

use crate::{answers, words};
use ground::refusals::Refusal;
use ground::{ANSWERED, ENTRIES, UNITS};
use message::{numbers, writer};

// The numbers that the fields of a message take: kind, sender, number of entries, and the changes.
const FIELDS: usize = 3 + ENTRIES;

const FIELD_BYTES: usize = 4 * FIELDS;

// Takes exactly one message of a network of `count` units from the bytes and lays its fields at the start of `fields`;
// answers 100 plus the number of entries.
pub fn puntclover_message_read(count: u32, bytes: &[u8], fields: &mut [u8]) -> u32
    ensures answer { result ≡ read_answer count bytes.now (length fields.old / 4) }
    ensures fields { fields.new ≡ border_fields count bytes.now fields.old }
{
    if count < 2 {
        return Refusal::UnitCount.number();
    }
    if (UNITS as u32) < count {
        return Refusal::UnitCount.number();
    }
    if fields.len() < FIELD_BYTES {
        return Refusal::Room.number();
    }
    let mut numbers = [0u32; FIELDS];
    match numbers::read(count, bytes, &mut numbers) {
        Ok(entries) => {
            words::lay_numbers(&mut fields[..FIELD_BYTES], &numbers);
            ANSWERED + entries as u32
        }
        Err(refusal) => refusal.number(),
    }
}

// The refusal of bytes that are not those of changes, or of more than a message holds: 9, behind 1 and 7.
fn broken(count: u32, entries: usize, places: usize, offset: usize) -> u32
    ensures { result ≡ broken_refusal count entries places offset }
{
    match writer::room_refusal(count, entries, places, offset) {
        Ok(()) => Refusal::Message.number(),
        Err(refusal) => refusal.number(),
    }
}

// The changes in the bytes, with zeros after the last.
fn changes_in(bytes: &[u8], entries: usize) -> [u32; ENTRIES]
    requires { (length bytes.now ≡ 4 * entries) × (entries ≤ entry_limit) }
    ensures { result ≡ filled entry_limit (words_of bytes.now) }
{
    let mut numbers = [0u32; ENTRIES];
    words::take_numbers(&mut numbers[..entries], bytes);
    numbers
}

// Lays the message with these fields into the frame from `offset` on; answers 100 plus its length. The bytes before and after
// it stay.
pub fn puntclover_message_write(
    count: u32,
    kind: u32,
    sender: u32,
    changes: &[u8],
    frame: &mut [u8],
    offset: usize,
) -> u32
    ensures answer { result ≡ border_write_answer count kind sender changes.now (length frame.old) offset }
    ensures frame { frame.new ≡ border_frame count kind sender changes.now frame.old offset }
{
    let entries = changes.len() / 4;
    if changes.len() % 4 != 0 {
        return broken(count, entries, frame.len(), offset);
    }
    if ENTRIES < entries {
        return broken(count, entries, frame.len(), offset);
    }
    let numbers = changes_in(changes, entries);
    answers::length(writer::write(count, kind, sender, &numbers[..entries], frame, offset))
}
