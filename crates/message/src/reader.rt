// The reader: bytes to one message.
ghost use Rattle.std.specs.Prelude.{◌≡◌, ◌+◌, ◌*◌, ◌<◌, not, length};
ghost use Rattle.ground.specs.Limits.{entry_limit, unit_limit};
ghost use Rattle.ground.specs.Refusal.{◌gives◌};
ghost use Rattle.ground.specs.Refused.{number_of};
ghost use Rattle.ground.specs.Rows.{at, tab, zeros, filled};
ghost use Rattle.ground.specs.Said.{refused_with, said};
ghost use Rattle.rules.specs.Message.{change_at, message_of, legal_message, read_refusal};
ghost use Rattle.message.specs.Fields.{fields_of};
ghost use Rattle.message.specs.Reading.{reading_said, message_values, changes_read, is_framed, Framed};

use crate::fields;
use crate::kind::Kind;
use ground::refusals::Refusal;
use ground::{CHANGE_BASE, ENTRIES, ENTRY_BASE};

// What stands before a message's entries, and how many these are.
#[derive(Clone, Copy)]
pub struct Header {
    pub kind: Kind,
    pub sender: u32,
    pub entries: usize,
}

// The answer with the message's changes beside it, as one number each; zeros after the last, and in a refusal.
#[derive(Clone, Copy)]
pub struct Reading {
    pub answer: Result<Header, Refusal>,
    pub changes: [u32; ENTRIES],
}

fn refused(refusal: Refusal) -> Reading
    ensures answer { reading_said result.answer ≡ refused_with (number_of refusal) }
    ensures changes { result.changes ≡ zeros entry_limit }
{
    Reading {
        answer: Err(refusal),
        changes: [0u32; ENTRIES],
    }
}

// Edition 1, and as many bytes as the number of entries says.
fn is_framed(bytes: &[u8]) -> bool
    ensures { result ≡ is_framed bytes.now }
{
    if bytes.len() < 4 {
        return false;
    }
    if bytes[0] != 1 {
        return false;
    }
    bytes.len() == 4 + 4 * usize::from(bytes[3])
}

// The change at place i of the entries: its unit from the table of contents, its body from the bodies.
fn change_at(bytes: &[u8], entries: usize, i: usize) -> u32
    requires { (i < entries) × (entries < 256) × (length bytes.now ≡ 4 + 4 * entries) }
    ensures { result ≡ change_at bytes.now entries i }
{
    let unit = u32::from(bytes[4 + i]);
    let at = 4 + entries + 3 * i;
    let head = u32::from(bytes[at]);
    let high = u32::from(bytes[at + 1]);
    let low = u32::from(bytes[at + 2]);
    unit * CHANGE_BASE + (head * ENTRY_BASE + high * 256 + low)
}

// All changes, in their order.
fn changes_in(bytes: &[u8], entries: usize) -> [u32; ENTRIES]
    requires { (entries < unit_limit) × (length bytes.now ≡ 4 + 4 * entries) }
    ensures { result ≡ filled entry_limit (tab entries (change_at bytes.now entries)) }
{
    let mut changes = [0u32; ENTRIES];
    for i in 0..entries {
        changes[i] = change_at(bytes, entries, i);
    }
    changes
}

// What stands before the changes of framed bytes, if all fields are legal.
fn header_of(count: u32, bytes: &[u8], changes: &[u32]) -> Result<Header, Refusal>
    requires { Framed count bytes.now }
    ensures { reading_said result ≡ said (not (legal_message count (fields_of (at bytes.now 2) (at bytes.now 1) changes.now)) gives 9) (message_values (fields_of (at bytes.now 2) (at bytes.now 1) changes.now)) }
{
    let kind = Kind::try_from(u32::from(bytes[2]))?;
    let sender = u32::from(bytes[1]);
    if !fields::legal_fields(count, kind, sender, changes) {
        return Err(Refusal::Message);
    }
    Ok(Header {
        kind,
        sender,
        entries: changes.len(),
    })
}

// The message of framed bytes.
fn read_framed(count: u32, bytes: &[u8]) -> Reading
    requires { Framed count bytes.now }
    ensures answer { reading_said result.answer ≡ said (read_refusal count bytes.now) (message_values (message_of bytes.now)) }
    ensures changes { result.changes ≡ changes_read count bytes.now }
{
    let entries = usize::from(bytes[3]);
    if (count as usize) <= entries {
        return refused(Refusal::Message);
    }
    let changes = changes_in(bytes, entries);
    let answer = header_of(count, bytes, &changes[..entries]);
    match answer {
        Ok(_) => Reading { answer, changes },
        Err(refusal) => refused(refusal),
    }
}

// Takes exactly one message of a network of `count` units from the bytes.
pub fn read(count: u32, bytes: &[u8]) -> Reading
    ensures answer { reading_said result.answer ≡ said (read_refusal count bytes.now) (message_values (message_of bytes.now)) }
    ensures changes { result.changes ≡ changes_read count bytes.now }
{
    if let Err(refusal) = fields::check_count(count) {
        return refused(refusal);
    }
    if !is_framed(bytes) {
        return refused(Refusal::Message);
    }
    read_framed(count, bytes)
}
