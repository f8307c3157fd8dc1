// The reader with the fields of the message in a lent table.
//
// The fields are laid at the table's start: kind, sender, number of entries, then the changes with zeros after the last. A
// refusal leaves the table as it came.
ghost use Rattle.std.specs.Prelude.{◌≡◌, ◌≤◌, IfOk, length};
ghost use Rattle.ground.specs.Limits.{entry_limit};
ghost use Rattle.ground.specs.Refused.{answer_of};
ghost use Rattle.message.specs.Numbers.{read_answer, fields_after, laid_fields, field_places};

use crate::reader::Header;
use crate::{fields, reader};
use ground::ENTRIES;
use ground::refusals::Refusal;

// The places before the changes, for kind, sender and number of entries.
const LEADING: usize = 3;

// The places that the fields of a message take.
const FIELDS: usize = LEADING + ENTRIES;

// The fields, at the start of the table.
fn lay_fields(kind: u32, sender: u32, entries: u32, changes: &[u32], fields: &mut [u32])
    requires { (length changes.now ≡ entry_limit) × (field_places ≤ length fields.old) }
    ensures { fields.new ≡ laid_fields kind sender entries changes.now fields.old }
{
    fields[0] = kind;
    fields[1] = sender;
    fields[2] = entries;
    fields[LEADING..FIELDS].copy_from_slice(changes);
}

// Takes exactly one message of a network of `count` units from the bytes, lays its fields at the start of `fields`, and
// answers the number of entries.
pub fn read(count: u32, bytes: &[u8], fields: &mut [u32]) -> Result<usize, Refusal>
    ensures answer { answer_of result ≡ read_answer count bytes.now (length fields.old) }
    ensures few { IfOk result (λ entries. entries ≤ entry_limit) }
    ensures fields { fields.new ≡ fields_after count bytes.now fields.old }
{
    fields::check_count(count)?;
    if fields.len() < FIELDS {
        return Err(Refusal::Room);
    }
    let reading = reader::read(count, bytes);
    let Ok(header) = reading.answer else {
        // A refusal is passed on as it is.
        return reading.answer.and(Ok(0));
    };
    let Header {
        kind,
        sender,
        entries,
    } = header;
    let changes = reading.changes;
    lay_fields(kind.number(), sender, entries as u32, &changes, fields);
    Ok(entries)
}
