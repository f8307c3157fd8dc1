// The reader and the writer, as the crate border has them.
ghost use Rattle.std.specs.Prelude.{◌≡◌, ◌/◌, length};
ghost use Rattle.message.specs.Numbers.{read_answer};
ghost use Rattle.border.specs.MessageBytes.{border_write_answer, border_frame, border_fields};

use border::messages;

// Takes exactly one message of a network of `count` units from the bytes and lays its fields at the start of `fields`;
// answers 100 plus the number of entries.
#[unsafe(no_mangle)]
pub extern "C" fn puntclover_message_read(count: u32, bytes: &[u8], fields: &mut [u8]) -> u32
    ensures answer { result ≡ read_answer count bytes.now (length fields.old / 4) }
    ensures fields { fields.new ≡ border_fields count bytes.now fields.old }
{
    messages::puntclover_message_read(count, bytes, fields)
}

// Lays the message with these fields into the frame from `offset` on; answers 100 plus its length. The bytes before and after
// it stay.
#[unsafe(no_mangle)]
pub extern "C" fn puntclover_message_write(
    count: u32,
    kind: u32,
    sender: u32,
    changes: &[u8],
    frame: &mut [u8],
    offset: usize,
) -> u32
    ensures answer { result ≡ border_write_answer count kind sender changes.now (length frame.old) offset }
    ensures frame { frame.new ≡ border_frame count kind sender changes.now frame.old offset }
{
    messages::puntclover_message_write(count, kind, sender, changes, frame, offset)
}
