// A unit's event, told to a copy of its table: what the unit refuses, or the table it leaves and the messages it sends. The
// network's own tables stay until it is known that the messages find room.
ghost use Rattle.std.specs.Prelude.{[], ◌≡◌, min, IfOk};
ghost use Rattle.ground.specs.Limits.{firmware_room};
ghost use Rattle.rules.specs.Hub.{table_answer};
ghost use Rattle.rules.specs.Message.{written_length};
ghost use Rattle.rules.specs.Tables.{queue_bytes};
ghost use Rattle.unit.specs.Calls.{call_of};
ghost use Rattle.fitness.specs.UnitTables.{table_of};
ghost use Rattle.events.specs.Telling.{told_as, laid_as, told_by, nothing_told, first_answer, first_told, first_laid};

use fitness::tables;
use ground::refusals::Refusal;
use ground::{FIRMWARE_ROOM, QUEUE_BYTES, UNIT_WORDS};
use queues::queue;
use unit::calls;
use unit::calls::Call;

// The table that a unit's event leaves, its messages in the buffer, and the bytes used for them.
#[derive(Clone, Copy)]
pub struct Told {
    pub table: [u32; UNIT_WORDS],
    pub sent: [u8; FIRMWARE_ROOM],
    pub used: usize,
}

// What is told before any event: no table and no message.
pub fn nothing() -> Told
    ensures { result ≡ nothing_told }
{
    Told {
        table: [0u32; UNIT_WORDS],
        sent: [0u8; FIRMWARE_ROOM],
        used: 0,
    }
}

// Unit i is told of a call, with a message's bytes beside it.
fn tell_bytes(
    words: &[u32],
    i: u32,
    call: Call,
    bytes: &[u8],
    told: &mut Told,
) -> Result<(), Refusal>
    ensures answer { laid_as result told.new ≡ table_answer (table_of words.now i) firmware_room (call_of call bytes.now) }
    ensures told { told.new ≡ told_by (table_of words.now i) (call_of call bytes.now) }
{
    told.table = tables::load(words, i as usize);
    told.sent = [0u8; FIRMWARE_ROOM];
    told.used = 0;
    told.used = calls::answer(&mut told.table, call, bytes, &mut told.sent)?;
    Ok(())
}

// Unit i is told of a call that brings no bytes, and what it leaves is laid into the caller's struct: in a `Result` it would
// stand on the stack three times on its way out.
pub fn tell_into(words: &[u32], i: u32, call: Call, told: &mut Told) -> Result<(), Refusal>
    ensures answer { laid_as result told.new ≡ table_answer (table_of words.now i) firmware_room (call_of call []) }
    ensures told { told.new ≡ told_by (table_of words.now i) (call_of call []) }
{
    tell_bytes(words, i, call, b"", told)
}

// The same, handed out.
pub fn tell(words: &[u32], i: u32, call: Call) -> Result<Told, Refusal>
    ensures answer { told_as result ≡ table_answer (table_of words.now i) firmware_room (call_of call []) }
    ensures told { IfOk result (λ told. told ≡ told_by (table_of words.now i) (call_of call [])) }
{
    let mut told = nothing();
    tell_into(words, i, call, &mut told)?;
    Ok(told)
}

// The bytes of a queue's first message, no more than the queue has.
fn first_length(entries: u8) -> usize
    ensures { result ≡ min (written_length entries) queue_bytes }
{
    (4 + 4 * entries as usize).min(QUEUE_BYTES)
}

// Unit b is told of the first message in the queue from a, if there is one; else nothing is laid.
pub fn tell_first_into(
    words: &[u32],
    queues: &[u8],
    a: u32,
    b: u32,
    told: &mut Told,
) -> Result<(), Refusal>
    ensures answer { laid_as result told.new ≡ first_answer words.now queues.now a b }
    ensures told { told.new ≡ first_laid words.now queues.now a b told.old }
{
    let queue = queue::load(queues, a as usize, b as usize);
    if queue[0] == 0 {
        return Err(Refusal::NoMessage);
    }
    let length = first_length(queue[3]);
    tell_bytes(words, b, Call::Message { from: a }, &queue[..length], told)
}

// The same, handed out.
pub fn tell_first(words: &[u32], queues: &[u8], a: u32, b: u32) -> Result<Told, Refusal>
    ensures answer { told_as result ≡ first_answer words.now queues.now a b }
    ensures told { IfOk result (λ told. told ≡ first_told words.now queues.now a b) }
{
    let mut told = nothing();
    tell_first_into(words, queues, a, b, &mut told)?;
    Ok(told)
}
