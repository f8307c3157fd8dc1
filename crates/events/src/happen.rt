// An event that a unit was told of takes place where its messages find room: its table and its messages are put where they
// belong. A refusal leaves both tables as they came.
ghost use Rattle.std.specs.Prelude.{◌&&◌, ◌≡◌};
ghost use Rattle.ground.specs.Refused.{done_of};
ghost use Rattle.fitness.specs.UnitTables.{with_table};
ghost use Rattle.events.specs.Happening.{finds_room, is_sent, popped_if, emptied_if, one_answer, one_words, one_bytes, both_answer, both_words, both_bytes};

use crate::tell::Told;
use fitness::tables;
use ground::refusals::Refusal;
use queues::{parcels, queue};

// Whether what unit i sends finds room.
fn has_room(queues: &[u8], count: usize, i: u32, told: Told) -> bool
    ensures { result ≡ finds_room queues.now count i told }
{
    let sent = told.sent;
    parcels::has_room(queues, count, i as usize, &sent, told.used)
}

// Whether what units a and b send finds room.
fn have_room(queues: &[u8], count: usize, a: u32, one: Told, b: u32, two: Told) -> bool
    ensures { result ≡ (finds_room queues.now count a one && finds_room queues.now count b two) }
{
    has_room(queues, count, a, one) && has_room(queues, count, b, two)
}

// Unit i's event takes place.
fn happens(words: &mut [u32], queues: &mut [u8], count: usize, i: u32, told: Told)
    ensures words { words.new ≡ with_table words.old i told.table }
    ensures queues { queues.new ≡ is_sent queues.old count i told }
{
    let table = told.table;
    tables::put(words, i as usize, table);
    let sent = told.sent;
    parcels::send(queues, count, i as usize, &sent, told.used);
}

// The first message of the queue from a to b is taken out of it, if asked.
fn pop_if(queues: &mut [u8], a: u32, b: u32, pops: bool)
    ensures { queues.new ≡ popped_if pops queues.old a b }
{
    if pops {
        queue::pop(queues, a as usize, b as usize);
    }
}

// Both queues of the link between a and b are emptied, if asked.
fn clear_if(queues: &mut [u8], a: u32, b: u32, clears: bool)
    ensures { queues.new ≡ emptied_if clears queues.old a b }
{
    if clears {
        queue::clear_link(queues, a as usize, b as usize);
    }
}

// An event at unit i; where it is a delivery, the message is taken out of the queue from the other unit.
pub fn at_one(
    words: &mut [u32],
    queues: &mut [u8],
    other: u32,
    i: u32,
    told: Told,
    pops: bool,
) -> Result<(), Refusal>
    ensures answer { done_of result ≡ one_answer words.old queues.old i told }
    ensures words { words.new ≡ one_words words.old queues.old i told }
    ensures queues { queues.new ≡ one_bytes words.old queues.old other i told pops }
{
    let count = tables::count(words);
    if !has_room(queues, count, i, told) {
        return Err(Refusal::QueueFull);
    }
    pop_if(queues, other, i, pops);
    happens(words, queues, count, i, told);
    Ok(())
}

// An event at each of two units; where the link between them goes down, its queues are emptied first.
pub fn at_both(
    words: &mut [u32],
    queues: &mut [u8],
    a: u32,
    one: Told,
    b: u32,
    two: Told,
    clears: bool,
) -> Result<(), Refusal>
    ensures answer { done_of result ≡ both_answer words.old queues.old a one b two }
    ensures words { words.new ≡ both_words words.old queues.old a one b two }
    ensures queues { queues.new ≡ both_bytes words.old queues.old a one b two clears }
{
    let count = tables::count(words);
    if !have_room(queues, count, a, one, b, two) {
        return Err(Refusal::QueueFull);
    }
    clear_if(queues, a, b, clears);
    happens(words, queues, count, a, one);
    happens(words, queues, count, b, two);
    Ok(())
}
