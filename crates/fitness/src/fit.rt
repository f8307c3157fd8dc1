// Whether a network's tables are fit: each unit's table is, both ends of a link agree, each queue holds messages from its
// sender and only where the link is up, and all else holds zeros.
ghost use Rattle.std.specs.Prelude.{◌≡◌, ◌*◌, ◌≤◌, ◌<◌, length};
ghost use Rattle.ground.specs.Limits.{unit_limit, message_room, queue_room};
ghost use Rattle.ground.specs.Rows.{every};
ghost use Rattle.rules.specs.Tables.{network_words, network_bytes, queue_bytes, fit_tables, part};
ghost use Rattle.fitness.specs.PartsFit.{fit_table_at, fit_place, fit_bytes, fit_pair, fit_sender, fit_parts};
ghost use Rattle.queues.specs.Queue.{held_in};

use crate::tables;
use ground::{
    ENTRIES, MESSAGE_ROOM, NETWORK_BYTES, NETWORK_WORDS, QUEUE_BYTES, SENDER_BYTES, UNIT_WORDS,
    UNITS,
};
use message::reader;
use queues::queue;
use state::fit;

// One place of a queue: a message of its sender, and nothing after it.
fn fit_place(place: &[u8], count: usize, sender: usize) -> bool
    requires { (2 ≤ count) × (count ≤ unit_limit) × (length place.now ≡ message_room) }
    ensures { result ≡ fit_place count sender place.now }
{
    let entries = place[3] as usize;
    if ENTRIES < entries {
        return false;
    }
    let length = 4 + 4 * entries;
    let read = reader::read(count as u32, &place[..length]);
    let Ok(header) = read.answer else {
        return false;
    };
    if header.sender as usize != sender {
        return false;
    }
    slices::is_nothing(&place[length..])
}

// The same of place i of a queue.
fn fit_place_in(queue: &[u8], i: usize, count: usize, sender: usize) -> bool
    requires { (2 ≤ count) × (count ≤ unit_limit) × (length queue.now ≡ queue_bytes) × (i < queue_room) }
    ensures { result ≡ fit_place count sender (part queue.now (i * message_room) message_room) }
{
    let from = i * MESSAGE_ROOM;
    fit_place(&queue[from..from + MESSAGE_ROOM], count, sender)
}

// The messages of a queue.
fn fit_places(queue: &[u8], held: usize, count: usize, sender: usize) -> bool
    requires { (2 ≤ count) × (count ≤ unit_limit) × (length queue.now ≡ queue_bytes) × (held ≡ held_in queue.now) }
    ensures { result ≡ every held (λ i. fit_place count sender (part queue.now (i * message_room) message_room)) }
{
    (0..held).all(|i| fit_place_in(queue, i, count, sender))
}

// One queue: messages in its first places, none where the link is down, nothing after.
fn fit_queue(queue: &[u8], up: bool, count: usize, sender: usize) -> bool
    requires { (2 ≤ count) × (count ≤ unit_limit) × (length queue.now ≡ queue_bytes) }
    ensures { result ≡ fit_bytes count sender up queue.now }
{
    let held = queue::held(queue);
    let is_quiet = up || held == 0;
    is_quiet
        && fit_places(queue, held, count, sender)
        && slices::is_nothing(&queue[held * MESSAGE_ROOM..])
}

// The two tables of a network, of their lengths, with a count that a network has.
#[derive(Clone, Copy)]
struct Measured<'a> {
    words: &'a [u32],
    queues: &'a [u8],
    count: usize,
    ghost least: { 2 ≤ count },
    ghost most: { count ≤ unit_limit },
    ghost words_long: { length words.now ≡ network_words },
    ghost queues_long: { length queues.now ≡ network_bytes },
}

impl<'a> Measured<'a> {
    // Two units: their link, and the queue from a to b.
    fn fit_pair(&self, a: usize, b: usize) -> bool
        requires { (a < self.now.count) × (b < self.now.count) }
        ensures { result ≡ fit_pair self.now.words.now self.now.queues.now self.now.count a b }
    {
        let up = tables::is_linked(self.words, a, b);
        let from = queue::begins(a, b);
        up == tables::is_linked(self.words, b, a)
            && fit_queue(&self.queues[from..from + QUEUE_BYTES], up, self.count, a)
    }

    // The links of unit a, and the queues that it sends by.
    fn fit_pairs(&self, a: usize) -> bool
        requires { a < self.now.count }
        ensures { result ≡ every self.now.count (fit_pair self.now.words.now self.now.queues.now self.now.count a) }
    {
        (0..self.count).all(|b| self.fit_pair(a, b))
    }

    fn fit_sender(&self, a: usize) -> bool
        requires { a < self.now.count }
        ensures { result ≡ fit_sender self.now.words.now self.now.queues.now self.now.count a }
    {
        let from = queue::begins(a, self.count);
        self.fit_pairs(a) && slices::is_nothing(&self.queues[from..a * SENDER_BYTES + SENDER_BYTES])
    }

    fn fit_senders(&self) -> bool
        ensures { result ≡ every self.now.count (fit_sender self.now.words.now self.now.queues.now self.now.count) }
    {
        (0..self.count).all(|a| self.fit_sender(a))
    }

    fn fit_units(&self) -> bool
        ensures { result ≡ every self.now.count (fit_table_at self.now.words.now self.now.count) }
    {
        (0..self.count).all(|i| self.fit_table(i))
    }

    // Unit i's table: fit, with the network's count, and its own number is its place.
    fn fit_table(&self, i: usize) -> bool
        requires { i < unit_limit }
        ensures { result ≡ fit_table_at self.now.words.now self.now.count i }
    {
        let from = i * UNIT_WORDS;
        fit::is_fit(&self.words[from..from + UNIT_WORDS])
            && self.words[from] as usize == self.count
            && self.words[from + 1] as usize == i
    }
}

// The same as `is_fit`, said part by part.
fn are_parts_fit(words: &[u32], queues: &[u8]) -> bool
    ensures { result ≡ fit_parts words.now queues.now }
{
    if words.len() != NETWORK_WORDS {
        return false;
    }
    if queues.len() != NETWORK_BYTES {
        return false;
    }
    if words[0] < 2 {
        return false;
    }
    if (UNITS as u32) < words[0] {
        return false;
    }
    let count = words[0] as usize;
    let measured = Measured {
        words,
        queues,
        count,
    };
    measured.fit_units()
        && slices::is_nothing(&words[count * UNIT_WORDS..])
        && measured.fit_senders()
        && slices::is_nothing(&queues[count * SENDER_BYTES..])
}

pub fn is_fit(words: &[u32], queues: &[u8]) -> bool
    ensures { result ≡ fit_tables words.now queues.now }
{
    are_parts_fit(words, queues)
}
