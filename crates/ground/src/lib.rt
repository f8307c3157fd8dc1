// The product's limits in code. specs/Limits.antt names the same numbers for the definitions; a function's proof relies on
// both, and fails where they differ.
#![tactic(auto)]

ghost use Rattle.std.specs.Prelude.{◌≡◌};
ghost use Rattle.ground.specs.Limits.{legal_cost};

pub mod refusals;

// The most units that a network has.
pub const UNITS: usize = 16;

// The most entries that a message has: one for each unit but its sender.
pub const ENTRIES: usize = UNITS - 1;

// The bytes of the longest message.
pub const MESSAGE_ROOM: usize = 4 + 4 * ENTRIES;

// The room for the messages of one event: for each neighbour its number and a message.
pub const FIRMWARE_ROOM: usize = ENTRIES * (1 + MESSAGE_ROOM);

// The highest link cost, and the longest distance.
pub const HIGHEST_COST: u32 = 65535;

pub const LONGEST: u32 = (ENTRIES as u32) * HIGHEST_COST;

// The distance of what can't be reached, above all others.
pub const FAR: u32 = 4294967295;

// What a head counts in an entry, and a unit in a change.
pub const ENTRY_BASE: u32 = HIGHEST_COST + 1;

pub const CHANGE_BASE: u32 = 256 * ENTRY_BASE;

// The body of a change that removes an entry: head 255 and cost 0.
pub const REMOVED: u32 = 255 * ENTRY_BASE;

// The numbers in all copies of a unit, and in its whole table.
pub const COPIES: usize = UNITS * UNITS;

pub const UNIT_WORDS: usize = 2 + 5 * UNITS + COPIES;

// The messages that a queue holds, and the bytes of one queue, of the queues of one sender, and of all.
pub const QUEUE_ROOM: usize = 4;

pub const QUEUE_BYTES: usize = QUEUE_ROOM * MESSAGE_ROOM;

pub const SENDER_BYTES: usize = UNITS * QUEUE_BYTES;

pub const NETWORK_BYTES: usize = UNITS * SENDER_BYTES;

// The numbers in the tables of all units.
pub const NETWORK_WORDS: usize = UNITS * UNIT_WORDS;

// The frames that a meter holds, the largest size of one, the hop at which one ends, and the most bytes that may enter.
pub const FRAMES: usize = 64;

pub const HIGHEST_SIZE: u32 = 65535;

pub const HOPS: u32 = 64;

pub const ENTERED_LIMIT: u64 = 1000000000000000;

// The numbers in a meter's table: two for each of three figures, four for each place.
pub const METER_WORDS: usize = 6 + 4 * FRAMES;

// What is not refused answers this plus a value; every refusal is below it.
pub const ANSWERED: u32 = 100;

// Whether a number is a link's cost.
pub fn is_legal_cost(cost: u32) -> bool
    ensures { result ≡ legal_cost cost }
{
    if cost < 1 {
        return false;
    }
    cost <= HIGHEST_COST
}
