// The calls of one unit, over the table of numbers that the caller lends. A refusal leaves the table and the buffer as they came;
// an accepted call answers the bytes used in the buffer.
ghost use Rattle.std.specs.Prelude.{◌≡◌, ◌≤◌, IfOk, length, unwrap_or};
ghost use Rattle.ground.specs.Limits.{firmware_room};
ghost use Rattle.ground.specs.Refused.{answer_of};
ghost use Rattle.rules.specs.Event.{reaction_by};
ghost use Rattle.rules.specs.Hub.{table_answer, table_after, buffer_after, outgoing, outgoing_laid};
ghost use Rattle.rules.specs.Tables.{unit_words, laid_unit};
ghost use Rattle.state.specs.Holding.{unit_of};
ghost use Rattle.unit.specs.Calls.{call_of, Notable, NotedBy};
ghost use Rattle.unit.specs.Reacted.{FitHeld};
ghost use Rattle.unit.specs.declared.calls.Call.TheVariants.{Message};

use crate::{event, noting, refusing};
use ground::refusals::Refusal;
use message::reader;
use state::held;
use state::held::Held;

// What can happen to a unit: the link to another unit comes up, gets another cost or goes down, or a message comes by it, whose
// bytes stand beside the call.
#[derive(Clone, Copy)]
pub enum Call {
    Up { to: u32, cost: u32 },
    Cost { to: u32, cost: u32 },
    Down { to: u32 },
    Message { from: u32 },
}

// What step A leaves: the unit, the neighbour whose link came up, and the one whose update is to be acknowledged.
#[derive(Clone, Copy)]
pub struct Noted {
    pub unit: Held,
    pub new: Option<usize>,
    pub owed: Option<usize>,
}

// Step A of a message that nothing refuses.
fn take(unit: Held, from: u32, bytes: &[u8]) -> Noted
    requires { Notable unit (Message from) bytes.now }
    ensures { NotedBy unit (Message from) bytes.now result }
{
    let read = reader::read(unit.count as u32, bytes);
    let Ok(header) = read.answer else {
        // No refusal is left to pass on: `refusing` read the same bytes.
        return Noted {
            unit,
            new: None,
            owed: None,
        };
    };
    let changes = read.changes;
    let owed = if header.kind.updates() {
        Some(from as usize)
    } else {
        None
    };
    Noted {
        unit: noting::received(unit, header.kind, from as usize, &changes[..header.entries]),
        new: None,
        owed,
    }
}

// Step A of a call that nothing refuses. It, the steps after it and the test before it are kept apart, so that none of them has
// the others' tables beside its own on the stack.
#[inline(never)]
fn note(unit: Held, call: Call, bytes: &[u8]) -> Noted
    requires { Notable unit call bytes.now }
    ensures { NotedBy unit call bytes.now result }
{
    match call {
        Call::Up { to, cost } => Noted {
            unit: noting::link_up(unit, to as usize, cost),
            new: Some(to as usize),
            owed: None,
        },
        Call::Cost { to, cost } => Noted {
            unit: noting::new_cost(unit, to as usize, cost),
            new: None,
            owed: None,
        },
        Call::Down { to } => Noted {
            unit: noting::link_down(unit, to as usize),
            new: None,
            owed: None,
        },
        Call::Message { from } => take(unit, from, bytes),
    }
}

// Steps B to F, and the table laid anew.
#[inline(never)]
fn finish(
    table: &mut [u32],
    unit: Held,
    was: bool,
    new: Option<usize>,
    owed: Option<usize>,
    out: &mut [u8],
) -> usize
    requires { FitHeld unit × (length table.old ≡ unit_words) × ((unwrap_or owed unit.count ≡ unit.me) → ⊥) × (firmware_room ≤ length out.old) }
    ensures answer { result ≡ length (outgoing (reaction_by (unit_of unit) was (unwrap_or new unit.count) (unwrap_or owed unit.count))) }
    ensures short { result ≤ firmware_room }
    ensures table { table.new ≡ laid_unit (reaction_by (unit_of unit) was (unwrap_or new unit.count) (unwrap_or owed unit.count)).unit }
    ensures sent { out.new ≡ outgoing_laid (reaction_by (unit_of unit) was (unwrap_or new unit.count) (unwrap_or owed unit.count)) out.old }
{
    let reacted = event::react(unit, was, new, owed, out);
    let after = reacted.unit;
    let successors = reacted.successors;
    held::put_unit(table, after, successors);
    reacted.used
}

// The unit's answer to a call: the lowest refusal that applies, or the bytes used.
pub fn answer(table: &mut [u32], call: Call, bytes: &[u8], out: &mut [u8]) -> Result<usize, Refusal>
    ensures answer { answer_of result ≡ table_answer table.old (length out.old) (call_of call bytes.now) }
    ensures short { IfOk result (λ used. used ≤ firmware_room) }
    ensures table { table.new ≡ table_after table.old (length out.old) (call_of call bytes.now) }
    ensures sent { out.new ≡ buffer_after table.old out.old (call_of call bytes.now) }
{
    refusing::check(table, call, bytes, out.len())?;
    let unit = held::unit_in(table);
    let was = held::is_active(unit);
    let noted = note(unit, call, bytes);
    let after = noted.unit;
    Ok(finish(table, after, was, noted.new, noted.owed, out))
}
