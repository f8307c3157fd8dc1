// The refusals of a unit's calls, in the order of their numbers: the lowest that applies counts.
ghost use Rattle.std.specs.Prelude.{◌≡◌, ◌<◌};
ghost use Rattle.ground.specs.Refused.{refused_as};
ghost use Rattle.rules.specs.Hub.{hub_message, table_refusal};
ghost use Rattle.rules.specs.Network.{bad_ends, link_refusal};
ghost use Rattle.state.specs.Holding.{unit_of};
ghost use Rattle.unit.specs.Calls.{end_refusal, cost_in, first_refusal, content_refusal, call_of};
ghost use Rattle.unit.specs.Reacted.{FitHeld};

use crate::calls::Call;
use crate::noting;
use ground::refusals::Refusal;
use ground::{FIRMWARE_ROOM, is_legal_cost};
use message::reader;
use message::reader::Header;
use recomputing::heads;
use state::held::Held;
use state::{fit, held};

fn is_bad_end(count: usize, me: usize, to: u32) -> bool
    requires { me < count }
    ensures { result ≡ bad_ends count me to }
{
    if count <= to as usize {
        return true;
    }
    me == to as usize
}

// Refusals 2 and 3 of a call about the link to a unit.
fn check_end(table: &[u32], to: u32) -> Result<(), Refusal>
    ensures { refused_as result ≡ end_refusal table.now to }
{
    if !fit::is_fit(table) {
        return Err(Refusal::Unfit);
    }
    let count = table[0] as usize;
    let me = table[1] as usize;
    if is_bad_end(count, me, to) {
        return Err(Refusal::NoUnit);
    }
    Ok(())
}

// The cost of the link to a unit that is an end.
fn cost_to(table: &[u32], to: u32) -> u32
    requires { end_refusal table.now to ≡ 0 }
    ensures { result ≡ cost_in table.now to }
{
    table[held::COSTS + (to as usize)]
}

// Refusal 5 of a call that asks for a link that is up, 6 of another about one that is not.
pub fn link_refusal(up: bool, asks: bool) -> Result<(), Refusal>
    ensures { refused_as result ≡ link_refusal up asks }
{
    match (up, asks) {
        (true, true) => Err(Refusal::LinkUp),
        (false, false) => Err(Refusal::LinkDown),
        _ => Ok(()),
    }
}

// Refusals 2 to 7 of a call about the link to a unit: whether its cost is legal, and whether it asks for the link.
fn check_first(table: &[u32], to: u32, legal: bool, asks: bool, room: usize) -> Result<(), Refusal>
    ensures { refused_as result ≡ first_refusal table.now room to legal asks }
{
    check_end(table, to)?;
    if !legal {
        return Err(Refusal::Cost);
    }
    link_refusal(cost_to(table, to) != 0, asks)?;
    if room < FIRMWARE_ROOM {
        return Err(Refusal::Room);
    }
    Ok(())
}

// Refusals 9 to 12 of bytes that came by an up link.
#[inline(never)]
fn check_content(unit: Held, from: usize, bytes: &[u8]) -> Result<(), Refusal>
    requires { FitHeld unit × (from < unit.count) }
    ensures { refused_as result ≡ content_refusal (unit_of unit) from bytes.now }
{
    let read = reader::read(unit.count as u32, bytes);
    let Header {
        kind,
        sender,
        entries,
    } = read.answer?;
    if sender as usize != from {
        return Err(Refusal::Message);
    }
    let awaited = unit.awaited;
    if kind.acknowledges() && awaited[from] == 0 {
        return Err(Refusal::NotAwaited);
    }
    let copy = noting::copy_of(unit, from);
    let changes = read.changes;
    if noting::changes_nothing(copy, &changes[..entries]) {
        return Err(Refusal::ChangesNothing);
    }
    let after = noting::applied(copy, &changes[..entries]);
    if !heads::is_tree(&after[..unit.count], from) {
        return Err(Refusal::NotATree);
    }
    Ok(())
}

fn check_message(table: &[u32], from: u32, bytes: &[u8], room: usize) -> Result<(), Refusal>
    ensures { refused_as result ≡ table_refusal table.now room (hub_message from bytes.now) }
{
    check_first(table, from, true, false, room)?;
    check_content(held::unit_in(table), from as usize, bytes)
}

// The lowest refusal of a call.
#[inline(never)]
pub(crate) fn check(table: &[u32], call: Call, bytes: &[u8], room: usize) -> Result<(), Refusal>
    ensures { refused_as result ≡ table_refusal table.now room (call_of call bytes.now) }
{
    match call {
        Call::Up { to, cost } => check_first(table, to, is_legal_cost(cost), true, room),
        Call::Cost { to, cost } => check_first(table, to, is_legal_cost(cost), false, room),
        Call::Down { to } => check_first(table, to, true, false, room),
        Call::Message { from } => check_message(table, from, bytes, room),
    }
}
