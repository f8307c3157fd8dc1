// Whether the fields of a message are legal, for the reader and the writer alike.
ghost use Rattle.std.specs.Prelude.{◌≡◌, not};
ghost use Rattle.ground.specs.Limits.{legal_count};
ghost use Rattle.ground.specs.Refusal.{◌gives◌};
ghost use Rattle.ground.specs.Refused.{refused_as};
ghost use Rattle.rules.specs.Message.{legal_body, legal_changes, legal_message};
ghost use Rattle.message.specs.Fields.{legal_from, fields_of};
ghost use Rattle.message.specs.Kind.{kind_number};

use crate::kind::Kind;
use ground::refusals::Refusal;
use ground::{CHANGE_BASE, ENTRY_BASE, HIGHEST_COST, REMOVED, UNITS};

// Refusal 1, of a count that no network has.
pub(crate) fn check_count(count: u32) -> Result<(), Refusal>
    ensures { refused_as result ≡ (not (legal_count count) gives 1) }
{
    if count < 2 {
        return Err(Refusal::UnitCount);
    }
    if (UNITS as u32) < count {
        return Err(Refusal::UnitCount);
    }
    Ok(())
}

// A body sets a head and a cost for its unit, or removes its entry.
fn legal_body(count: u32, unit: u32, body: u32) -> bool
    ensures { result ≡ legal_body count unit body }
{
    if body == REMOVED {
        return true;
    }
    let head = body / ENTRY_BASE;
    if count <= head {
        return false;
    }
    if head == unit {
        return false;
    }
    let cost = body % ENTRY_BASE;
    if cost < 1 {
        return false;
    }
    cost <= HIGHEST_COST
}

// A change of a unit from `lowest` on, below the count and not the sender.
fn legal_change(count: u32, sender: u32, lowest: u32, change: u32) -> bool
    ensures { result ≡ legal_from count sender lowest change }
{
    let unit = change / CHANGE_BASE;
    if unit < lowest {
        return false;
    }
    if count <= unit {
        return false;
    }
    if unit == sender {
        return false;
    }
    legal_body(count, unit, change % CHANGE_BASE)
}

// Every change is legal, and their units rise.
fn legal_changes(count: u32, sender: u32, changes: &[u32]) -> bool
    ensures { result ≡ legal_changes count sender changes.now }
{
    let mut lowest: u32 = 0;
    for &change in changes {
        if !legal_change(count, sender, lowest, change) {
            return false;
        }
        lowest = change / CHANGE_BASE + 1;
    }
    true
}

// The fields are those of a legal message of a network of `count` units.
pub(crate) fn legal_fields(count: u32, kind: Kind, sender: u32, changes: &[u32]) -> bool
    ensures { result ≡ legal_message count (fields_of (kind_number kind) sender changes.now) }
{
    if count <= sender {
        return false;
    }
    if (count as usize) <= changes.len() {
        return false;
    }
    if !kind.updates() && changes.len() != 0 {
        return false;
    }
    legal_changes(count, sender, changes)
}
