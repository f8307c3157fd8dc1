// Step A: what an event changes in a unit's tables before anything is recomputed.
ghost use Rattle.std.specs.Prelude.{◌≡◌, ◌<◌};
ghost use Rattle.ground.specs.Limits.{unit_limit};
ghost use Rattle.rules.specs.Event.{noted, link_up, new_cost, link_down, received as receivedMessage, changes_nothing};
ghost use Rattle.rules.specs.Message.{applied as appliedTo, entry_of};
ghost use Rattle.rules.specs.Tables.{laid_row};
ghost use Rattle.tree.specs.Recompute.{copy_of};
ghost use Rattle.message.specs.Fields.{fields_of};
ghost use Rattle.message.specs.Kind.{kind_number};
ghost use Rattle.state.specs.Holding.{held_of, unit_of};
ghost use Rattle.unit.specs.Noting.{Padded, UnitsBelow};

use ground::{CHANGE_BASE, COPIES, REMOVED, UNITS};
use message::kind::Kind;
use recomputing::copies;
use state::held::Held;

// The copy of unit k's tree.
pub(crate) fn copy_of(unit: Held, k: usize) -> [u32; UNITS]
    requires { Padded unit × (k < unit.count) }
    ensures { result ≡ laid_row (copy_of (unit_of unit).copies k) }
{
    let copies = unit.copies;
    copies::copy_of(&copies, k)
}

// The entry that a body sets.
fn entry_of(body: u32) -> u32
    ensures { result ≡ entry_of body }
{
    if body == REMOVED { 0 } else { body }
}

// A copy with all changes made.
pub(crate) fn applied(copy: [u32; UNITS], changes: &[u32]) -> [u32; UNITS]
    requires { UnitsBelow unit_limit changes.now }
    ensures { result ≡ appliedTo copy changes.now }
{
    let mut row = copy;
    for change in changes {
        let j = (change / CHANGE_BASE) as usize;
        row[j] = entry_of(change % CHANGE_BASE);
    }
    row
}

// Whether some change leaves the copy's entry as it is.
pub(crate) fn changes_nothing(copy: [u32; UNITS], changes: &[u32]) -> bool
    requires { UnitsBelow unit_limit changes.now }
    ensures { result ≡ changes_nothing copy changes.now }
{
    for change in changes {
        let j = (change / CHANGE_BASE) as usize;
        if copy[j] == entry_of(change % CHANGE_BASE) {
            return true;
        }
    }
    false
}

// The unit with other costs, waits and copies.
fn with_links(unit: Held, costs: [u32; UNITS], awaited: [u32; UNITS], copies: [u32; COPIES]) -> Held
    ensures { result ≡ record { count = unit.count; me = unit.me; costs = costs; awaited = awaited; tree = unit.tree; feasible = unit.feasible; copies = copies } }
{
    let tree = unit.tree;
    let feasible = unit.feasible;
    Held {
        count: unit.count,
        me: unit.me,
        costs,
        awaited,
        tree,
        feasible,
        copies,
    }
}

// Link up: the cost set, the copy empty.
pub(crate) fn link_up(unit: Held, k: usize, cost: u32) -> Held
    requires { Padded unit × (k < unit.count) }
    ensures { result ≡ held_of (noted (unit_of unit) (link_up k cost)) }
{
    let mut costs = unit.costs;
    costs[k] = cost;
    let awaited = unit.awaited;
    let copies = unit.copies;
    with_links(
        unit,
        costs,
        awaited,
        copies::with_copy(copies, k, [0u32; UNITS]),
    )
}

// Cost: the cost set.
pub(crate) fn new_cost(unit: Held, k: usize, cost: u32) -> Held
    requires { Padded unit × (k < unit.count) }
    ensures { result ≡ held_of (noted (unit_of unit) (new_cost k cost)) }
{
    let mut costs = unit.costs;
    costs[k] = cost;
    let awaited = unit.awaited;
    let copies = unit.copies;
    with_links(unit, costs, awaited, copies)
}

// Link down: cost, copy and wait removed.
pub(crate) fn link_down(unit: Held, k: usize) -> Held
    requires { Padded unit × (k < unit.count) }
    ensures { result ≡ held_of (noted (unit_of unit) (link_down k)) }
{
    let mut costs = unit.costs;
    costs[k] = 0;
    let mut awaited = unit.awaited;
    awaited[k] = 0;
    let copies = unit.copies;
    with_links(
        unit,
        costs,
        awaited,
        copies::with_copy(copies, k, [0u32; UNITS]),
    )
}

// A message: its acknowledgment clears the wait on the sender, its update changes the sender's copy.
pub(crate) fn received(unit: Held, kind: Kind, sender: usize, changes: &[u32]) -> Held
    requires { Padded unit × (sender < unit.count) × UnitsBelow unit.count changes.now }
    ensures { result ≡ held_of (noted (unit_of unit) (receivedMessage (fields_of (kind_number kind) sender changes.now))) }
{
    let costs = unit.costs;
    let mut awaited = unit.awaited;
    if kind.acknowledges() {
        awaited[sender] = 0;
    }
    let copies = unit.copies;
    if !kind.updates() {
        return with_links(unit, costs, awaited, copies);
    }
    let copy = applied(copy_of(unit, sender), changes);
    with_links(
        unit,
        costs,
        awaited,
        copies::with_copy(copies, sender, copy),
    )
}
