// Steps B to F of one event, on the arrays of a unit whose tables step A has changed.
ghost use Rattle.std.specs.Prelude.{◌≡◌, not, ◌≤◌, length, take, unwrap_or};
ghost use Rattle.std.specs.Prelude.{if◌then◌else◌};
ghost use Rattle.ground.specs.Limits.{unit_limit, firmware_room};
ghost use Rattle.ground.specs.Rows.{same, filled};
ghost use Rattle.rules.specs.Event.{changed as isChangedTree, is_alone};
ghost use Rattle.rules.specs.Tables.{laid_row};
ghost use Rattle.rules.specs.Unit.{is_active};
ghost use Rattle.tree.specs.Recompute.{recomputed as recomputedTree};
ghost use Rattle.state.specs.Holding.{unit_of};
ghost use Rattle.rules.specs.Event.{new_feasible};
ghost use Rattle.unit.specs.Reacted.{FitHeld, through_of, lowering_for, lowered_to, lowered_row, wait_to, awaited_row, reacted_of, reacted_out};

use crate::send;
use ground::UNITS;
use recomputing::{heads, recompute, successors, through};
use state::held;
use state::held::Held;

// What an event leaves: the unit, its successor sets, and the bytes used for its messages.
#[derive(Clone, Copy)]
pub struct Reacted {
    pub unit: Held,
    pub successors: [u32; UNITS],
    pub used: usize,
}

// Whether no link is up.
fn is_alone(unit: Held) -> bool
    requires { unit.count ≤ unit_limit }
    ensures { result ≡ is_alone (unit_of unit) }
{
    let costs = unit.costs;
    slices::is_nothing(&costs[..unit.count])
}

// Whether two rows differ below the count.
fn is_changed(count: usize, old: [u32; UNITS], new: [u32; UNITS]) -> bool
    requires { count ≤ unit_limit }
    ensures { result ≡ not (same (take count old) (take count new)) }
{
    old[..count] != new[..count]
}

// The tree: kept, or recomputed.
fn new_tree(unit: Held, kept: bool, through: [[u32; UNITS]; UNITS]) -> [u32; UNITS]
    requires { FitHeld unit × (through ≡ through_of (unit_of unit)) }
    ensures { result ≡ laid_row (if kept then (unit_of unit).tree else recomputedTree unit.count unit.me (unit_of unit).costs (unit_of unit).copies) }
{
    if kept {
        return unit.tree;
    }
    let costs = unit.costs;
    let copies = unit.copies;
    recompute::recomputed(unit.count, unit.me, costs, &copies, through)
}

// How feasible distances follow.
#[derive(Clone, Copy)]
pub enum Lowering {
    // The tree changed and there is no neighbour: the new distances.
    Alone,
    // It was PASSIVE: the smaller of itself and the new distance.
    Passive,
    // It still awaits somebody: as it was.
    Waiting,
    // It was ACTIVE and awaits nobody now: the smaller of old and new distance.
    Released,
}

// Which way feasible distances go.
fn way(alone: bool, was: bool, active: bool) -> Lowering
    ensures { result ≡ lowering_for alone was active }
{
    if alone {
        return Lowering::Alone;
    }
    if !was {
        return Lowering::Passive;
    }
    if active {
        Lowering::Waiting
    } else {
        Lowering::Released
    }
}

// Where one feasible distance goes, from itself and the distances in the old and the new tree.
fn lowered(how: Lowering, feasible: u32, old: u32, new: u32) -> u32
    ensures { result ≡ lowered_to how feasible old new }
{
    match how {
        Lowering::Alone => new,
        Lowering::Passive => feasible.min(new),
        Lowering::Waiting => feasible,
        Lowering::Released => old.min(new),
    }
}

fn new_feasible(
    count: usize,
    how: Lowering,
    feasible: [u32; UNITS],
    old: [u32; UNITS],
    new: [u32; UNITS],
) -> [u32; UNITS]
    requires { count ≤ unit_limit }
    ensures { result ≡ filled unit_limit (lowered_row count how feasible old new) }
{
    let mut row = [0u32; UNITS];
    for j in 0..count {
        row[j] = lowered(how, feasible[j], old[j], new[j]);
    }
    row
}

// The feasible distances, where the tree is the new one.
fn feasible_after(
    unit: Held,
    was: bool,
    active: bool,
    tree: [u32; UNITS],
    changed: bool,
) -> [u32; UNITS]
    requires { (unit.count ≤ unit_limit) × (active ≡ is_active (unit_of unit)) × (changed ≡ isChangedTree (unit_of unit) (take unit.count tree)) }
    ensures { result ≡ laid_row (new_feasible (unit_of unit) was (take unit.count tree)) }
{
    let count = unit.count;
    let me = unit.me;
    let old = unit.tree;
    let feasible = unit.feasible;
    let how = way(changed && is_alone(unit), was, active);
    new_feasible(
        count,
        how,
        feasible,
        heads::distances(old, count, me),
        heads::distances(tree, count, me),
    )
}

// The wait on one neighbour: it is awaited where its link is up and it is sent an update.
fn wait(cost: u32, awaited: u32, changed: bool, new: bool) -> u32
    ensures { result ≡ wait_to cost awaited changed new }
{
    if cost != 0 && (changed || new) {
        1
    } else {
        awaited
    }
}

// The waits: each neighbour that is sent an update is awaited.
fn new_awaited(
    count: usize,
    costs: [u32; UNITS],
    awaited: [u32; UNITS],
    changed: bool,
    new: Option<usize>,
) -> [u32; UNITS]
    requires { count ≤ unit_limit }
    ensures { result ≡ filled unit_limit (awaited_row count costs awaited changed (unwrap_or new count)) }
{
    let mut row = [0u32; UNITS];
    for k in 0..count {
        row[k] = wait(costs[k], awaited[k], changed, new == Some(k));
    }
    row
}

// The whole of steps B to F. `was` says whether the unit was ACTIVE before step A; `new` is the neighbour whose link came
// up, `owed` the one that is owed an acknowledgment.
pub(crate) fn react(
    unit: Held,
    was: bool,
    new: Option<usize>,
    owed: Option<usize>,
    out: &mut [u8],
) -> Reacted
    requires { FitHeld unit × ((unwrap_or owed unit.count ≡ unit.me) → ⊥) × (firmware_room ≤ length out.old) }
    ensures reacted { result ≡ reacted_of (unit_of unit) was (unwrap_or new unit.count) (unwrap_or owed unit.count) }
    ensures short { result.used ≤ firmware_room }
    ensures sent { out.new ≡ reacted_out (unit_of unit) was (unwrap_or new unit.count) (unwrap_or owed unit.count) out.old }
{
    let count = unit.count;
    let costs = unit.costs;
    let copies = unit.copies;
    let through = through::through_neighbours(count, costs, &copies);
    let active = held::is_active(unit);
    let tree = new_tree(unit, was && active, through);
    let old = unit.tree;
    let changed = is_changed(count, old, tree);
    let feasible = feasible_after(unit, was, active, tree, changed);
    let waits = unit.awaited;
    let awaited = new_awaited(count, costs, waits, changed, new);
    let used = send::send(unit, tree, changed, new, owed, out);
    let successors = successors::sets_over(count, through, feasible);
    Reacted {
        unit: Held {
            count,
            me: unit.me,
            costs,
            awaited,
            tree,
            feasible,
            copies,
        },
        successors,
        used,
    }
}
