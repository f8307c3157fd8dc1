// Whether a unit's table is fit: what it holds is within the rules, and it is exactly what that unit lays out.
ghost use Rattle.std.specs.Prelude.{◌||◌, ◌≡◌, ◌≤◌, ◌<◌, eqb, leb};
ghost use Rattle.std.specs.Prelude.{if◌then◌else◌};
ghost use Rattle.ground.specs.Limits.{unit_limit, far, longest};
ghost use Rattle.ground.specs.Rows.{every};
ghost use Rattle.rules.specs.Tables.{fit_unit_table};
ghost use Rattle.rules.specs.Unit.{fit_link, fit_feasible, fit_unit};
ghost use Rattle.state.specs.Holding.{unit_of};

use crate::held;
use crate::held::Held;
use ground::{FAR, HIGHEST_COST, LONGEST, UNIT_WORDS, UNITS};
use recomputing::{copies, heads, successors, through};

// One link: down, without copy or wait; or up, at a legal cost, to another unit, with a copy that is a tree.
fn fit_link(unit: Held, k: usize) -> bool
    requires { (unit.count ≤ unit_limit) × (k < unit.count) }
    ensures { result ≡ fit_link (unit_of unit) k }
{
    let costs = unit.costs;
    let awaited = unit.awaited;
    let copies = unit.copies;
    let count = unit.count;
    let copy = copies::copy_of(&copies, k);
    if costs[k] == 0 {
        if awaited[k] != 0 {
            return false;
        }
        return slices::is_nothing(&copy[..count]);
    }
    if k == unit.me {
        return false;
    }
    if HIGHEST_COST < costs[k] {
        return false;
    }
    if 1 < awaited[k] {
        return false;
    }
    heads::is_tree(&copy[..count], k)
}

fn fit_links(unit: Held) -> bool
    requires { unit.count ≤ unit_limit }
    ensures { result ≡ every unit.count (fit_link (unit_of unit)) }
{
    (0..unit.count).all(|k| fit_link(unit, k))
}

// A feasible distance to unit j: 0 to the unit itself, else unreachable or at most the longest.
fn fit_distance(me: usize, j: usize, distance: u32) -> bool
    ensures { result ≡ (if eqb j me then eqb distance 0 else eqb distance far || leb distance longest) }
{
    if j == me {
        return distance == 0;
    }
    distance == FAR || distance <= LONGEST
}

fn fit_feasible(unit: Held) -> bool
    requires { unit.count ≤ unit_limit }
    ensures { result ≡ every unit.count (fit_feasible (unit_of unit)) }
{
    // The row alone: a closure over the whole unit would keep all of it on the stack.
    let me = unit.me;
    let feasible = unit.feasible;
    (0..unit.count).all(|j| fit_distance(me, j, feasible[j]))
}

fn fit_unit(unit: Held) -> bool
    requires { unit.count ≤ unit_limit }
    ensures { result ≡ fit_unit (unit_of unit) }
{
    let count = unit.count;
    let me = unit.me;
    let tree = unit.tree;
    if count < 2 {
        return false;
    }
    if count <= me {
        return false;
    }
    if !fit_links(unit) {
        return false;
    }
    if !heads::is_tree(&tree[..count], me) {
        return false;
    }
    fit_feasible(unit)
}

pub fn is_fit(table: &[u32]) -> bool
    ensures { result ≡ fit_unit_table table.now }
{
    if table.len() != UNIT_WORDS {
        return false;
    }
    if UNITS < table[0] as usize {
        return false;
    }
    let unit = held::load(table);
    if !fit_unit(unit) {
        return false;
    }
    let costs = unit.costs;
    let copies = unit.copies;
    let through = through::through_neighbours(unit.count, costs, &copies);
    let feasible = unit.feasible;
    let sets = successors::sets_over(unit.count, through, feasible);
    let mut again = [0u32; UNIT_WORDS];
    held::lay(&mut again, unit, sets);
    table == again.as_slice()
}
