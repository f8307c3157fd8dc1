// The links over which a unit's new tree is made: its own, and for each other unit those of the preferred neighbour's copy.
ghost use Rattle.std.specs.Prelude.{◌≡◌, ◌≤◌, length};
ghost use Rattle.ground.specs.Limits.{unit_limit};
ghost use Rattle.ground.specs.Rows.{at, tab, filled, filled_rows};
ghost use Rattle.tree.specs.Recompute.{preferred};
ghost use Rattle.recomputing.specs.Flat.{flat_length, copies_in};
ghost use Rattle.recomputing.specs.Legal.{legal_link, own_links, link_from, legal_taken};

use crate::{copies, through};
use ground::{ENTRY_BASE, FAR, HIGHEST_COST, UNITS};

// A cost that a link has, or unreachable.
fn legal_link(cost: u32) -> u32
    ensures { result ≡ legal_link cost }
{
    if cost < 1 {
        return FAR;
    }
    if HIGHEST_COST < cost {
        return FAR;
    }
    cost
}

// The links out of this unit, with their present costs.
fn own_row(count: usize, costs: [u32; UNITS]) -> [u32; UNITS]
    requires { count ≤ unit_limit }
    ensures { result ≡ filled unit_limit (own_links count costs) }
{
    let mut row = [0u32; UNITS];
    for j in 0..count {
        row[j] = legal_link(costs[j]);
    }
    row
}

// The cost of the link from unit i that an entry gives, where i is its head.
fn link_from(i: usize, entry: u32) -> u32
    ensures { result ≡ link_from i entry }
{
    if (entry / ENTRY_BASE) as usize != i {
        return FAR;
    }
    legal_link(entry % ENTRY_BASE)
}

// The links out of unit i in a copy.
fn copied_row(copy: [u32; UNITS], count: usize, i: usize) -> [u32; UNITS]
    requires { count ≤ unit_limit }
    ensures { result ≡ filled unit_limit (tab count (λ j. link_from i (at copy j))) }
{
    let mut row = [0u32; UNITS];
    for j in 0..count {
        row[j] = link_from(i, copy[j]);
    }
    row
}

// A row of links out of each unit; none out of one that no neighbour reaches.
pub(crate) fn taken_links(
    count: usize,
    me: usize,
    costs: [u32; UNITS],
    copies: &[u32],
    through: [[u32; UNITS]; UNITS],
) -> [[u32; UNITS]; UNITS]
    requires { (count ≤ unit_limit) × (length copies.now ≡ flat_length) }
    ensures { result ≡ filled_rows unit_limit (legal_taken count me costs (copies_in count copies.now) (preferred count costs through)) }
{
    let mut rows = [[0u32; UNITS]; UNITS];
    for i in 0..count {
        if i == me {
            rows[i] = own_row(count, costs);
        } else if let Some(k) = through::preferred_for(count, costs, through, i) {
            rows[i] = copied_row(copies::copy_of(copies, k), count, i);
        } else {
            rows[i] = through::far_row(count);
        }
    }
    rows
}
