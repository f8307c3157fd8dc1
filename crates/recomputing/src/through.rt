// Distances through neighbours, a row for each neighbour's copy, and which neighbour is preferred for a unit.
ghost use Rattle.std.specs.Prelude.{◌≡◌, ◌≤◌, ◌<◌, IfSome, unwrap_or};
ghost use Rattle.ground.specs.Limits.{unit_limit, far};
ghost use Rattle.ground.specs.Rows.{at, tab, filled, filled_rows};
ghost use Rattle.tree.specs.Recompute.{preferred as preferences};
ghost use Rattle.recomputing.specs.Flat.{through_in};

use crate::{copies, heads};
use ground::{COPIES, FAR, UNITS};

// A row of unreachable, for a unit whose link is down.
pub(crate) fn far_row(count: usize) -> [u32; UNITS]
    requires { count ≤ unit_limit }
    ensures { result ≡ filled unit_limit (tab count (λ j. far)) }
{
    let mut row = [0u32; UNITS];
    row[..count].fill(FAR);
    row
}

// A row of distances for each neighbour, returned filled.
pub fn through_neighbours(
    count: usize,
    costs: [u32; UNITS],
    copies: &[u32],
) -> [[u32; UNITS]; UNITS]
    ensures { result ≡ filled_rows unit_limit (through_in count costs copies.now) }
{
    let mut rows = [[0u32; UNITS]; UNITS];
    if UNITS < count {
        return rows;
    }
    if copies.len() != COPIES {
        return rows;
    }
    for k in 0..count {
        if costs[k] == 0 {
            rows[k] = far_row(count);
        } else {
            rows[k] = copies::distances(copies, count, k);
        }
    }
    rows
}

// The preferred neighbour for unit j, if one reaches it: the least sum of link cost and distance, of equal sums the lowest number.
pub(crate) fn preferred_for(
    count: usize,
    costs: [u32; UNITS],
    through: [[u32; UNITS]; UNITS],
    j: usize,
) -> Option<usize>
    requires { (count ≤ unit_limit) × (j < count) }
    ensures below { IfSome result (λ k. k < count) }
    ensures preferred { unwrap_or result count ≡ at (preferences count costs through) j }
{
    let mut nearest = FAR;
    let mut best = None;
    for k in 0..count {
        let sum = heads::plus(costs[k], through[k][j]);
        if sum < nearest {
            nearest = sum;
            best = Some(k);
        }
    }
    best
}
