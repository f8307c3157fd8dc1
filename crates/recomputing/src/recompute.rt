// Recomputing the tree: preferred neighbours, taken links, shortest distances, lowest heads.
ghost use Rattle.std.specs.Prelude.{◌≡◌, ◌≤◌, ◌<◌};
ghost use Rattle.ground.specs.Limits.{unit_limit};
ghost use Rattle.ground.specs.Rows.{at, filled};
ghost use Rattle.tree.specs.Recompute.{tree_over};
ghost use Rattle.tree.proofs.Shortest.{Links, ShortestFacts};
ghost use Rattle.tree.proofs.ShortestTree.{LegalLinks};
ghost use Rattle.recomputing.specs.Legal.{recomputed_from};

use crate::{heads, links, shortest};
use ground::{COPIES, ENTRY_BASE, FAR, UNITS};

// Unit j's entry in the tree over the links: its head is the lowest-numbered unit that gives its shortest distance.
fn entry_over(
    count: usize,
    links: [[u32; UNITS]; UNITS],
    distances: [u32; UNITS],
    me: usize,
    j: usize,
) -> u32
    requires { (count ≤ unit_limit) × (me < count) × (j < count) × Links count links × LegalLinks count links × ShortestFacts count me links (at distances) }
    ensures { result ≡ at (tree_over count me links distances) j }
{
    if j == me {
        return 0;
    }
    if distances[j] == FAR {
        return 0;
    }
    for i in 0..count {
        if heads::plus(distances[i], links[i][j]) == distances[j] {
            return (i as u32) * ENTRY_BASE + links[i][j];
        }
    }
    0
}

fn tree_over(
    count: usize,
    links: [[u32; UNITS]; UNITS],
    distances: [u32; UNITS],
    me: usize,
) -> [u32; UNITS]
    requires { (count ≤ unit_limit) × (me < count) × Links count links × LegalLinks count links × ShortestFacts count me links (at distances) }
    ensures { result ≡ filled unit_limit (tree_over count me links distances) }
{
    let mut row = [0u32; UNITS];
    for j in 0..count {
        row[j] = entry_over(count, links, distances, me, j);
    }
    row
}

// The recomputed tree, from the unit's link costs, its copies and the distances through its neighbours.
pub fn recomputed(
    count: usize,
    me: usize,
    costs: [u32; UNITS],
    copies: &[u32],
    through: [[u32; UNITS]; UNITS],
) -> [u32; UNITS]
    ensures { result ≡ filled unit_limit (recomputed_from count me costs copies.now through) }
{
    if UNITS < count {
        return [0u32; UNITS];
    }
    if copies.len() != COPIES {
        return [0u32; UNITS];
    }
    if count <= me {
        return [0u32; UNITS];
    }
    let links = links::taken_links(count, me, costs, copies, through);
    let distances = shortest::shortest(count, me, links);
    tree_over(count, links, distances, me)
}
