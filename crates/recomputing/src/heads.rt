// Trees in rows of numbers: the distance of a unit, and whether a row is a tree.
ghost use Rattle.std.specs.Prelude.{◌≡◌, ◌<◌, length};
ghost use Rattle.tree.specs.Tree.{plus as sum, distance_within, legal_entry, is_tree};
ghost use Rattle.recomputing.specs.Flat.{distances_in};

use ground::{ENTRY_BASE, FAR, UNITS};

// The sum of two distances, unreachable where it would pass the largest number.
pub fn plus(a: u32, b: u32) -> u32
    ensures { result ≡ sum a b }
{
    if FAR - a < b { FAR } else { a + b }
}

// The distance of unit j from the root, found by recursing on its head; `left` links remain.
pub fn distance(tree: &[u32], root: usize, left: usize, j: usize) -> u32
    ensures { result ≡ distance_within root tree.now left j }
{
    if j == root {
        return 0;
    }
    if left == 0 {
        return FAR;
    }
    if tree.len() <= j {
        return FAR;
    }
    let entry = tree[j];
    if entry == 0 {
        return FAR;
    }
    plus(
        entry % ENTRY_BASE,
        distance(tree, root, left - 1, (entry / ENTRY_BASE) as usize),
    )
}

// The distances in a row that holds a tree rooted at a unit, of the units below the count.
pub fn distances(tree: [u32; UNITS], count: usize, root: usize) -> [u32; UNITS]
    ensures { result ≡ distances_in count root tree }
{
    let mut row = [0u32; UNITS];
    if UNITS < count {
        return row;
    }
    for j in 0..count {
        row[j] = distance(&tree[..count], root, count - 1, j);
    }
    row
}

// Whether unit j's entry is nothing, or a head and a cost from which following heads reaches the root.
fn legal_entry(tree: &[u32], root: usize, j: usize) -> bool
    requires { j < length tree.now }
    ensures { result ≡ legal_entry (length tree.now) root tree.now j }
{
    let entry = tree[j];
    if entry == 0 {
        return true;
    }
    if j == root {
        return false;
    }
    if tree.len() <= (entry / ENTRY_BASE) as usize {
        return false;
    }
    if entry % ENTRY_BASE < 1 {
        return false;
    }
    distance(tree, root, tree.len() - 1, j) < FAR
}

// Whether a row with a place for each unit is a tree rooted at `root`.
pub fn is_tree(tree: &[u32], root: usize) -> bool
    ensures { result ≡ is_tree (length tree.now) root tree.now }
{
    (0..tree.len()).all(|j| legal_entry(tree, root, j))
}
