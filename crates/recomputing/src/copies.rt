// The copies of the neighbours' trees: one array, with a row of UNITS numbers for each unit. Only this file knows how they are
// stored.
ghost use Rattle.std.specs.Prelude.{◌≡◌};
ghost use Rattle.recomputing.specs.Flat.{row_in, with_row, distances_in};

use crate::heads;
use ground::{COPIES, UNITS};

// The copy of unit k's tree.
pub fn copy_of(copies: &[u32], k: usize) -> [u32; UNITS]
    ensures { result ≡ row_in copies.now k }
{
    let mut row = [0u32; UNITS];
    if UNITS <= k {
        return row;
    }
    if copies.len() != COPIES {
        return row;
    }
    let from = k * UNITS;
    slices::lay_over(&mut row, 0, &copies[from..from + UNITS]);
    row
}

// The copies with another row for unit k.
pub fn with_copy(copies: [u32; COPIES], k: usize, row: [u32; UNITS]) -> [u32; COPIES]
    ensures { result ≡ with_row copies k row }
{
    let mut after = copies;
    if UNITS <= k {
        return after;
    }
    slices::lay_over(&mut after, k * UNITS, &row);
    after
}

// The distances in unit k's copy, in which k is the root, of the units below the count.
pub fn distances(copies: &[u32], count: usize, k: usize) -> [u32; UNITS]
    ensures { result ≡ distances_in count k (row_in copies.now k) }
{
    heads::distances(copy_of(copies, k), count, k)
}
