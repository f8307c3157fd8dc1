// Successor sets, from the distances through neighbours and the feasible distances.
ghost use Rattle.std.specs.Prelude.{◌≡◌, ◌≤◌, ◌<◌};
ghost use Rattle.ground.specs.Limits.{unit_limit};
ghost use Rattle.ground.specs.Rows.{counted, filled};
ghost use Rattle.recomputing.specs.Successors.{set_over, sets_over};

use ground::UNITS;

// The successor set of destination j, the sum of 2 to the power k over its successors k.
fn set_over(count: usize, through: [[u32; UNITS]; UNITS], feasible: [u32; UNITS], j: usize) -> u32
    requires { (count ≤ unit_limit) × (j < count) }
    ensures { result ≡ set_over count through feasible j }
{
    let mut set: u32 = 0;
    let mut bit: u32 = 1;
    for k in 0..count {
        if through[k][j] < feasible[j] {
            set += bit;
        }
        bit *= 2;
    }
    set
}

// The successor sets of all destinations.
pub fn sets_over(
    count: usize,
    through: [[u32; UNITS]; UNITS],
    feasible: [u32; UNITS],
) -> [u32; UNITS]
    ensures { result ≡ filled unit_limit (counted count (sets_over count through feasible)) }
{
    let mut sets = [0u32; UNITS];
    if UNITS < count {
        return sets;
    }
    for j in 0..count {
        sets[j] = set_over(count, through, feasible, j);
    }
    sets
}
