// What `show` prints: for each unit of a network a line with its state, then a line for each other destination.
#![tactic(auto)]

ghost use Rattle.std.specs.Prelude.{◌≡◌, ◌≤◌, ◌<◌};
ghost use Rattle.ground.specs.Limits.{unit_limit};
ghost use Rattle.slices.specs.Putting.{used_after, put_after};
ghost use Rattle.listing.specs.Showing.{way_to, row_lines};
ghost use Rattle.listing.specs.Shown.{show_text};

use state::questions::Row;
use texts::{row, text};

// The line of a destination, unless it is the unit itself.
fn put_way(out: &mut [u8], used: usize, unit: Row, i: u32, j: usize) -> usize
    requires { (unit.count ≤ unit_limit) × (j < unit.count) }
    ensures answer { result ≡ used_after used (way_to unit i j) out.old }
    ensures out { out.new ≡ put_after used (way_to unit i j) out.old }
{
    let to = j as u32;
    if to == i {
        return used;
    }
    let distances = unit.distances;
    let feasible = unit.feasible;
    let successors = unit.successors;
    row::put_pair(
        out,
        used,
        i,
        to,
        distances[j],
        feasible[j],
        successors[j],
        unit.count as u32,
    )
}

// All lines of a unit.
fn put_unit(out: &mut [u8], used: usize, unit: Row, i: u32) -> usize
    requires { unit.count ≤ unit_limit }
    ensures answer { result ≡ used_after used (row_lines unit i) out.old }
    ensures out { out.new ≡ put_after used (row_lines unit i) out.old }
{
    let count = unit.count;
    let mut then = row::put_state(out, used, i, unit.active);
    for j in 0..count {
        then = put_way(out, then, unit, i, j);
    }
    then
}

// All units' lines, or the refusal of tables that are not fit, behind the bytes used. Answers those used then.
pub fn show(words: &[u32], queues: &[u8], out: &mut [u8], used: usize) -> usize
    ensures answer { result ≡ used_after used (show_text words.now queues.now) out.old }
    ensures out { out.new ≡ put_after used (show_text words.now queues.now) out.old }
{
    let count = match asking::row_of(words, queues, 0) {
        Ok(first) => first.count as u32,
        Err(refusal) => return text::put_refused(out, used, refusal.number()),
    };
    let mut then = used;
    for i in 0..count {
        // Where the first row is not refused, none is.
        if let Ok(unit) = asking::row_of(words, queues, i) {
            then = put_unit(out, then, unit, i);
        }
    }
    then
}
