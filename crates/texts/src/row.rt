// The lines of a unit's row: one with its state, and one for each other destination with the unit's ways to it.
ghost use Rattle.std.specs.Prelude.{◌||◌, [], ◌∷◌, ◌++◌, ◌≡◌};
ghost use Rattle.ground.specs.Bytes.{space, comma};
ghost use Rattle.std.specs.Prelude.{if◌then◌else◌};
ghost use Rattle.ground.specs.Rows.{is_in};
ghost use Rattle.texts.specs.Printed.{distance_text, joined_to, successors_text, state_text, state_line, pair_line, is_some, member_text};
ghost use Rattle.slices.specs.Putting.{used_after, put_after};
ghost use Rattle.texts.specs.Texts.{decimal_of};

use crate::text;
use ground::FAR;
use slices::bytes;

// The bytes used once some successors are put, and whether there are any.
#[derive(Clone, Copy)]
struct Listed {
    used: usize,
    some: bool,
}

// A distance, or a hyphen for unreachable.
fn put_distance(out: &mut [u8], used: usize, distance: u32) -> usize
    ensures answer { result ≡ used_after used (distance_text distance) out.old }
    ensures out { out.new ≡ put_after used (distance_text distance) out.old }
{
    if distance == FAR {
        return bytes::put_byte(out, used, b'-');
    }
    text::put_number(out, used, distance)
}

// A space, and then a distance.
fn put_next(out: &mut [u8], used: usize, distance: u32) -> usize
    ensures answer { result ≡ used_after used (space ∷ distance_text distance) out.old }
    ensures out { out.new ≡ put_after used (space ∷ distance_text distance) out.old }
{
    let then = bytes::put_byte(out, used, b' ');
    put_distance(out, then, distance)
}

// A comma, if there were successors before.
fn put_comma(out: &mut [u8], used: usize, some: bool) -> usize
    ensures answer { result ≡ used_after used (if some then comma ∷ [] else []) out.old }
    ensures out { out.new ≡ put_after used (if some then comma ∷ [] else []) out.old }
{
    if some {
        return bytes::put_byte(out, used, b',');
    }
    used
}

// A successor, if it is one, with a comma before it, if there were others.
fn put_member(out: &mut [u8], before: Listed, k: u32, member: bool) -> Listed
    ensures used { result.used ≡ used_after before.used (member_text before.some k member) out.old }
    ensures out { out.new ≡ put_after before.used (member_text before.some k member) out.old }
    ensures some { result.some ≡ (member || before.some) }
{
    if member {
        let then = put_comma(out, before.used, before.some);
        let used = text::put_number(out, then, k);
        return Listed { used, some: true };
    }
    before
}

// The successors in a set, joined by commas.
fn put_joined(out: &mut [u8], used: usize, set: u32, count: u32) -> Listed
    ensures used { result.used ≡ used_after used (joined_to count (is_in set)) out.old }
    ensures out { out.new ≡ put_after used (joined_to count (is_in set)) out.old }
    ensures some { result.some ≡ is_some (joined_to count (is_in set)) }
{
    let mut then = Listed { used, some: false };
    let mut rest = set;
    for k in 0..count {
        then = put_member(out, then, k, rest % 2 == 1);
        rest /= 2;
    }
    then
}

// The same, or a hyphen for none.
fn put_successors(out: &mut [u8], used: usize, set: u32, count: u32) -> usize
    ensures answer { result ≡ used_after used (successors_text count (is_in set)) out.old }
    ensures out { out.new ≡ put_after used (successors_text count (is_in set)) out.old }
{
    let joined = put_joined(out, used, set, count);
    if joined.some {
        return joined.used;
    }
    bytes::put_byte(out, joined.used, b'-')
}

// A unit and a destination.
fn put_ends(out: &mut [u8], used: usize, i: u32, j: u32) -> usize
    ensures answer { result ≡ used_after used (decimal_of i ++ (space ∷ decimal_of j)) out.old }
    ensures out { out.new ≡ put_after used (decimal_of i ++ (space ∷ decimal_of j)) out.old }
{
    let then = text::put_number(out, used, i);
    let then = bytes::put_byte(out, then, b' ');
    text::put_number(out, then, j)
}

// A space, and the word of a state.
fn put_word(out: &mut [u8], used: usize, active: bool) -> usize
    ensures answer { result ≡ used_after used (state_text active) out.old }
    ensures out { out.new ≡ put_after used (state_text active) out.old }
{
    if active {
        return bytes::put_text(out, used, b" active");
    }
    bytes::put_text(out, used, b" passive")
}

// The line of a unit's state.
pub fn put_state(out: &mut [u8], used: usize, i: u32, active: bool) -> usize
    ensures answer { result ≡ used_after used (state_line i active) out.old }
    ensures out { out.new ≡ put_after used (state_line i active) out.old }
{
    let then = bytes::put_text(out, used, b"unit ");
    let then = text::put_number(out, then, i);
    let then = put_word(out, then, active);
    bytes::put_byte(out, then, b'\n')
}

// The line of a unit and a destination: its distance, its feasible distance, and its successors, a set of `count` units.
pub fn put_pair(
    out: &mut [u8],
    used: usize,
    i: u32,
    j: u32,
    distance: u32,
    feasible: u32,
    successors: u32,
    count: u32,
) -> usize
    ensures answer { result ≡ used_after used (pair_line count i j distance feasible (is_in successors)) out.old }
    ensures out { out.new ≡ put_after used (pair_line count i j distance feasible (is_in successors)) out.old }
{
    let then = put_ends(out, used, i, j);
    let then = put_next(out, then, distance);
    let then = put_next(out, then, feasible);
    let then = bytes::put_byte(out, then, b' ');
    let then = put_successors(out, then, successors, count);
    bytes::put_byte(out, then, b'\n')
}
